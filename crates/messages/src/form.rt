// The form: what a billing office or a counter sends, a tariff table or a cancellation. Every value has eight bytes: its ranges are in its type.
ghost use Rattle.std.specs.Prelude.{◌^◌, ◌<◌, ◌≤◌};

mod kind;
mod make;
mod words;

#[derive(Clone, Copy, Debug, PartialEq, Eq, Hash)]
pub struct Tariff {
    // 1 to 9999
    pub table: u16,
    pub day: u32,
    ghost first_table: { 1 ≤ table },
    ghost last_table: { table ≤ 9999 },
    ghost day_fits: { day < 2 ^ 32 },
}

#[derive(Clone, Copy, Debug, PartialEq, Eq, Hash)]
pub struct Cancellation {
    pub cents: u16,
    pub hire: u32,
    ghost cents_fit: { cents < 2 ^ 16 },
    ghost hire_fits: { hire < 2 ^ 32 },
}

#[derive(Clone, Copy, Debug, PartialEq, Eq, Hash)]
pub enum Form {
    Tariff(Tariff),
    Cancellation(Cancellation),
}
