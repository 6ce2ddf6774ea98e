// Making a tariff table from its fields.
ghost use Rattle.messages.specs.Forms.{TariffMade};

use crate::form::Tariff;

impl Tariff {
    // The tariff table with these fields, or none where the table is not 1 to 9999. Like the dock message's, but each kind has its
    // limits in its own type, and one constructor for both would say neither.
    pub fn new(table: u16, day: u32) -> Option<Tariff>
        ensures { TariffMade table day result }
    {
        if !(1..=9999).contains(&table) {
            return None;
        }
        Some(Tariff { table, day })
    }
}
