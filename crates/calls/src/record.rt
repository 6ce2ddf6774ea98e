// The record of a call: its code and the fields of its row, as the batch writer takes them. And the row as it lies in a batch, which borrows.
ghost use Rattle.std.specs.Prelude.{◌≡◌};
ghost use Rattle.calls.specs.Records.{row_record};

#[derive(Clone, Copy, Debug, PartialEq, Eq)]
pub struct CallRecord {
    // a number and no `CallCode`: one that is no call's code is refused where the record is judged
    pub code: u8,
    pub n1: u16,
    pub n2: u16,
    pub n3: u32,
    pub name: [u8; 8],
    pub message: [u8; 8],
}

// The same fields, with the name and the message where they lie.
#[derive(Clone, Copy, Debug, PartialEq, Eq)]
pub struct Row<'a> {
    // the byte as it lies, judged with the row
    pub code: u8,
    pub n1: u16,
    pub n2: u16,
    pub n3: u32,
    pub name: &'a [u8; 8],
    pub message: &'a [u8; 8],
}

impl CallRecord {
    // The record as a row, which borrows from it: a view, and so a method and no `From`.
    pub fn row(&self) -> Row<'_>
        ensures { row_record result ≡ self.now }
    {
        Row {
            code: self.code,
            n1: self.n1,
            n2: self.n2,
            n3: self.n3,
            name: &self.name,
            message: &self.message,
        }
    }
}
