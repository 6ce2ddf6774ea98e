// One row where it lies: three numbers in eight bytes, and eight bytes each of a name and a message.
ghost use Rattle.batches.specs.Readers.{Parsed};

use calls::record::Row;

// The row in front of these bytes, or none where they are fewer than a row has. Its code is the byte as it lies, which is judged later.
pub(super) fn row_in(code: u8, bytes: &[u8]) -> Option<Row<'_>>
    ensures { Parsed code bytes.now result }
{
    // one test of the length here, and the three below compile to nothing
    if bytes.len() < 24 {
        return None;
    }
    let (numbers, texts) = bytes.split_first_chunk::<8>()?;
    let (name, texts) = texts.split_first_chunk::<8>()?;
    let (message, _) = texts.split_first_chunk::<8>()?;
    Some(Row {
        code,
        n1: u16::from_le_bytes([numbers[0], numbers[1]]),
        n2: u16::from_le_bytes([numbers[2], numbers[3]]),
        n3: u32::from_le_bytes([numbers[4], numbers[5], numbers[6], numbers[7]]),
        name,
        message,
    })
}
