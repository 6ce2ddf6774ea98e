// The item of a block, as a task finds it in its tray.
ghost use Rattle.std.specs.Prelude.{◌≡◌};
ghost use Rattle.plain.specs.Moves.{item_of, message_item};

use plain::records::{Carries, Kind, TrayItem};

// The number of an item that is told by no block: an answer carries it as a number, so it is no Option.
const NO_NUMBER: u16 = 65535;

// A message, with a block or without one.
pub fn message_item() -> TrayItem
    ensures { result ≡ message_item }
{
    TrayItem {
        kind: Kind::Message,
        number: NO_NUMBER,
        status: 0,
    }
}

// The item of a block, by what the block carries.
pub fn item_of(block: u8, carries: Carries) -> TrayItem
    ensures { result ≡ item_of block carries }
{
    let number = u16::from(block);
    match carries {
        Carries::Message => message_item(),
        Carries::Request { .. } => TrayItem {
            kind: Kind::Request,
            number,
            status: 0,
        },
        Carries::Reply { status } => TrayItem {
            kind: Kind::Reply,
            number,
            status,
        },
        Carries::Alarm => TrayItem {
            kind: Kind::Alarm,
            number,
            status: 0,
        },
    }
}
