// What a call answers. specs/Answers.antt gives each case its number, kind, status and message.
use crate::records::{Kind, TrayItem};
use calls::refusal::Refusal;

#[derive(Clone, Copy, Debug, PartialEq, Eq, Hash)]
pub enum Answer<M> {
    // nothing was changed
    Refused(Refusal),
    // accepted, with nothing more to tell
    Done,
    // Request and Alarm: the block taken
    Block(u16),
    // Wait and Check: an item of this kind was taken
    Took(Kind),
    // Tray: the item in the caller's tray, and its message
    Tray { item: TrayItem, message: M },
}
