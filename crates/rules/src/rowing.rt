// Rows of a batch and the calls of the plain station.
ghost use Rattle.rules.specs.Rowing.{RowsAreCalls};

use messages::message::Message;

pub fn rows_are_calls<M: Message>()
    ensures { RowsAreCalls M.Message.reading }
{}
