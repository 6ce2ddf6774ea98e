// Runs from an opening: each call is accepted and each refusal met somewhere, and examples of what the law of the books leaves open.
ghost use Rattle.std.specs.Prelude.{[]};
ghost use Rattle.worked.specs.Examples.{Examples};
ghost use Rattle.worked.specs.Reached.{Reached};

use messages::message::Message;

// The empty list is no message of any kind.
pub fn calls_and_refusals_are_reached<M: Message>(message: M, filler: M)
    ensures { Reached M.Message.form M.Message.reading message filler [] }
{}

pub fn examples_hold<M: Message>(message: M, filler: M)
    ensures { Examples M.Message.form M.Message.reading message filler }
{}
