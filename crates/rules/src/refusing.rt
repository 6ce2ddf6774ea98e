// Refusals: the least number is given, a refused call changes nothing, and 16 goes with the free blocks.
ghost use Rattle.rules.specs.Refusing.{BlocksNeeded, Least, Unchanged};

use messages::message::Message;

pub fn least_refusal_is_given<M: Message>()
    ensures { Least M.Message.reading }
{}

pub fn refused_call_changes_nothing<M: Message>()
    ensures { Unchanged M.Message.reading }
{}

pub fn sixteen_means_no_free_block<M: Message>()
    ensures { BlocksNeeded M.Message.reading }
{}
