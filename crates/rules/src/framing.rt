// What a call leaves alone, and the order at an exchange.
ghost use Rattle.rules.specs.Framing.{Framed, OneSide, ServedInOrder};

use messages::message::Message;

pub fn call_changes_what_its_rule_names<M: Message>()
    ensures { Framed M.Message.reading }
{}

pub fn items_and_tasks_never_meet()
    ensures { OneSide }
{}

pub fn waiting_tasks_are_served_in_order<M: Message>()
    ensures { ServedInOrder M.Message.reading }
{}
