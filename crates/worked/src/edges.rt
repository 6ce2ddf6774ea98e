// The worked edges, as one list, for every message of every kind, whatever fills the tables; and the run that docs/FORMATS.md prints for docks.
ghost use Rattle.worked.specs.Edges.{Edges, PrintedRun};

use messages::message::Message;

pub fn edges_hold<M: Message>(message: M, filler: M)
    ensures { Edges M.Message.form M.Message.reading message filler }
{}

pub fn printed_run_holds()
    ensures { PrintedRun }
{}
