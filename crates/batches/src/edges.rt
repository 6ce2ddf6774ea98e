// The worked edges that concern batches, as theorems: these functions do nothing, and their contracts say that the edges hold.
ghost use Rattle.batches.specs.Edges.{BatchEdges, DockEdges};

use messages::message::Message;

pub fn batch_edges_hold<M: Message>()
    ensures { BatchEdges M.Message.reading }
{}

pub fn dock_edges_hold()
    ensures { DockEdges }
{}
