// The two tables of messages that are lent to a station: a place for each block, and a place for each task.
ghost use Rattle.std.specs.Prelude.{◌≡◌, slice_set};
ghost use Rattle.std.specs.List.{slice_get};
ghost use Rattle.plain.specs.Moves.{written_if};

// Writes a message to a place. Where the place is not there, nothing changes.
// By index: tried with `get_mut`, and the proof does not close, since it does not say what the slice is after the write.
#[tactic(auto, using(std::proofs::lemmas::List::set_past))]
pub(crate) fn write_message<M: Copy>(places: &mut [M], place: u8, message: M)
    ensures { places.new ≡ slice_set places.old place message }
{
    let at = usize::from(place);
    if at < places.len() {
        places[at] = message;
    }
}

// The messages are lent shared and the trays for writing: two loans. Copies a block's message to a task's tray place. Where one of the places is not there, nothing changes.
pub(crate) fn copy_message<M: Copy>(messages: &[M], block: u8, trays: &mut [M], task: u8)
    ensures { trays.new ≡ written_if task (slice_get messages.now block) trays.old }
{
    if let Some(message) = messages.get(usize::from(block)) {
        write_message(trays, task, *message);
    }
}
