// Kinds of message that can be told in words.
ghost use Rattle.std.specs.Prelude.{◌≡◌, ℕ, List, Some, refl};
ghost use Rattle.messages.specs.Words.{dock_words, form_words};

use messages::dock::DockMessage;
use messages::form::Form;
use messages::message::Message;
use std::fmt;

// A kind of message that can be told in words, which are what it displays as.
pub trait InWords: Message + fmt::Display {
    ghost words: { Self → List ℕ };

    // The kind's name, as in 'a dock message'.
    const KIND: &'static str;

    ghost displays: { (m : Self) → Self.output m ≡ Some (words m) };
}

impl InWords for DockMessage {
    ghost words = { dock_words };

    const KIND: &'static str = "a dock message";

    ghost displays = { λ m. refl };
}

impl InWords for Form {
    ghost words = { form_words };

    const KIND: &'static str = "a form";

    ghost displays = { λ m. refl };
}
