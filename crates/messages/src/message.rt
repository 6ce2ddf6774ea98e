// The trait of a kind of message: every message of the kind has a form of eight bytes, and no two have the same.
ghost use Rattle.std.specs.Prelude.{◌≡◌, ℕ, true, List, length, Some, Option};
ghost use Rattle.messages.specs.Bytes.{AllBytes};

pub trait Message: Copy {
    // The eight bytes that stand for the message.
    ghost form: { Self → List ℕ };

    // The message that the bytes are the form of, or none.
    ghost reading: { List ℕ → Option Self };

    // Here and below no `TryFrom` and `From`: generic code rests on the laws, which tie reading to the form.
    fn read(bytes: &[u8; 8]) -> Option<Self>
        ensures { result ≡ reading bytes.now };

    fn to_bytes(&self) -> [u8; 8]
        ensures { result ≡ form self.now };

    ghost eight: { (m : Self) → length (form m) ≡ 8 };

    ghost bytes: { (m : Self) → AllBytes (form m) ≡ true };

    // A form reads back as its message,
    ghost reads: { (m : Self) → reading (form m) ≡ Some m };

    // and what reads as a message is its form.
    ghost only: { (bs : List ℕ) (m : Self) → reading bs ≡ Some m → form m ≡ bs };
}
