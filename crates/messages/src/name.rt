// Service names: which eight bytes are one.
ghost use Rattle.std.specs.Prelude.{◌≡◌};
ghost use Rattle.messages.specs.Names.{may_follow, service_name};

// Whether the byte may stand in a name behind a space, or behind another byte.
fn may_follow(after_space: bool, byte: u8) -> bool
    ensures { result ≡ may_follow after_space byte }
{
    match byte {
        b' ' => true,
        b'A'..=b'Z' | b'0'..=b'9' => !after_space,
        _ => false,
    }
}

// Whether the bytes are a service name: letters A to Z and digits, a letter first, padded with spaces at the end.
pub fn is_service_name(bytes: &[u8; 8]) -> bool
    ensures { result ≡ service_name bytes.now }
{
    if !bytes[0].is_ascii_uppercase() {
        return false;
    }
    // a loop with a flag: tried with `windows(2).all(..)`, and the proof does not close
    let mut after_space = false;
    for b in bytes {
        if !may_follow(after_space, *b) {
            return false;
        }
        after_space = *b == b' ';
    }
    true
}
