// The 18 codes of calls, and which fields of a row each call uses.
ghost use Rattle.std.specs.Prelude.{◌≡◌, Some};
ghost use Rattle.calls.specs.Codes.{CodeOf, code_number, uses};
ghost use Rattle.calls.specs.Words.{code_word, unknown_code_words};

use std::error::Error;
use std::fmt;

// The code of each call, with its number.
#[derive(Clone, Copy, Debug, PartialEq, Eq, Hash)]
pub enum CallCode {
    Start = 1,
    Open = 2,
    Close = 3,
    Register = 4,
    Strike = 5,
    Post = 6,
    Tick = 7,
    Send = 8,
    Wait = 9,
    Check = 10,
    Request = 11,
    Respond = 12,
    Move = 13,
    Alarm = 14,
    Cancel = 15,
    Priority = 16,
    End = 17,
    Tray = 18,
}

// A number that is no call's code.
#[derive(Clone, Copy, Debug, PartialEq, Eq, Hash)]
pub struct UnknownCode(pub u8);

// Which of a row's five fields a call uses; the others must be zero.
#[derive(Clone, Copy, Debug, PartialEq, Eq, Hash)]
pub struct Uses {
    pub n1: bool,
    pub n2: bool,
    pub n3: bool,
    pub name: bool,
    pub message: bool,
}

// The use of no field.
const NOTHING: Uses = Uses {
    n1: false,
    n2: false,
    n3: false,
    name: false,
    message: false,
};

impl CallCode {
    pub fn uses(self) -> Uses
        ensures { result ≡ uses self }
    {
        match self {
            CallCode::Tick | CallCode::End | CallCode::Tray => NOTHING,
            CallCode::Open
            | CallCode::Close
            | CallCode::Wait
            | CallCode::Check
            | CallCode::Cancel
            | CallCode::Priority => Uses {
                n1: true,
                ..NOTHING
            },
            CallCode::Start | CallCode::Move => Uses {
                n1: true,
                n2: true,
                ..NOTHING
            },
            CallCode::Strike => Uses {
                name: true,
                ..NOTHING
            },
            CallCode::Register => Uses {
                n1: true,
                name: true,
                ..NOTHING
            },
            CallCode::Post | CallCode::Send => Uses {
                n1: true,
                message: true,
                ..NOTHING
            },
            CallCode::Request => Uses {
                n1: true,
                name: true,
                message: true,
                ..NOTHING
            },
            CallCode::Respond => Uses {
                n1: true,
                n3: true,
                ..NOTHING
            },
            CallCode::Alarm => Uses {
                n1: true,
                n3: true,
                message: true,
                ..NOTHING
            },
        }
    }
}

impl TryFrom<u8> for CallCode {
    type Error = UnknownCode;

    ghost try_from_gives = { CodeOf };

    fn try_from(number: u8) -> Result<CallCode, UnknownCode> {
        match number {
            1 => Ok(CallCode::Start),
            2 => Ok(CallCode::Open),
            3 => Ok(CallCode::Close),
            4 => Ok(CallCode::Register),
            5 => Ok(CallCode::Strike),
            6 => Ok(CallCode::Post),
            7 => Ok(CallCode::Tick),
            8 => Ok(CallCode::Send),
            9 => Ok(CallCode::Wait),
            10 => Ok(CallCode::Check),
            11 => Ok(CallCode::Request),
            12 => Ok(CallCode::Respond),
            13 => Ok(CallCode::Move),
            14 => Ok(CallCode::Alarm),
            15 => Ok(CallCode::Cancel),
            16 => Ok(CallCode::Priority),
            17 => Ok(CallCode::End),
            18 => Ok(CallCode::Tray),
            _ => Err(UnknownCode(number)),
        }
    }
}

impl From<CallCode> for u8 {
    ghost from_gives = { λ code n. n ≡ code_number code };

    fn from(code: CallCode) -> u8 {
        code as u8
    }
}

// A table of words, as each type that is printed has one of its own.
impl fmt::Display for CallCode {
    ghost output = { λ code. Some (code_word code) };

    fn fmt<W: fmt::Write>(&self, f: &mut fmt::Formatter<W>) -> fmt::Result {
        f.write_str(match self {
            CallCode::Start => "Start",
            CallCode::Open => "Open",
            CallCode::Close => "Close",
            CallCode::Register => "Register",
            CallCode::Strike => "Strike",
            CallCode::Post => "Post",
            CallCode::Tick => "Tick",
            CallCode::Send => "Send",
            CallCode::Wait => "Wait",
            CallCode::Check => "Check",
            CallCode::Request => "Request",
            CallCode::Respond => "Respond",
            CallCode::Move => "Move",
            CallCode::Alarm => "Alarm",
            CallCode::Cancel => "Cancel",
            CallCode::Priority => "Priority",
            CallCode::End => "End",
            CallCode::Tray => "Tray",
        })
    }
}

impl fmt::Display for UnknownCode {
    ghost output = { λ e. Some (unknown_code_words e) };

    fn fmt<W: fmt::Write>(&self, f: &mut fmt::Formatter<W>) -> fmt::Result {
        write!(f, "{} is no call's code", self.0)
    }
}

impl Error for UnknownCode {}
