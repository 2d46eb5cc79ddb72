//! What was heard of a server.

ghost use Rattle.std.specs.Prelude.{◌≡◌};
ghost use Rattle.log_request.specs.Hearing.{code_of, heard_of};
ghost use Rattle.log_request.specs.declared.heard.Heard.{Heard as HeardValue};

/// What was heard of a server that was asked for the log of a chain.
#[derive(Clone, Copy, Debug, PartialEq, Eq)]
pub enum Heard {
    /// It gave nothing.
    Nothing,
    /// It was asked by the chain's name, and gave something.
    Named,
    /// It closed without a byte, as earlier versions do, and was asked again without the chain's name.
    Unnamed,
    /// It has no log of the chain.
    NoLog,
}

impl Heard {
    /// As a number.
    pub(crate) fn code(self) -> u8
        ensures { result ≡ code_of self }
    {
        match self {
            Heard::Nothing => 0,
            Heard::Named => 1,
            Heard::Unnamed => 2,
            Heard::NoLog => 3,
        }
    }

    /// Of such a number.
    pub(crate) fn of(code: u8) -> Heard
        ensures { (heard : HeardValue) → code ≡ code_of heard → result ≡ heard }
    {
        match code {
            1 => Heard::Named,
            2 => Heard::Unnamed,
            3 => Heard::NoLog,
            _ => Heard::Nothing,
        }
    }
}

/// What is heard where a server was asked by the chain's name, and its first bytes, of which there is one at least, say that it has
/// no log of it, or do not.
pub(crate) fn heard_in(says_no_log: bool) -> Heard
    ensures { result ≡ heard_of says_no_log }
{
    if says_no_log {
        Heard::NoLog
    } else {
        Heard::Named
    }
}
