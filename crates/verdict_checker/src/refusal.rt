//! Why a verdict is refused.

ghost use Rattle.std.specs.Prelude.{◌≡◌};
ghost use Rattle.verdict_checker.specs.Checks.{refusal_number, refusal_name, of_form};

use verdict_format::VerdictRefusal;

/// Why a verdict is refused, in the order of the tests: the first that is not passed.
#[derive(Clone, Copy, Debug, PartialEq, Eq)]
pub enum Refusal {
    /// There are fewer than 39 bytes.
    Short = 1,
    /// They do not begin with `HSX2`.
    Magic = 2,
    /// The kind is neither 1 nor 2.
    Kind = 3,
    /// The bytes are not as many as the kind asks for.
    Length = 4,
    /// The chain id is not the committee's.
    Chain = 5,
    /// The committee has no such replica.
    Replica = 6,
    /// A vote names a key that the replica has not.
    KeyNumber = 11,
    /// Of kind 2: a header is unreadable, or is not that of its vote's block, or not the parent that the
    /// earlier vote's block names, by id and view.
    HeaderMismatch = 7,
    /// The votes do not break the rule of the kind.
    NoRuleBroken = 8,
    /// The first vote's signature does not verify under the key that the vote names.
    SignatureE = 9,
    /// The second vote's signature does not verify under the key that the vote names.
    SignatureW = 10,
}

impl Refusal {
    /// The number of the refusal, which never changes.
    pub fn number(self) -> u8
        ensures { result ≡ refusal_number self }
    {
        self as u8
    }

    /// Its name, as programs print it.
    pub fn name(self) -> &'static str
        ensures { result.now ≡ refusal_name self }
    {
        match self {
            Refusal::Short => "Short",
            Refusal::Magic => "Magic",
            Refusal::Kind => "Kind",
            Refusal::Length => "Length",
            Refusal::Chain => "Chain",
            Refusal::Replica => "Replica",
            Refusal::KeyNumber => "KeyNumber",
            Refusal::HeaderMismatch => "HeaderMismatch",
            Refusal::NoRuleBroken => "NoRuleBroken",
            Refusal::SignatureE => "SignatureE",
            Refusal::SignatureW => "SignatureW",
        }
    }
}

impl From<VerdictRefusal> for Refusal {
    ghost from_gives = { λ refusal r. r ≡ of_form refusal };

    fn from(refusal: VerdictRefusal) -> Refusal {
        match refusal {
            VerdictRefusal::Short => Refusal::Short,
            VerdictRefusal::Magic => Refusal::Magic,
            VerdictRefusal::Kind => Refusal::Kind,
            VerdictRefusal::Length => Refusal::Length,
        }
    }
}
