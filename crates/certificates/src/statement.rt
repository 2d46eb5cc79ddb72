//! What a vote signs.

ghost use Rattle.std.specs.Prelude.{◌≡◌};
ghost use Rattle.certificates.specs.Statements.{statement_text, StatementsHaveOneSpelling};

use base_wire::put;
use blocks::Id;

/// The length of a statement in bytes.
pub const STATEMENT_LEN: usize = 76;

/// A vote's view and block id, in one chain: the message that the vote signs.
#[derive(Clone, Copy, Debug, PartialEq, Eq)]
pub struct Statement {
    pub chain: Id,
    pub view: u64,
    pub id: Id,
}

impl Statement {
    /// The 76 bytes that are signed: `HSV1`, the chain id at 4, the view at 36, the block's id at 44.
    #[tactic(auto, using(base_wire::proofs::Numbers::filled), unfolding(crate::specs::Statements::statement_text))]
    pub fn to_bytes(&self) -> [u8; 76]
        ensures { result ≡ statement_text self.now.chain self.now.view self.now.id }
    {
        let mut bytes = [0; STATEMENT_LEN];
        put(&mut bytes, 0, b"HSV1");
        put(&mut bytes, 4, &self.chain);
        put(&mut bytes, 36, &self.view.to_be_bytes());
        put(&mut bytes, 44, &self.id);
        bytes
    }
}

/// A signature on one statement is on no other: two statements with the same bytes are the same.
pub fn statements_have_one_spelling()
    ensures { StatementsHaveOneSpelling }
{}
