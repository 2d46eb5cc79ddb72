//! Marks by which votes are known to be the same without a comparison.

ghost use Rattle.std.specs.Prelude.{◌≡◌, List, ⊤, IsTrue};
ghost use Rattle.certificates.specs.declared.vote.SignedVote.{SignedVote as SignedVoteValue};

/// Marks the votes of a certificate, so that those that have one mark need not be compared. Different marks say nothing.
pub trait Mark: Drop {
    // whether it marks these votes
    ghost marks: { Self → List SignedVoteValue → Type 0 };

    /// Whether the other is the same mark, which then marks the same votes.
    fn is(&self, other: &Self) -> bool
        ensures { IsTrue result → (xs ys : List SignedVoteValue) → marks self.now xs
            → marks other.now ys → xs ≡ ys };
}

/// No mark. Votes are compared.
#[derive(Clone, Copy, Drop)]
pub struct Unmarked;

impl Mark for Unmarked {
    ghost marks = { λ _ _. ⊤ };

    fn is(&self, _other: &Unmarked) -> bool {
        false
    }
}
