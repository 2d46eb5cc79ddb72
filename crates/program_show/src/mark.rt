//! What is shown of signatures: by which key they are, and whether they are good.

ghost use Rattle.std.specs.Prelude.{◌≡◌, ◌++◌, OnOk, count_by, decimal, length};
ghost use Rattle.program_show.specs.Lines.{good_count_line, key_part, signatures_line, unchecked_line};
ghost use Rattle.program_show.specs.Marks.{IsMark, is_good, mark_text};

use base_text::put_number;
use base_wire::append;
use blocks::Ballot;
use certificates::{CommitteeView, LmsVerifier, is_signed_by};
use std::alloc::AllocError;

/// Whether a signature is good, where a committee was given to ask.
#[derive(Clone, Copy, Debug, PartialEq, Eq)]
pub(crate) enum Mark {
    /// There is no committee.
    Unasked,
    /// It is good.
    Good,
    /// It is not, or the committee has no such replica, or the replica no such key.
    Bad,
}

impl Mark {
    /// The word that is printed behind a vote.
    pub(crate) fn word(self) -> &'static str
        ensures { result.now ≡ mark_text self }
    {
        match self {
            Mark::Unasked => "",
            Mark::Good => " good",
            Mark::Bad => " bad",
        }
    }

    /// Whether it says that the signature is good.
    pub(crate) fn is_good(self) -> bool
        ensures { result ≡ is_good self }
    {
        match self {
            Mark::Good => true,
            Mark::Unasked | Mark::Bad => false,
        }
    }
}

/// The mark of a replica's vote on a block, signed with its key of this number.
pub(crate) fn mark_of(
    committee: &Option<CommitteeView>,
    replica: u16,
    key: u8,
    on: &Ballot,
    signature: &[u8],
) -> Mark
    ensures { IsMark committee.now (record {
      replica = replica;
      view = on.now.view;
      id = on.now.id;
      key = key;
      signature = signature.now;
    }) result }
{
    let Some(committee) = committee else {
        return Mark::Unasked;
    };
    if replica >= committee.n() || key >= committee.keys(replica) {
        return Mark::Bad;
    }
    if is_signed_by(&LmsVerifier, committee, replica, key, on, signature) {
        Mark::Good
    } else {
        Mark::Bad
    }
}

/// Adds the number of the key that a vote names, and the index of its one-time key.
#[tactic(auto, unfolding(crate::specs::Lines::key_part))]
pub(crate) fn put_key_part(text: &mut Vec<u8>, key: u8, index: u32) -> Result<(), AllocError>
    ensures { OnOk result (text.new.items ≡ text.old.items ++ key_part key index) }
{
    append(text, b" key ")?;
    put_number(text, key)?;
    append(text, b" index ")?;
    put_number(text, index)
}

/// Adds the line that counts the signatures and those of them that are good, where a committee was given.
pub(crate) fn put_count(
    text: &mut Vec<u8>,
    committee: &Option<CommitteeView>,
    marks: &[Mark],
) -> Result<(), AllocError>
    ensures { OnOk result (text.new.items ≡ text.old.items
        ++ good_count_line committee.now marks.now) }
{
    match committee {
        Some(_) => put_signatures(text, marks.len(), count_of_good(marks)),
        None => Ok(()),
    }
}

fn count_of_good(marks: &[Mark]) -> usize
    ensures { result ≡ count_by is_good marks.now }
{
    marks.iter().filter(|mark| mark.is_good()).count()
}

#[tactic(auto, unfolding(crate::specs::Lines::signatures_line))]
fn put_signatures(text: &mut Vec<u8>, count: usize, good: usize) -> Result<(), AllocError>
    ensures { OnOk result (text.new.items ≡ text.old.items ++ signatures_line count good) }
{
    append(text, b"signatures ")?;
    put_number(text, count)?;
    append(text, b" good ")?;
    put_number(text, good)?;
    append(text, b"\n")
}

/// Adds the line that counts signatures of which none is checked, whether or not a committee was given.
#[tactic(auto, unfolding(crate::specs::Lines::unchecked_line))]
pub(crate) fn put_unchecked(text: &mut Vec<u8>, count: usize) -> Result<(), AllocError>
    ensures { OnOk result (text.new.items ≡ text.old.items ++ unchecked_line count) }
{
    append(text, b"signatures ")?;
    put_number(text, count)?;
    append(text, b" not checked\n")
}
