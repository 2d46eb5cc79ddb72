//! Whether a log is one of another chain.

ghost use Rattle.std.specs.Prelude.{◌↔◌, IfOk, IsTrue, MatchOption, length};
ghost use Rattle.certificates.specs.GoodCertificates.{IsOnGenesis};
ghost use Rattle.certificates.specs.Votes.{IsGoodVote};
ghost use Rattle.log_format.specs.EntryText.{Entry as EntryValue, IsEntryOf};
ghost use Rattle.signer_answers.specs.OtherChain.{HasGoodEntry, IsFirstEntry, IsOfChain, IsOfOtherChain, SpellNone};

use blocks::CommitteeView;
use certificates::{Certificate, SignedVote, check_vote};
use log_format::{Entry, EntryRefusal, Frames};
use std::alloc::{AllocError, Global};

// Whether the certificate has no votes and is on genesis.
fn is_on_genesis(committee: &CommitteeView, certificate: &Certificate) -> bool
    ensures { IsTrue result ↔ IsOnGenesis committee.now certificate.now }
{
    certificate.count() == 0 && certificate.view() == 0 && *certificate.id() == committee.chain()
}

fn is_good(committee: &CommitteeView, vote: &SignedVote) -> bool
    ensures { IsTrue result ↔ IsGoodVote committee.now vote.now }
{
    check_vote(committee, vote).is_ok()
}

// Whether one of the certificate's votes is good.
fn has_good_vote(committee: &CommitteeView, certificate: &Certificate) -> bool
    ensures { IsTrue result ↔ HasGoodEntry committee.now certificate.now }
{
    for k in 0..certificate.count() {
        let vote = certificate.vote(k);
        if is_good(committee, &vote) {
            return true;
        }
    }
    false
}

// Whether the certificate is of the committee's chain.
fn is_of_chain(committee: &CommitteeView, certificate: &Certificate) -> bool
    ensures { IsTrue result ↔ IsOfChain committee.now certificate.now }
{
    is_on_genesis(committee, certificate) || has_good_vote(committee, certificate)
}

// The entry that a frame spells, if it spells one.
fn entry_in(alloc: Global, frame: &[u8]) -> Result<Option<Entry>, AllocError>
    ensures { IfOk result (λ entry. MatchOption entry ((e : EntryValue) → IsEntryOf frame.now e → ⊥)
        (IsEntryOf frame.now)) }
{
    match Entry::read(alloc, frame) {
        Ok(entry) => Ok(Some(entry)),
        Err(EntryRefusal::Memory) => Err(AllocError),
        Err(_) => Ok(None),
    }
}

// The first entry of the frames, if one of them spells an entry.
fn first_entry(alloc: Global, frames: &Frames) -> Result<Option<Entry>, AllocError>
    ensures { IfOk result (λ entry. MatchOption entry
        (SpellNone frames.now.frames (length frames.now.frames)) (IsFirstEntry frames.now.frames)) }
{
    for k in 0..frames.len() {
        if let Some(entry) = entry_in(alloc, frames.payload(k))? {
            return Ok(Some(entry));
        }
    }
    Ok(None)
}

/// Whether a log, of which these are the frames from its first on, is one of another chain: its first entry, which need not be the
/// first frame, has a certificate that is not on the committee's genesis, and of which no vote is good. No entry of a replica that
/// follows the rules is such a one, so a log that is corrupt only further on is none. It costs one signature check for each vote of
/// one certificate at the most. Memory is refused where an entry could not be read.
pub fn is_of_other_chain(
    alloc: Global,
    committee: &CommitteeView,
    frames: &Frames,
) -> Result<bool, AllocError>
    ensures { IfOk result (λ other.
        IsTrue other ↔ IsOfOtherChain committee.now frames.now.frames) }
{
    match first_entry(alloc, frames)? {
        Some(entry) => Ok(!is_of_chain(committee, entry.certificate())),
        None => Ok(false),
    }
}
