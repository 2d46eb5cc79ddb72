//! What logs that others hand out show a replica of its own votes.

ghost use Rattle.std.specs.Prelude.{◌≡◌, ◌↔◌, IfErr, IfOk, IfSome, IsTrue, MatchOption, [], length};
ghost use Rattle.std.specs.List.{All};
ghost use Rattle.certificates.specs.Certificates.{vote_of};
ghost use Rattle.certificates.specs.Votes.{ballot_of};
ghost use Rattle.replica_backups.specs.Forgotten.{IsFirstForgotten, IsForgottenVote};
ghost use Rattle.signer_answers.specs.Guards.{IsForgottenOn, votes_found};
ghost use Rattle.signer_answers.specs.Lookings.{EntryShows, EntryShowsNone, FrameShows, FrameShowsNone, IsFirstShown, IsLookingRefusal, IsOwnRefusal, OwnVoteShows, OwnVoteShowsNone, ShowNone, ShowsForgotten, ShowsNone};
ghost use Rattle.signer_answers.specs.Showings.{IsOfEither};

use crate::approver::Approver;
use crate::guard::{read, see_sound};
use crate::keeper::Keeper;
use crate::office::Office;
use crate::shown::Shown;
use blocks::{Ballot, CommitteeView};
use certificates::{Certificate, SignedVote};
use log_format::{Entry, EntryRefusal, Frames};
use replica_backups::{first_forgotten_vote, has_foreign_vote, is_forgotten_vote};
use stable_log::Disk;
use std::alloc::Global;
use std::sync::Wait;
use vote_desk::{DeskNaming, Receipt};
use vote_log::LogError;

// An entry of a log, and the vote in it that this log lacks: in its certificate, or its own.
#[derive(Drop)]
struct Found {
    entry: Entry,
    vote: SignedVote,
}

// The first good vote of this replica in a certificate other than the one that was found.
fn first_other(
    committee: &CommitteeView,
    replica: u16,
    found: &Option<Receipt>,
    certificate: &Certificate,
) -> Option<SignedVote>
    ensures { MatchOption result
        (All (λ d. IsForgottenVote committee.now replica (votes_found found.now) (vote_of certificate.now d) → ⊥)
        certificate.now.entries)
        (IsFirstForgotten committee.now replica (votes_found found.now) certificate.now) }
{
    match found {
        Some(receipt) => first_forgotten_vote(committee, replica, &[receipt.vote], certificate),
        None => first_forgotten_vote(committee, replica, &[], certificate),
    }
}

// The first good vote of this replica in a certificate that the log lacks. The log is read only where the certificate has a
// vote of this replica at all.
fn forgotten_in<N: DeskNaming, T: Wait, D: Disk, K: Approver + Keeper>(
    rt: &T,
    office: &Office<'_, N, D, K>,
    certificate: &Certificate,
) -> Result<Option<SignedVote>, LogError>
    ensures shown { IfOk result (λ vote. MatchOption vote
        (ShowsNone D.Disk N.committee N.replica N.opening certificate.now)
        (ShowsForgotten D.Disk N.committee N.replica N.opening certificate.now)) }
    ensures refused { IfErr result (IsOwnRefusal D.Disk N.committee N.replica N.opening) }
{
    if !has_foreign_vote(office.replica, &[], certificate) {
        return Ok(None);
    }
    let found = match read(rt, office, &[], certificate.view()) {
        Ok(found) => found,
        Err(error) => return Err(error),
    };
    let Some(vote) = first_other(office.committee, office.replica, &found, certificate) else {
        return Ok(None);
    };
    match see_sound(office.committee, &found) {
        Ok(()) => Ok(Some(vote)),
        Err(error) => Err(error),
    }
}

// Whether the vote is a good one of this replica, other than the one that was found.
fn is_other(
    committee: &CommitteeView,
    replica: u16,
    found: &Option<Receipt>,
    vote: &SignedVote,
) -> bool
    ensures { IsTrue result ↔ IsForgottenVote committee.now replica (votes_found found.now) vote.now }
{
    match found {
        Some(receipt) => is_forgotten_vote(committee, replica, &[receipt.vote], vote),
        None => is_forgotten_vote(committee, replica, &[], vote),
    }
}

// The own vote of an entry of a log of this replica, where it is a good one that this log lacks.
fn own_forgotten_in<N: DeskNaming, T: Wait, D: Disk, K: Approver + Keeper>(
    rt: &T,
    office: &Office<'_, N, D, K>,
    entry: &Entry,
) -> Result<Option<SignedVote>, LogError>
    ensures shown { IfOk result (λ vote. MatchOption vote
        (OwnVoteShowsNone D.Disk N.committee N.replica N.opening entry.now)
        (OwnVoteShows D.Disk N.committee N.replica N.opening entry.now)) }
    ensures refused { IfErr result (IsOwnRefusal D.Disk N.committee N.replica N.opening) }
{
    let Some(vote) = entry.vote(office.replica) else {
        return Ok(None);
    };
    let found = match read(rt, office, &[], vote.view) {
        Ok(found) => found,
        Err(error) => return Err(error),
    };
    if !is_other(office.committee, office.replica, &found, &vote) {
        return Ok(None);
    }
    match see_sound(office.committee, &found) {
        Ok(()) => Ok(Some(vote)),
        Err(error) => Err(error),
    }
}

// The first vote of an entry that this log lacks: in its certificate, or else its own, where it is of a log of this replica.
fn forgotten_of<N: DeskNaming, T: Wait, D: Disk, K: Approver + Keeper>(
    rt: &T,
    office: &Office<'_, N, D, K>,
    owner: u16,
    entry: &Entry,
) -> Result<Option<SignedVote>, LogError>
    ensures shown { IfOk result (λ vote. MatchOption vote
        (EntryShowsNone D.Disk N.committee N.replica N.opening owner entry.now)
        (EntryShows D.Disk N.committee N.replica N.opening owner entry.now)) }
    ensures refused { IfErr result (IsOwnRefusal D.Disk N.committee N.replica N.opening) }
{
    match forgotten_in(rt, office, entry.certificate()) {
        Ok(Some(vote)) => return Ok(Some(vote)),
        Ok(None) => {}
        Err(error) => return Err(error),
    }
    if owner != office.replica {
        return Ok(None);
    }
    match own_forgotten_in(rt, office, entry) {
        Ok(Some(vote)) => Ok(Some(vote)),
        Ok(None) => Ok(None),
        Err(error) => Err(error),
    }
}

// What a frame of a log of this owner shows of a vote that this log lacks.
fn found_in<N: DeskNaming, T: Wait, D: Disk, K: Approver + Keeper>(
    rt: &T,
    alloc: Global,
    office: &Office<'_, N, D, K>,
    owner: u16,
    frame: &[u8],
) -> Result<Option<Found>, LogError>
    ensures shown { IfOk result (λ shown. MatchOption shown
        (FrameShowsNone D.Disk N.committee N.replica N.opening owner frame.now)
        (λ s. FrameShows D.Disk N.committee N.replica N.opening owner frame.now s.vote)) }
    ensures entry { IfOk result (λ shown. IfSome shown (λ s.
        IsOfEither s.entry.block s.entry.certificate (ballot_of s.vote))) }
    ensures refused { IfErr result (IsLookingRefusal D.Disk N.committee N.replica N.opening) }
{
    let entry = match Entry::read(alloc, frame) {
        Ok(entry) => entry,
        Err(EntryRefusal::Memory) => return Err(LogError::Memory),
        Err(_) => return Ok(None),
    };
    match forgotten_of(rt, office, owner, &entry) {
        Ok(Some(vote)) => Ok(Some(Found { entry, vote })),
        Ok(None) => Ok(None),
        Err(error) => Err(error),
    }
}

// The log was put back: has it put down where that is not done yet, and stops all callers. Answers what the vote is on, and what
// shows it.
fn stop_for<'a, N: DeskNaming, T: Wait, D: Disk, K: Approver + Keeper>(
    rt: &T,
    office: &Office<'a, N, D, K>,
    found: &Found,
) -> (Ballot, Shown<'a, N, D, K>)
    requires forgotten { IsForgottenOn D.Disk N.committee N.replica N.opening
        (ballot_of found.now.vote) }
    requires entry { IsOfEither found.now.entry.block found.now.entry.certificate
        (ballot_of found.now.vote) }
    ensures ballot { result.0 ≡ ballot_of found.now.vote }
    ensures shown { result.1.of ≡ office.now.put_back.now.cell.id }
{
    let ballot = found.vote.ballot();
    let entries = office.desk.status(rt).entries;
    let shown = office.put_back.find(
        rt,
        office.keeper,
        ballot,
        found.entry.block(),
        found.entry.certificate(),
        entries,
    );
    (ballot, shown)
}

/// Looks through frames of a log that is said to be of the replica `owner`, from `from` on, counted from 0, for the first entry
/// with a good vote of this replica that its own log lacks, compared whole: in its certificate, which need not be good, or else its
/// own vote, where the owner is this replica. Only such a vote is checked, and what the log has in its place. Where there is one, the
/// callers of the desk are stopped, as by `answer`: what the vote is on is answered, and what shows it, behind what the keeper does
/// where it is the first that shows it. `Memory` where an entry could not be read; else the log could not be read, or what it has in
/// the vote's view is a vote that is not good, on whatever block, so that bytes of it changed: `BadEntry`.
pub fn look_through<'a, N: DeskNaming, T: Wait, D: Disk, K: Approver + Keeper>(
    rt: &T,
    alloc: Global,
    office: &Office<'a, N, D, K>,
    owner: u16,
    frames: &Frames,
    from: usize,
) -> Result<Option<(Ballot, Shown<'a, N, D, K>)>, LogError>
    ensures found { IfOk result (λ found. MatchOption found
        (ShowNone D.Disk N.committee N.replica N.opening owner frames.now.frames from (length frames.now.frames))
        (λ it. IsFirstShown D.Disk N.committee N.replica N.opening owner frames.now.frames from it.0)) }
    ensures shown { IfOk result (λ found. IfSome found (λ it.
        it.1.of ≡ office.now.put_back.now.cell.id)) }
    ensures refused { IfErr result (IsLookingRefusal D.Disk N.committee N.replica N.opening) }
{
    for k in from..frames.len() {
        match found_in(rt, alloc, office, owner, frames.payload(k)) {
            Ok(Some(found)) => return Ok(Some(stop_for(rt, office, &found))),
            Ok(None) => {}
            Err(error) => return Err(error),
        }
    }
    Ok(None)
}
