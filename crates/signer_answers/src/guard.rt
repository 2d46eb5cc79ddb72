//! Whether a certificate shows a vote of this replica that its log lacks.

ghost use Rattle.std.specs.Prelude.{◌≡◌, ◌↔◌, IfErr, IfOk, IsFalse, IsTrue, MatchOption, OnOk, [], ◌∷◌};
ghost use Rattle.certificates.specs.BlockChecks.{IsChecked};
ghost use Rattle.replica_backups.specs.OwnVotes.{ShowsForeignVote};
ghost use Rattle.vote_desk.specs.DeskRefusals.{from_log};
ghost use Rattle.signer_answers.specs.Guards.{IsForgotten, IsFoundIn, IsNotVotedBefore, IsUndecided, IsPutBack, IsRemembered, IsSound, IsSpoilt, IsUnread, IsUnreadAs, IsUnreadable, IsVotedBefore, votes_found};

use crate::approver::Approver;
use crate::keeper::Keeper;
use crate::office::Office;
use crate::shown::Shown;
use blocks::{Ballot, CommitteeView, NamedHeader};
use certificates::{CheckedBlock, check_vote};
use replica_backups::shows_foreign_vote;
use stable_log::Disk;
use std::sync::Wait;
use vote_desk::{DeskError, DeskNaming, Receipt};
use vote_log::LogError;

// Reads what the log has in a view, for a caller who has these receipts.
pub(crate) fn read<N: DeskNaming, T: Wait, D: Disk, K: Approver + Keeper>(
    rt: &T,
    office: &Office<'_, N, D, K>,
    receipts: &[Receipt],
    view: u64,
) -> Result<Option<Receipt>, LogError>
    ensures found { IfOk result
        (IsFoundIn D.Disk N.committee N.replica N.opening receipts.now view) }
    ensures refused { IfErr result
        (IsUnread D.Disk N.committee N.replica N.opening receipts.now view) }
{
    match office.desk.vote_in_with(rt, receipts, view) {
        Ok(found) => Ok(found),
        Err(error) => Err(error),
    }
}

// The desk's refusal for a log that could not be read, for want of memory or since it is stopped; none where the desk runs.
pub(crate) fn refusal_of(error: LogError) -> Option<DeskError>
    ensures { MatchOption result (IsUnreadable error) (λ refusal. (IsUnreadable error → ⊥)
        × (refusal ≡ from_log error)) }
{
    match error {
        LogError::Device | LogError::BadEntry(_) => None,
        _ => Some(DeskError::from(error)),
    }
}

// Whether the block's certificate has a vote of this replica other than the one that was found.
fn has_other_vote(replica: u16, found: &Option<Receipt>, block: &CheckedBlock) -> bool
    ensures { IsTrue result ↔ ShowsForeignVote replica (votes_found found.now) block.now.certificate }
{
    match found {
        Some(receipt) => shows_foreign_vote(replica, &[receipt.vote], block),
        None => shows_foreign_vote(replica, &[], block),
    }
}

// Sees that what was found can tell of another vote in its view. If it is itself not good, whatever block it is on, bytes of it
// changed on the disk: it may have been just the vote that was shown, so it tells nothing of that one.
pub(crate) fn see_sound(committee: &CommitteeView, found: &Option<Receipt>) -> Result<(), LogError>
    ensures sound { OnOk result (IsSound committee.now found.now) }
    ensures spoilt { IfErr result (IsSpoilt committee.now found.now) }
{
    let Some(receipt) = found else {
        return Ok(());
    };
    match check_vote(committee, &receipt.vote) {
        Ok(()) => Ok(()),
        Err(_) => Err(LogError::BadEntry(receipt.number as usize)),
    }
}

// Whether the block's certificate has a vote of this replica that the log lacks. The log is read only where it has a vote of
// this replica at all.
pub(crate) fn forgets<N: DeskNaming, T: Wait, D: Disk, K: Approver + Keeper>(
    rt: &T,
    office: &Office<'_, N, D, K>,
    receipts: &[Receipt],
    block: &CheckedBlock,
) -> Result<bool, LogError>
    ensures forgotten { IfOk result (λ is_so. IsTrue is_so
        → IsForgotten D.Disk N.committee N.replica N.opening receipts.now block.now.certificate) }
    ensures remembered { IfOk result (λ is_so. IsFalse is_so
        → IsRemembered D.Disk N.committee N.replica N.opening receipts.now block.now.certificate) }
    ensures refused { IfErr result (IsUndecided D.Disk N.committee N.replica N.opening
        receipts.now block.now.certificate) }
{
    if !has_other_vote(office.replica, &None, block) {
        return Ok(false);
    }
    let certificate = block.certificate();
    let found = match read(rt, office, receipts, certificate.view()) {
        Ok(found) => found,
        Err(error) => return Err(error),
    };
    if !has_other_vote(office.replica, &found, block) {
        return Ok(false);
    }
    match see_sound(office.committee, &found) {
        Ok(()) => Ok(true),
        Err(error) => Err(error),
    }
}

// The log was put back: has it put down where that is not done yet, and stops all callers. Answers what the certificate is on,
// and what shows it.
pub(crate) fn stop<'a, N: DeskNaming, T: Wait, D: Disk, K: Approver + Keeper>(
    rt: &T,
    office: &Office<'a, N, D, K>,
    receipts: &[Receipt],
    block: &CheckedBlock,
) -> (Ballot, Shown<'a, N, D, K>)
    requires committee { block.now.committee ≡ N.committee }
    requires forgotten { IsForgotten D.Disk N.committee N.replica N.opening
        receipts.now block.now.certificate }
    ensures put_back { IsPutBack D.Disk N.committee N.replica N.opening receipts.now result.0 }
    ensures shown { result.1.of ≡ office.now.put_back.now.cell.id }
{
    let certificate = block.certificate();
    let ballot = certificate.ballot();
    let entries = office.desk.status(rt).entries;
    let shown = office.put_back.find(
        rt,
        office.keeper,
        ballot,
        block.header(),
        certificate,
        entries,
    );
    (ballot, shown)
}

// The log's vote for the block, if it has one. None, too, where it can't be read though it runs and there is memory: else the desk's
// refusal is answered.
pub(crate) fn vote_for<N: DeskNaming, T: Wait, D: Disk, K: Approver + Keeper>(
    rt: &T,
    office: &Office<'_, N, D, K>,
    receipts: &[Receipt],
    block: &NamedHeader,
) -> Result<Option<Receipt>, DeskError>
    ensures told { IfOk result (λ found. MatchOption found
        (IsNotVotedBefore D.Disk N.committee N.replica N.opening receipts.now block.now)
        (IsVotedBefore D.Disk N.committee N.replica N.opening receipts.now block.now)) }
    ensures refused { IfErr result (IsUnreadAs D.Disk N.committee N.replica N.opening
        receipts.now block.now.view) }
{
    match read(rt, office, receipts, block.header().view) {
        Ok(Some(receipt)) => {
            if receipt.vote.id == *block.id() {
                Ok(Some(receipt))
            } else {
                Ok(None)
            }
        }
        Ok(None) => Ok(None),
        Err(error) => match refusal_of(error) {
            Some(refusal) => Err(refusal),
            None => Ok(None),
        },
    }
}
