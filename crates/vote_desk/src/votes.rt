//! The vote of a log in a view.

ghost use Rattle.std.specs.Prelude.{◌≡◌, ◌≢◌, ◌↔◌, false, IfErr, IfOk, IsErrOf, IsTrue, MatchOption, OnOk};
ghost use Rattle.stable_log.specs.Devices.{Untouched};
ghost use Rattle.base_streams.specs.Counting.{HasFailed};
ghost use Rattle.vote_desk.specs.Votes.{AreFound, HasNoVote, IsFoundIfIn, IsNotFound, IsVoteAt, IsVoteFound, IsVoteInRefusal, IsVoteOfView};

use crate::receipts::is_receipt;
use crate::reply::Receipt;
use replica_core::Stored;
use stable_log::Disk;
use vote_log::{LogError, VoteLog};

// Whether an entry is a vote in this view.
fn is_vote_of_view(entry: &Stored, view: u64) -> bool
    ensures { IsTrue result ↔ IsVoteOfView view entry.now }
{
    entry.voted && entry.block.view == view
}

// The number of the first entry that is a vote in this view, if there is one.
fn number_of_vote(steps: &[Stored], view: u64) -> Option<usize>
    ensures { MatchOption result (HasNoVote view steps.now) (IsVoteAt view steps.now) }
{
    for k in 0..steps.len() {
        if is_vote_of_view(&steps[k], view) {
            return Some(k);
        }
    }
    None
}

/// The log's vote in this view, and the number of its entry, if there is one. In this order: `Stopped`, and where there is
/// one `Memory`, `Device`, and `BadEntry`, where the disk gives other bytes than were written.
pub(crate) fn vote_in<D: Disk>(
    log: &mut VoteLog<D>,
    replica: u16,
    view: u64,
) -> Result<Option<Receipt>, LogError>
    ensures ok { IfOk result (IsVoteFound D.bytes replica log.old view) }
    ensures exact { OnOk result (log.old.stopped ≡ false) }
    ensures same { (log.new.entries ≡ log.old.entries) × (log.new.steps ≡ log.old.steps)
        × (log.new.stopped ≡ log.old.stopped) × (log.new.genesis ≡ log.old.genesis)
        × Untouched D.Disk log.old.disk log.new.disk }
    ensures no_failure { OnOk result (D.failed log.new.disk ≡ D.failed log.old.disk) }
    ensures first_refusal { IfErr result (IsVoteInRefusal (D.bytes log.old.disk) log.old view) }
    ensures cause { IsErrOf result LogError.Device →
        HasFailed (D.failed log.old.disk) (D.failed log.new.disk) }
    ensures kept { IfErr result (λ e. e ≢ LogError.Device →
        D.failed log.new.disk ≡ D.failed log.old.disk) }
{
    if log.stopped() {
        return Err(LogError::Stopped);
    }
    // For the proof: a log has at most 4,096 entries.
    let _count = log.count();
    let Some(number) = number_of_vote(log.steps(), view) else {
        return Ok(None);
    };
    let entry = log.entry(number)?;
    let Some(vote) = entry.vote(replica) else {
        return Err(LogError::BadEntry(number));
    };
    let receipt = Receipt {
        number: number as u32,
        vote,
    };
    if !is_receipt(0, log.steps(), &receipt) {
        return Err(LogError::BadEntry(number));
    }
    Ok(Some(receipt))
}

// Whether just this receipt was found, where its vote is in this view.
fn is_found_if_in(receipt: &Receipt, view: u64, found: &Option<Receipt>) -> bool
    ensures { IsTrue result ↔ IsFoundIfIn view found.now receipt.now }
{
    receipt.vote.view != view || *found == Some(*receipt)
}

/// The number of the first of these receipts whose vote is in this view and was not found, if there is one.
pub(crate) fn number_not_found(
    receipts: &[Receipt],
    view: u64,
    found: &Option<Receipt>,
) -> Option<usize>
    ensures { MatchOption result (AreFound view receipts.now found.now)
        (IsNotFound view receipts.now found.now) }
{
    for k in 0..receipts.len() {
        if !is_found_if_in(&receipts[k], view, found) {
            return Some(receipts[k].number as usize);
        }
    }
    None
}
