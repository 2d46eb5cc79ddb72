//! A log that is newer than the index store beside it: put back, the store would give out one-time keys that signed already.

ghost use Rattle.std.specs.Prelude.{◌≡◌, ◌≤◌, ◌↔◌, IfOk, IfSome, IsTrue, false, length};
ghost use Rattle.replica_command.specs.Outrunning.{index_of, NoneOutruns, Outruns, SomeOutruns};

use base_wire::u32_at;
use blocks::CommitteeView;
use certificates::{SignedVote, check_vote};
use key_index_store::INDICES;
use log_format::Entry;
use stable_log::Disk;
use vote_log::{LogError, VoteLog};

/// Whether the log has a vote of the replica that verifies under its keys in the committee, at an index that is not below the
/// boundary. Signatures of such indices alone are checked. As `VoteLog::entry` refuses; the log stays as it is.
pub(crate) fn log_outruns<D: Disk>(
    log: &mut VoteLog<D>,
    committee: &CommitteeView,
    replica: u16,
    boundary: u32,
) -> Result<bool, LogError>
    ensures some { IfOk result (λ is. IsTrue is → IfSome (D.bytes log.old.disk) (λ _.
        SomeOutruns committee.now replica boundary log.old.entries)) }
    ensures none { IfOk result (λ is. is ≡ false → IfSome (D.bytes log.old.disk) (λ _.
        NoneOutruns committee.now replica boundary log.old.entries (length log.old.steps))) }
    ensures same { (log.new.entries ≡ log.old.entries) × (log.new.steps ≡ log.old.steps)
        × (log.new.stopped ≡ log.old.stopped) × (log.new.genesis ≡ log.old.genesis) }
{
    for k in 0..log.count() {
        if outruns(committee, replica, boundary, &log.entry(k)?) {
            return Ok(true);
        }
    }
    Ok(false)
}

fn outruns(committee: &CommitteeView, replica: u16, boundary: u32, entry: &Entry) -> bool
    ensures { IsTrue result ↔ Outruns committee.now replica boundary entry.now }
{
    match entry.vote(replica) {
        Some(vote) => is_from(&vote, boundary) && check_vote(committee, &vote).is_ok(),
        None => false,
    }
}

// Whether the index of a vote is not below the boundary.
fn is_from(vote: &SignedVote, boundary: u32) -> bool
    ensures { IsTrue result ↔ boundary ≤ index_of vote.now }
{
    let index = u64::from(INDICES) * u64::from(vote.key) + u64::from(u32_at(&vote.signature, 0));
    u64::from(boundary) <= index
}
