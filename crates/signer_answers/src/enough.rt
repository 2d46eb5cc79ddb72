//! Whether enough of the other replicas were heard.

ghost use Rattle.std.specs.Prelude.{◌≡◌, ◌↔◌, ◌<◌, ◌*◌, List, Bool, IsFalse, IsTrue};
ghost use Rattle.blocks.specs.Weights.{is_among, total_of};
ghost use Rattle.signer_answers.specs.Enough.{AreEnough, AreOf, CanBeEnough, asked_weight, is_asked, is_heard};

use blocks::CommitteeView;

// Whether the logs of a replica other than this one were read whole.
fn is_heard(replica: u16, whole: &[bool], other: u16) -> bool
    ensures { result ≡ is_heard replica whole.now other }
{
    other != replica && whole.get(usize::from(other)) == Some(&true)
}

// Whether a weight is more than a third of all.
fn is_more_than_a_third(committee: &CommitteeView, weight: u64) -> bool
    ensures { IsTrue result ↔ total_of committee.now < 3 * weight }
{
    committee.total() / 3 < weight
}

/// Whether the replicas whose logs were read whole, by their numbers, have more than a third of the weight. This replica is not
/// counted, and each other one once.
pub fn are_enough(committee: &CommitteeView, replica: u16, whole: &[bool]) -> bool
    ensures { IsTrue result ↔ AreEnough committee.now replica whole.now }
{
    let weight = committee.weight_of(
        |other| -> bool
            ensures { result ≡ is_heard replica whole.entry.now other }
        { is_heard(replica, whole, other) },
    );
    is_more_than_a_third(committee, weight)
}

// Whether a replica is one of these.
fn is_among(replicas: &[u16], replica: u16) -> bool
    ensures { result ≡ is_among replicas.now replica }
{
    replicas.iter().any(|one| replica == *one)
}

// Whether a replica other than this one is among those that are asked.
fn is_asked(replica: u16, asked: &[u16], other: u16) -> bool
    ensures { result ≡ is_asked replica asked.now other }
{
    other != replica && is_among(asked, other)
}

// How much the others that are asked count together.
fn asked_weight(committee: &CommitteeView, replica: u16, asked: &[u16]) -> u64
    ensures { result ≡ asked_weight committee.now replica asked.now }
{
    committee.weight_of(
        |other| -> bool
            ensures { result ≡ is_asked replica asked.entry.now other }
        { is_asked(replica, asked, other) },
    )
}

/// Whether the replicas that are asked, by their numbers, have more than a third of the weight, as `are_enough` counts. Where
/// they have not, they are never enough, whichever of their logs are read whole.
pub fn can_be_enough(committee: &CommitteeView, replica: u16, asked: &[u16]) -> bool
    ensures exact { IsTrue result ↔ CanBeEnough committee.now replica asked.now }
    ensures never { IsFalse result → (whole : List Bool) → AreOf asked.now whole
        → AreEnough committee.now replica whole → ⊥ }
{
    is_more_than_a_third(committee, asked_weight(committee, replica, asked))
}
