//! The tests of endorsements.

ghost use Rattle.std.specs.Prelude.{◌≡◌, ◌≢◌, ◌<◌, IfErr, IfNone, IfSome, OnOk, length};
ghost use Rattle.std.specs.List.{All};
ghost use Rattle.base_wire.specs.Pieces.{AreBytes};
ghost use Rattle.handover_keys.specs.EndorsementChecks.{IsEndorsementRefusal};
ghost use Rattle.handover_keys.specs.Endorsements.{IsGoodEndorsement, statement_in};
ghost use Rattle.handover_keys.specs.NextKeysReading.{IsStatement};
ghost use Rattle.handover_renewals.specs.Endorsed.{AreByDifferent, AreGood, AreStated, nth, replica_of, texts_of};
ghost use Rattle.handover_renewals.specs.Refusals.{ArePassed, IsFirstTwice, IsMakingRefusal};

use crate::endorsed::view_of;
use crate::making::MakingRefusal;
use blocks::CommitteeView;
use handover_keys::{EndorsementRefusal, check_endorsement};

// Whether one is good.
fn judge_one(old: &CommitteeView, bytes: &[u8]) -> Result<(), EndorsementRefusal>
    ensures ok { OnOk result (IsGoodEndorsement old.now bytes.now) }
    ensures bytes { AreBytes bytes.now }
    ensures first_refusal { IfErr result (IsEndorsementRefusal old.now bytes.now) }
{
    check_endorsement(old, bytes)?;
    Ok(())
}

// Whether each is good.
fn judge_each(old: &CommitteeView, endorsements: &[Vec<u8>]) -> Result<(), MakingRefusal>
    ensures ok { OnOk result (AreGood old.now (texts_of endorsements.now)) }
    ensures bytes { OnOk result (All AreBytes (texts_of endorsements.now)) }
    ensures first_refusal { IfErr result (λ refusal.
        IsMakingRefusal refusal old.now (texts_of endorsements.now)) }
{
    for (place, bytes) in endorsements.iter().enumerate() {
        if let Err(refusal) = judge_one(old, bytes) {
            return Err(MakingRefusal::Endorsement(place, refusal));
        }
    }
    Ok(())
}

// The replica that an endorsement is of.
fn replica_of(bytes: &[u8]) -> u16
    requires { IsStatement (statement_in bytes.now) }
    ensures { result ≡ replica_of bytes.now }
{
    view_of(bytes).statement().replica()
}

// The place of one that is of this replica.
fn place_of(endorsements: &[Vec<u8>], replica: u16) -> Option<usize>
    requires { AreStated (texts_of endorsements.now) }
    ensures none { IfNone result (All (λ e. replica_of e ≢ replica) (texts_of endorsements.now)) }
    ensures there { IfSome result (λ k. k < length endorsements.now) }
    ensures same { IfSome result (λ k. replica_of (nth (texts_of endorsements.now) k) ≡ replica) }
{
    for (k, bytes) in endorsements.iter().enumerate() {
        if replica_of(bytes) == replica {
            return Some(k);
        }
    }
    None
}

// The first that is of the replica of an earlier one, behind that one.
fn first_twice(endorsements: &[Vec<u8>]) -> Option<(usize, usize)>
    requires { AreStated (texts_of endorsements.now) }
    ensures none { IfNone result (AreByDifferent (texts_of endorsements.now)) }
    ensures some { IfSome result (λ places.
        IsFirstTwice (texts_of endorsements.now) places.0 places.1) }
{
    for later in 0..endorsements.len() {
        let replica = replica_of(&endorsements[later]);
        if let Some(earlier) = place_of(&endorsements[..later], replica) {
            return Some((earlier, later));
        }
    }
    None
}

// All tests in their order.
pub(crate) fn judge(old: &CommitteeView, endorsements: &[Vec<u8>]) -> Result<(), MakingRefusal>
    ensures ok { OnOk result (ArePassed old.now (texts_of endorsements.now)) }
    ensures bytes { OnOk result (All AreBytes (texts_of endorsements.now)) }
    ensures first_refusal { IfErr result (λ refusal.
        IsMakingRefusal refusal old.now (texts_of endorsements.now)) }
{
    judge_each(old, endorsements)?;
    match first_twice(endorsements) {
        Some((earlier, later)) => Err(MakingRefusal::Twice(earlier, later)),
        None => Ok(()),
    }
}
