//! A committee and a renewal that are made of endorsements.

ghost use Rattle.std.specs.Prelude.{◌≡◌, ◌≤◌, ◌<◌, Ok, IfErr, IfOk, OnOk, length};
ghost use Rattle.blocks.specs.Committees.{IsCommittee};
ghost use Rattle.blocks.specs.Weights.{quorum_of};
ghost use Rattle.handover_renewals.specs.Renewals.{renewal_text};
ghost use Rattle.handover_renewals.specs.RenewalReading.{renewal_in};
ghost use Rattle.handover_renewals.specs.Renewing.{HaveGoodSlots, Renews};
ghost use Rattle.handover_renewals.specs.Slots.{AreSlotsOf, new_weight};
ghost use Rattle.handover_renewals.specs.Endorsed.{texts_of};
ghost use Rattle.handover_renewals.specs.Composing.{composed_file, renewal_to};
ghost use Rattle.handover_renewals.specs.Making.{HasSlotsOf, IsComposed, IsRenewalMade};
ghost use Rattle.handover_renewals.specs.Refusals.{ArePassed, IsMakingRefusal, making_refusal_number};
ghost use Rattle.handover_renewals.specs.declared.making.MakingRefusal.TheVariants.{Committee, Memory};

use crate::endorsements::judge;
use crate::file::composed_file;
use crate::text::renewal_text;
use crate::{Renewal, RenewalFormRefusal, Slots, renews};
use blocks::{CommitteeRefusal, CommitteeView};
use handover_keys::EndorsementRefusal;
use std::alloc::{AllocError, Global};

/// Why no renewal is made of endorsements. They are judged in the order Endorsement, Twice, Memory, Committee, TooFew.
#[derive(Clone, Copy, Debug, PartialEq, Eq)]
pub enum MakingRefusal {
    /// 1: memory was refused, when each endorsement had been judged.
    Memory,
    /// 2: the endorsement at this place, from 0, is refused so under the old committee, and it is the least such place.
    Endorsement(usize, EndorsementRefusal),
    /// 3: the endorsements at these two places, from 0, are of one replica. The second is the least place of one that is of the replica of an
    /// earlier one, which the first is.
    Twice(usize, usize),
    /// 4: the file that was made is refused so as a committee's: in practice, two of its keys are the same.
    Committee(CommitteeRefusal),
    /// 5: the slots that have other keys weigh less than a quorum.
    TooFew,
}

impl MakingRefusal {
    /// The number of the refusal, which never changes.
    pub fn number(self) -> u8
        ensures { result ≡ making_refusal_number self }
    {
        match self {
            MakingRefusal::Memory => 1,
            MakingRefusal::Endorsement(_, _) => 2,
            MakingRefusal::Twice(_, _) => 3,
            MakingRefusal::Committee(_) => 4,
            MakingRefusal::TooFew => 5,
        }
    }
}

impl From<AllocError> for MakingRefusal {
    ghost from_gives = { λ _ refusal. refusal ≡ Memory };

    fn from(_refused: AllocError) -> MakingRefusal {
        MakingRefusal::Memory
    }
}

impl From<CommitteeRefusal> for MakingRefusal {
    ghost from_gives = { λ refusal r. r ≡ Committee refusal };

    fn from(refusal: CommitteeRefusal) -> MakingRefusal {
        MakingRefusal::Committee(refusal)
    }
}

/// A committee's file and the renewal by which it renews the committee before, made by `compose`.
#[derive(Drop)]
pub struct Made {
    /// The bytes of the next committee's file.
    pub committee: Vec<u8>,
    /// The bytes of the renewal, as `Renewal::read` reads them.
    pub renewal: Vec<u8>,
    /// How many slots have other keys than before, and how much they weigh.
    pub slots: Slots,
}

// The renewal of the bytes that were written of it. So nothing but memory is refused.
fn read_again(
    alloc: Global,
    old: &CommitteeView,
    new: &CommitteeView,
    endorsements: &[Vec<u8>],
    text: &[u8],
) -> Result<Renewal, RenewalFormRefusal>
    requires composed { IsComposed old.now (texts_of endorsements.now) new.now }
    requires some { 1 ≤ length endorsements.now }
    requires text { text.now ≡ renewal_text (renewal_to old.now new.now (texts_of endorsements.now)) }
    ensures ok { IfOk result (λ renewal. renewal
        ≡ renewal_to old.now new.now (texts_of endorsements.now)) }
    ensures memory { IfErr result (λ refusal. refusal ≡ RenewalFormRefusal.Memory) }
    ensures read { renewal_in text.now ≡ Ok (renewal_to old.now new.now (texts_of endorsements.now)) }
{
    Renewal::read(alloc, text)
}

// The slots of the new committee beside the old one's. Good endorsements leave nothing to refuse but that they weigh too little.
fn judge_slots(
    old: &CommitteeView,
    new: &CommitteeView,
    renewal: &Renewal,
) -> Result<Slots, MakingRefusal>
    requires { HaveGoodSlots old.now new.now renewal.now }
    ensures renews { OnOk result (Renews old.now new.now renewal.now) }
    ensures slots { IfOk result (AreSlotsOf old.now new.now) }
    ensures too_few { IfErr result (λ refusal. (refusal ≡ MakingRefusal.TooFew)
        × (new_weight old.now new.now < quorum_of old.now)) }
{
    match renews(old, new, renewal) {
        Ok(slots) => Ok(slots),
        Err(_) => Err(MakingRefusal::TooFew),
    }
}

// The renewal of the old committee by that of this file, and the slots of that one.
fn make_renewal(
    alloc: Global,
    old: &CommitteeView,
    file: &[u8],
    endorsements: &[Vec<u8>],
) -> Result<(Vec<u8>, Slots), MakingRefusal>
    requires { IsComposed old.now (texts_of endorsements.now) file.now }
    ensures is_committee { OnOk result (IsCommittee file.now) }
    ensures text { IfOk result (λ made. made.0.items
        ≡ renewal_text (renewal_to old.now file.now (texts_of endorsements.now))) }
    ensures read { IfOk result (λ made. renewal_in made.0.items
        ≡ Ok (renewal_to old.now file.now (texts_of endorsements.now))) }
    ensures renews { OnOk result (Renews old.now file.now
        (renewal_to old.now file.now (texts_of endorsements.now))) }
    ensures slots { IfOk result (λ made. AreSlotsOf old.now file.now made.1) }
    ensures first_refusal { IfErr result (λ refusal.
        IsMakingRefusal refusal old.now (texts_of endorsements.now)) }
{
    let new = CommitteeView::parse(file)?;
    if endorsements.is_empty() {
        return Err(MakingRefusal::TooFew);
    }
    let text = renewal_text(alloc, old, &new, endorsements)?;
    let renewal = match read_again(alloc, old, &new, endorsements, &text) {
        Ok(renewal) => renewal,
        Err(_) => return Err(MakingRefusal::Memory),
    };
    let slots = judge_slots(old, &new, &renewal)?;
    Ok((text, slots))
}

/// The next committee that these endorsements make of the old one, and the renewal by which it renews it: the old committee's file with
/// the keys of each slot, the place of a replica, whose replica is endorsed here replaced by those that it endorsed, and all else as it
/// was; and the endorsements' signatures in the order of the replicas. The endorsements may be in any order. Refused by the first of
/// `MakingRefusal`'s tests that is not passed. It costs two signature checks for each endorsement at the most.
pub fn compose(
    alloc: Global,
    old: &CommitteeView,
    endorsements: &[Vec<u8>],
) -> Result<Made, MakingRefusal>
    ensures ok { IfOk result (IsRenewalMade old.now (texts_of endorsements.now)) }
    // Each slot is renewed or stays as it was.
    ensures slots { IfOk result (λ made.
        HasSlotsOf old.now (texts_of endorsements.now) made.committee.items) }
    ensures passed { OnOk result (ArePassed old.now (texts_of endorsements.now)) }
    ensures first_refusal { IfErr result (λ refusal.
        IsMakingRefusal refusal old.now (texts_of endorsements.now)) }
{
    judge(old, endorsements)?;
    let committee = composed_file(alloc, old, endorsements)?;
    let (renewal, slots) = make_renewal(alloc, old, &committee, endorsements)?;
    Ok(Made {
        committee,
        renewal,
        slots,
    })
}
