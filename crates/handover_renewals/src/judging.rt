//! When a committee renews another.

ghost use Rattle.std.specs.Prelude.{◌≡◌, ◌<◌, ◌↔◌, ◌≤◌, IfErr, IfNone, IfOk, IfSome, IsOk, IsTrue, OnOk, option_map, take};
ghost use Rattle.blocks.specs.Committees.{n_of, keys_of};
ghost use Rattle.certificates.specs.Certificates.{vote_of};
ghost use Rattle.handover_renewals.specs.RenewalRefusals.{IsFirstUnsigned, IsLeast, IsRenewalRefusal, IsUnsignedBy, renewal_refusal_name, renewal_refusal_number, slot_refused};
ghost use Rattle.handover_renewals.specs.Renewing.{AllSlots, AreBound, HasCount, HasIds, HasWeight, HaveGoodSlots, HaveOneFormat, HaveOneSize, IsSigned, Renews, VerifiesUnder, signature_of};
ghost use Rattle.handover_renewals.specs.Slots.{AreSlotsOf};

use crate::format::Renewal;
use crate::slot_statement::SlotStatement;
use crate::slots::{Slots, is_kept, slots_of};
use base_wire::array_at;
use blocks::CommitteeView;
use certificates::SignedVote;
use handover_keys::bound_id;
use lms_tree::verify;

/// Why a committee does not renew another, in the order of the tests. A slot is the place of a replica in both.
#[derive(Clone, Copy, Debug, PartialEq, Eq)]
pub enum RenewalRefusal {
    /// 1: the renewal does not name the old committee's chain.
    Chain,
    /// 2: the renewal does not have the digest of the new committee's file.
    File,
    /// 3: the files have different formats.
    Format,
    /// 4: the committees have not as many replicas.
    Size,
    /// 5: this slot has another weight, and it is the least such slot.
    Weight(u16),
    /// 6: this slot has not as many keys, and it is the least such slot.
    KeyCount(u16),
    /// 7: this slot has other keys, and one of them has not the id that is bound to its place; it is the least such slot.
    KeyId(u16),
    /// 8: this slot has other keys, and no signature; it is the least slot that has other keys and no good signature.
    Unsigned(u16),
    /// 9: the same of a signature by a key that the slot has not in the old committee.
    KeyNumber(u16),
    /// 10: the same of a signature that does not verify.
    Signature(u16),
    /// 11: the slots that have other keys weigh less than a quorum.
    TooFew,
}

impl RenewalRefusal {
    /// The number of the refusal, which never changes.
    pub fn number(self) -> u8
        ensures { result ≡ renewal_refusal_number self }
    {
        match self {
            RenewalRefusal::Chain => 1,
            RenewalRefusal::File => 2,
            RenewalRefusal::Format => 3,
            RenewalRefusal::Size => 4,
            RenewalRefusal::Weight(_) => 5,
            RenewalRefusal::KeyCount(_) => 6,
            RenewalRefusal::KeyId(_) => 7,
            RenewalRefusal::Unsigned(_) => 8,
            RenewalRefusal::KeyNumber(_) => 9,
            RenewalRefusal::Signature(_) => 10,
            RenewalRefusal::TooFew => 11,
        }
    }

    /// Its name, as it is printed.
    pub fn name(self) -> &'static str
        ensures { result.now ≡ renewal_refusal_name self }
    {
        match self {
            RenewalRefusal::Chain => "Chain",
            RenewalRefusal::File => "File",
            RenewalRefusal::Format => "Format",
            RenewalRefusal::Size => "Size",
            RenewalRefusal::Weight(_) => "Weight",
            RenewalRefusal::KeyCount(_) => "KeyCount",
            RenewalRefusal::KeyId(_) => "KeyId",
            RenewalRefusal::Unsigned(_) => "Unsigned",
            RenewalRefusal::KeyNumber(_) => "KeyNumber",
            RenewalRefusal::Signature(_) => "Signature",
            RenewalRefusal::TooFew => "TooFew",
        }
    }

    /// The slot that is refused, if it is one.
    pub fn slot(self) -> Option<u16>
        ensures { result ≡ slot_refused self }
    {
        match self {
            RenewalRefusal::Weight(s)
            | RenewalRefusal::KeyCount(s)
            | RenewalRefusal::KeyId(s)
            | RenewalRefusal::Unsigned(s)
            | RenewalRefusal::KeyNumber(s)
            | RenewalRefusal::Signature(s) => Some(s),
            _ => None,
        }
    }
}

// The first tests: what the renewal names, and what the committees have in common.
fn compare(
    old: &CommitteeView,
    new: &CommitteeView,
    renewal: &Renewal,
) -> Result<(), RenewalRefusal>
    ensures ok { OnOk result (HaveOneSize old.now new.now renewal.now) }
    ensures first_refusal { IfErr result (λ refusal.
        IsRenewalRefusal refusal old.now new.now renewal.now) }
{
    if *renewal.chain() != old.chain() {
        return Err(RenewalRefusal::Chain);
    }
    if *renewal.file() != new.genesis().payload {
        return Err(RenewalRefusal::File);
    }
    if !have_one_format(old, new) {
        return Err(RenewalRefusal::Format);
    }
    if new.n() != old.n() {
        return Err(RenewalRefusal::Size);
    }
    Ok(())
}

// The first four bytes of a committee's file, which say its format.
fn format_of(committee: &CommitteeView) -> [u8; 4]
    ensures { result ≡ take 4 committee.now }
{
    array_at(committee.bytes(), 0)
}

// Whether the files have one format.
fn have_one_format(old: &CommitteeView, new: &CommitteeView) -> bool
    ensures { IsTrue result ↔ HaveOneFormat old.now new.now }
{
    format_of(new) == format_of(old)
}

// The least slot that has another weight.
fn other_weight(old: &CommitteeView, new: &CommitteeView) -> Option<u16>
    requires { n_of new.now ≡ n_of old.now }
    ensures none { IfNone result (AllSlots old.now (HasWeight old.now new.now)) }
    ensures some { IfSome result (IsLeast old.now (HasWeight old.now new.now)) }
{
    for s in 0..old.n() {
        if new.weight(s) != old.weight(s) {
            return Some(s);
        }
    }
    None
}

// The least slot that has not as many keys.
fn other_count(old: &CommitteeView, new: &CommitteeView) -> Option<u16>
    requires { n_of new.now ≡ n_of old.now }
    ensures none { IfNone result (AllSlots old.now (HasCount old.now new.now)) }
    ensures some { IfSome result (IsLeast old.now (HasCount old.now new.now)) }
{
    for s in 0..old.n() {
        if new.keys(s) != old.keys(s) {
            return Some(s);
        }
    }
    None
}

// Whether a slot is kept or each of its keys has the id that is bound to its place.
fn has_ids(old: &CommitteeView, new: &CommitteeView, s: u16) -> bool
    requires place { s < n_of old.now }
    requires size { n_of new.now ≡ n_of old.now }
    requires count { HasCount old.now new.now s }
    ensures { IsTrue result ↔ HasIds old.now new.now s }
{
    is_kept(old, new, s) || has_bound_ids(old, new, s)
}

/// Whether each of its keys has.
pub(crate) fn has_bound_ids(old: &CommitteeView, new: &CommitteeView, s: u16) -> bool
    requires place { s < n_of old.now }
    requires still { s < n_of new.now }
    requires count { HasCount old.now new.now s }
    ensures { IsTrue result ↔ AreBound old.now new.now s (keys_of old.now s) }
{
    let chain = old.chain();
    for k in 0..old.keys(s) {
        if new.key(s, k).key_id != bound_id(&chain, s, k) {
            return false;
        }
    }
    true
}

// The least slot whose ids are not bound, though it is not kept.
fn unbound(old: &CommitteeView, new: &CommitteeView) -> Option<u16>
    requires size { n_of new.now ≡ n_of old.now }
    requires counts { AllSlots old.now (HasCount old.now new.now) }
    ensures none { IfNone result (AllSlots old.now (HasIds old.now new.now)) }
    ensures some { IfSome result (IsLeast old.now (HasIds old.now new.now)) }
{
    for s in 0..old.n() {
        if !has_ids(old, new, s) {
            return Some(s);
        }
    }
    None
}

// The signature that the renewal has of a replica.
fn signature_of(renewal: &Renewal, s: u16) -> Option<SignedVote>
    ensures { result ≡ option_map (vote_of renewal.now.certificate) (signature_of renewal.now s) }
{
    let certificate = renewal.certificate();
    for k in 0..certificate.count() {
        let vote = certificate.vote(k);
        if vote.replica == s {
            return Some(vote);
        }
    }
    None
}

// Whether it verifies under the key that it names of the slot in the old committee, on the statement of the slot's keys in the new one.
fn verifies(old: &CommitteeView, new: &CommitteeView, s: u16, vote: &SignedVote) -> bool
    requires place { s < n_of old.now }
    requires still { s < n_of new.now }
    requires key { vote.now.key < keys_of old.now s }
    ensures { IsTrue result ↔ VerifiesUnder old.now new.now s vote.now.key vote.now.signature }
{
    let statement = SlotStatement::of(&old.chain(), new, s);
    verify(&old.key(s, vote.key), statement.as_bytes(), &vote.signature).is_ok()
}

/// Why a slot is not signed.
pub(crate) fn unsigned_by(
    old: &CommitteeView,
    new: &CommitteeView,
    renewal: &Renewal,
    s: u16,
) -> Option<RenewalRefusal>
    requires place { s < n_of old.now }
    requires still { s < n_of new.now }
    requires count { HasCount old.now new.now s }
    ensures none { IfNone result (IsSigned old.now new.now renewal.now s) }
    ensures some { IfSome result (λ refusal. IsUnsignedBy refusal old.now new.now renewal.now s) }
{
    if is_kept(old, new, s) {
        return None;
    }
    let Some(vote) = signature_of(renewal, s) else {
        return Some(RenewalRefusal::Unsigned(s));
    };
    if vote.key >= old.keys(s) {
        return Some(RenewalRefusal::KeyNumber(s));
    }
    if !verifies(old, new, s, &vote) {
        return Some(RenewalRefusal::Signature(s));
    }
    None
}

// Why the least slot that is not signed is not.
fn first_unsigned(
    old: &CommitteeView,
    new: &CommitteeView,
    renewal: &Renewal,
) -> Option<RenewalRefusal>
    requires size { n_of new.now ≡ n_of old.now }
    requires counts { AllSlots old.now (HasCount old.now new.now) }
    ensures none { IfNone result (AllSlots old.now (IsSigned old.now new.now renewal.now)) }
    ensures some { IfSome result (IsFirstUnsigned old.now new.now renewal.now) }
{
    for s in 0..old.n() {
        if let Some(refusal) = unsigned_by(old, new, renewal, s) {
            return Some(refusal);
        }
    }
    None
}

// The tests of each slot.
fn judge_slots(
    old: &CommitteeView,
    new: &CommitteeView,
    renewal: &Renewal,
) -> Result<(), RenewalRefusal>
    requires { HaveOneSize old.now new.now renewal.now }
    ensures ok { OnOk result (HaveGoodSlots old.now new.now renewal.now) }
    ensures first_refusal { IfErr result (λ refusal.
        IsRenewalRefusal refusal old.now new.now renewal.now) }
{
    if let Some(s) = other_weight(old, new) {
        return Err(RenewalRefusal::Weight(s));
    }
    if let Some(s) = other_count(old, new) {
        return Err(RenewalRefusal::KeyCount(s));
    }
    if let Some(s) = unbound(old, new) {
        return Err(RenewalRefusal::KeyId(s));
    }
    if let Some(refusal) = first_unsigned(old, new, renewal) {
        return Err(refusal);
    }
    Ok(())
}

// All tests in their order.
fn judge(
    old: &CommitteeView,
    new: &CommitteeView,
    renewal: &Renewal,
) -> Result<Slots, RenewalRefusal>
    ensures ok { OnOk result (Renews old.now new.now renewal.now) }
    ensures slots { IfOk result (AreSlotsOf old.now new.now) }
    ensures first_refusal { IfErr result (λ refusal.
        IsRenewalRefusal refusal old.now new.now renewal.now) }
{
    compare(old, new, renewal)?;
    judge_slots(old, new, renewal)?;
    let slots = slots_of(old, new);
    if slots.weight < old.quorum() {
        return Err(RenewalRefusal::TooFew);
    }
    Ok(slots)
}

/// Whether the new committee renews the old one by this renewal: the renewal names the old committee's chain and the digest of the new
/// one's file; both have one format, as many replicas, and in each slot, the place of a replica, the same weight and as many keys; each
/// slot is kept, with the same keys in both, or all its keys have bound ids, and the renewal has a signature of the statement of
/// these keys by a key that the slot has in the old committee; and the slots that are not kept weigh a quorum of it. Answers which these
/// are. Refused by the first of `RenewalRefusal`'s tests that is not passed. Signatures of slots that are kept are not looked at. It takes
/// no memory, and costs one signature check for each slot that is not kept at the most.
pub fn renews(
    old: &CommitteeView,
    new: &CommitteeView,
    renewal: &Renewal,
) -> Result<Slots, RenewalRefusal>
    ensures exact { IsOk result ↔ Renews old.now new.now renewal.now }
    ensures slots { IfOk result (AreSlotsOf old.now new.now) }
    ensures first_refusal { IfErr result (λ refusal.
        IsRenewalRefusal refusal old.now new.now renewal.now) }
{
    judge(old, new, renewal)
}
