//! When an endorsement is good.

ghost use Rattle.std.specs.Prelude.{◌≡◌, ◌<◌, ◌↔◌, IfErr, IfOk, IsOk, IsTrue, OnOk};
ghost use Rattle.blocks.specs.Committees.{n_of, keys_of};
ghost use Rattle.handover_keys.specs.EndorsementChecks.{IsEndorsementRefusal, PassesAll, endorsement_refusal_number, of_form};
ghost use Rattle.handover_keys.specs.Endorsements.{HasBoundIds, IsGoodEndorsement, IsSigned};
ghost use Rattle.handover_keys.specs.NextKeys.{replica_in};

use crate::binding::bound_id;
use crate::endorsement::EndorsementView;
use crate::statement::{NextKeysRefusal, NextKeysView};
use blocks::CommitteeView;
use lms_tree::verify;

/// Why an endorsement is refused, in the order of the tests: the first that is not passed.
#[derive(Clone, Copy, Debug, PartialEq, Eq)]
pub enum EndorsementRefusal {
    /// There are fewer than 39 bytes before the number of the key and the signature.
    Short = 1,
    /// The statement does not begin with `HSE1`.
    Magic = 2,
    /// The statement does not name 1 to 4 keys.
    Count = 3,
    /// The bytes are not as many as the number of keys asks for.
    Length = 4,
    /// The 56 bytes of one of the keys are no public key.
    Key = 5,
    /// The statement's chain id is not the committee's.
    Chain = 6,
    /// The committee has no such replica.
    Replica = 7,
    /// The replica has not as many keys in the committee as the statement names.
    KeyCount = 8,
    /// One of the keys has not the id that is bound to its place.
    KeyId = 9,
    /// The replica has no key of the number that signed.
    KeyNumber = 10,
    /// The signature of the statement does not verify under that key.
    Signature = 11,
}

impl EndorsementRefusal {
    /// The number of the refusal, which never changes.
    pub fn number(self) -> u8
        ensures { result ≡ endorsement_refusal_number self }
    {
        self as u8
    }
}

impl From<NextKeysRefusal> for EndorsementRefusal {
    ghost from_gives = { λ refusal r. r ≡ of_form refusal };

    fn from(refusal: NextKeysRefusal) -> EndorsementRefusal {
        match refusal {
            NextKeysRefusal::Short => EndorsementRefusal::Short,
            NextKeysRefusal::Magic => EndorsementRefusal::Magic,
            NextKeysRefusal::Count => EndorsementRefusal::Count,
            NextKeysRefusal::Length => EndorsementRefusal::Length,
            NextKeysRefusal::Key => EndorsementRefusal::Key,
        }
    }
}

// Whether each key that is stated has the id that is bound to its place.
fn has_bound_ids(statement: &NextKeysView) -> bool
    ensures { IsTrue result ↔ HasBoundIds statement.now }
{
    let (chain, replica) = (statement.chain(), statement.replica());
    for k in 0..statement.count() {
        if statement.key(k).key_id != bound_id(&chain, replica, k) {
            return false;
        }
    }
    true
}

// Whether a replica of the committee signed the bytes with its key of this number.
fn is_signed(
    committee: &CommitteeView,
    replica: u16,
    key: u8,
    message: &[u8],
    signature: &[u8],
) -> bool
    requires known { replica < n_of committee.now }
    requires key { key < keys_of committee.now replica }
    ensures { IsTrue result ↔ IsSigned committee.now replica key message.now signature.now }
{
    verify(&committee.key(replica, key), message, signature).is_ok()
}

// Checks what a readable endorsement says.
fn judge(committee: &CommitteeView, endorsement: &EndorsementView) -> Result<(), EndorsementRefusal>
    ensures ok { OnOk result (PassesAll committee.now endorsement.now) }
    ensures first_refusal { IfErr result (IsEndorsementRefusal committee.now endorsement.now) }
{
    let statement = endorsement.statement();
    let (replica, key) = (statement.replica(), endorsement.key());
    if statement.chain() != committee.chain() {
        return Err(EndorsementRefusal::Chain);
    }
    if replica >= committee.n() {
        return Err(EndorsementRefusal::Replica);
    }
    if statement.count() != committee.keys(replica) {
        return Err(EndorsementRefusal::KeyCount);
    }
    if !has_bound_ids(&statement) {
        return Err(EndorsementRefusal::KeyId);
    }
    if key >= committee.keys(replica) {
        return Err(EndorsementRefusal::KeyNumber);
    }
    if !is_signed(
        committee,
        replica,
        key,
        statement.bytes(),
        endorsement.signature(),
    ) {
        return Err(EndorsementRefusal::Signature);
    }
    Ok(())
}

/// Judges whether the bytes are an endorsement by a replica of this committee: its statement of its next keys behind this committee, as
/// many as it has in it, each with the id that is bound to its place, signed with the key of the committee that is named. Refused by
/// the first of `EndorsementRefusal`'s tests that is not passed. It takes no memory, and costs one signature check at the most.
pub fn check_endorsement<'a>(
    committee: &CommitteeView,
    bytes: &'a [u8],
) -> Result<EndorsementView<'a>, EndorsementRefusal>
    ensures exact { IsOk result ↔ IsGoodEndorsement committee.now bytes.now }
    ensures found { IfOk result (λ e. e ≡ bytes.now) }
    ensures first_refusal { IfErr result (IsEndorsementRefusal committee.now bytes.now) }
{
    let endorsement = EndorsementView::parse(bytes)?;
    judge(committee, &endorsement)?;
    Ok(endorsement)
}
