//! The next committee's file.

ghost use Rattle.std.specs.Prelude.{◌≡◌, ◌<◌, IfOk, length};
ghost use Rattle.blocks.specs.Committees.{IsCommittee, has_many_keys, key_place, n_of};
ghost use Rattle.handover_renewals.specs.Endorsed.{AreGood, endorsement_of, stated_keys, texts_of};
ghost use Rattle.handover_renewals.specs.Composing.{composed_file, with_slot};
ghost use Rattle.handover_keys.specs.Endorsements.{statement_in};

use crate::endorsed::endorsement_of;
use base_wire::{MOST_KEYS, put};
use blocks::CommitteeView;
use handover_keys::{EndorsementView, NEXT_KEYS_HEAD_LEN};
use lms_tree::PUBLIC_KEY_LEN;
use std::alloc::{AllocError, Global};

// The length in bytes of what stands before the replicas.
const HEAD_LEN: usize = 8;

// The length of a weight, and of a number of keys, in bytes.
const NUMBER_LEN: usize = 4;

// Whether the format has room for several keys.
fn has_many_keys(committee: &CommitteeView) -> bool
    ensures { result ≡ has_many_keys committee.now }
{
    committee.bytes().starts_with(b"HSC3")
}

// Where the keys of a slot begin.
fn keys_place(committee: &CommitteeView, s: u16) -> usize
    ensures { result ≡ key_place committee.now s 0 }
{
    let (numbers, room) = if has_many_keys(committee) {
        (2 * NUMBER_LEN, usize::from(MOST_KEYS))
    } else if committee.has_weights() {
        (NUMBER_LEN, 1)
    } else {
        (0, 1)
    };
    HEAD_LEN + (numbers + room * PUBLIC_KEY_LEN) * usize::from(s) + numbers
}

// The keys that an endorsement states, one after the other.
fn stated_keys<'a>(endorsement: &EndorsementView<'a>) -> &'a [u8]
    ensures { result.now ≡ stated_keys endorsement.now }
{
    &endorsement.statement().bytes()[NEXT_KEYS_HEAD_LEN..]
}

// Replaces the keys of a slot by those that its replica endorsed, if it did.
fn renew_slot(file: &mut [u8], old: &CommitteeView, endorsements: &[Vec<u8>], s: u16)
    requires place { s < n_of old.now }
    requires was { IsCommittee old.now }
    requires good { AreGood old.now (texts_of endorsements.now) }
    requires long { length file.old ≡ length old.now }
    ensures { file.new ≡ with_slot old.now file.old s (endorsement_of (texts_of endorsements.now) s) }
{
    if let Some(endorsement) = endorsement_of(endorsements, s) {
        put(file, keys_place(old, s), stated_keys(&endorsement));
    }
}

// The old committee's file with the keys of each slot whose replica endorsed others replaced by these.
pub(crate) fn composed_file(
    alloc: Global,
    old: &CommitteeView,
    endorsements: &[Vec<u8>],
) -> Result<Vec<u8>, AllocError>
    requires { AreGood old.now (texts_of endorsements.now) }
    ensures file { IfOk result (λ file. file.items
        ≡ composed_file old.now (texts_of endorsements.now)) }
    ensures was { IsCommittee old.now }
{
    let mut file = old.bytes().to_vec(alloc)?;
    for s in 0..old.n() {
        renew_slot(&mut file, old, endorsements, s);
    }
    Ok(file)
}
