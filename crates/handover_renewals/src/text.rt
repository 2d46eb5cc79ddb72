//! The bytes of a renewal.

ghost use Rattle.std.specs.Prelude.{◌≡◌, ◌++◌, ◌≤◌, IfOk, OnOk, length};
ghost use Rattle.std.specs.List.{flat_map};
ghost use Rattle.blocks.specs.Committees.{n_of};
ghost use Rattle.certificates.specs.Certificates.{endorsement_text};
ghost use Rattle.handover_renewals.specs.Renewals.{renewal_text};
ghost use Rattle.handover_renewals.specs.Endorsed.{AreStated, texts_of};
ghost use Rattle.handover_renewals.specs.Composing.{renewal_to, seal_of, seals_upto};

use crate::endorsed::endorsement_of;
use base_wire::append;
use blocks::CommitteeView;
use handover_keys::EndorsementView;
use std::alloc::{AllocError, Global};

// The view of the certificate of a renewal.
const RENEWAL_VIEW: u64 = 1;

// How many of the first n replicas endorsed keys.
fn count_upto(endorsements: &[Vec<u8>], n: u16) -> u16
    requires { AreStated (texts_of endorsements.now) }
    ensures { result ≡ length (seals_upto (texts_of endorsements.now) n) }
{
    let mut count = 0;
    for s in 0..n {
        if endorsement_of(endorsements, s).is_some() {
            count += 1;
        }
    }
    count
}

// Adds what a renewal has of the endorsement of a replica.
fn put_seal(text: &mut Vec<u8>, s: u16, endorsement: &EndorsementView) -> Result<(), AllocError>
    ensures { OnOk result (text.new.items
        ≡ text.old.items ++ endorsement_text (seal_of s endorsement.now)) }
{
    append(text, &s.to_be_bytes())?;
    append(text, &[endorsement.key()])?;
    append(text, endorsement.signature())
}

// Adds that of each of the first n replicas that endorsed keys.
fn put_seals(text: &mut Vec<u8>, endorsements: &[Vec<u8>], n: u16) -> Result<(), AllocError>
    requires { AreStated (texts_of endorsements.now) }
    ensures { OnOk result (text.new.items ≡ text.old.items
        ++ flat_map endorsement_text (seals_upto (texts_of endorsements.now) n)) }
{
    for s in 0..n {
        if let Some(endorsement) = endorsement_of(endorsements, s) {
            put_seal(text, s, &endorsement)?;
        }
    }
    Ok(())
}

// The bytes of the renewal of the old committee by the new one with the signatures of these endorsements.
#[tactic(auto, unfolding(crate::specs::Renewals::renewal_text, certificates::specs::Certificates::certificate_text))]
pub(crate) fn renewal_text(
    alloc: Global,
    old: &CommitteeView,
    new: &CommitteeView,
    endorsements: &[Vec<u8>],
) -> Result<Vec<u8>, AllocError>
    requires { AreStated (texts_of endorsements.now) }
    ensures { IfOk result (λ text. text.items
        ≡ renewal_text (renewal_to old.now new.now (texts_of endorsements.now))) }
{
    let n = old.n();
    let mut text = Vec::new(alloc);
    append(&mut text, b"HSR1")?;
    append(&mut text, &old.chain())?;
    append(&mut text, &RENEWAL_VIEW.to_be_bytes())?;
    append(&mut text, &new.genesis().payload)?;
    append(&mut text, &count_upto(endorsements, n).to_be_bytes())?;
    put_seals(&mut text, endorsements, n)?;
    Ok(text)
}
