//! Endorsements that have the form of one.

ghost use Rattle.std.specs.Prelude.{◌≡◌};
ghost use Rattle.handover_keys.specs.Endorsements.{statement_in};
ghost use Rattle.handover_keys.specs.NextKeysReading.{IsStatement};
ghost use Rattle.handover_renewals.specs.Endorsed.{AreStated, endorsement_of, texts_of};

use handover_keys::EndorsementView;

// The endorsement of bytes that were judged before.
pub(crate) fn view_of(bytes: &[u8]) -> EndorsementView<'_>
    requires { IsStatement (statement_in bytes.now) }
    ensures { result ≡ bytes.now }
{
    match EndorsementView::parse(bytes) {
        Ok(endorsement) => endorsement,
        Err(_) => unreachable!(),
    }
}

// The endorsement of a replica.
pub(crate) fn endorsement_of<'a>(endorsements: &'a [Vec<u8>], s: u16) -> Option<EndorsementView<'a>>
    requires { AreStated (texts_of endorsements.now) }
    ensures { result ≡ endorsement_of (texts_of endorsements.now) s }
{
    for bytes in endorsements {
        let endorsement = view_of(bytes);
        if endorsement.statement().replica() == s {
            return Some(endorsement);
        }
    }
    None
}
