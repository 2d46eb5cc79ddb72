//! An endorsement that is newer than the index store of the keys that signed it: put back, the store would give out a one-time key that
//! signed already.

ghost use Rattle.std.specs.Prelude.{◌≡◌, ◌↔◌, ◌≤◌, ◌+◌, ◌*◌, IsTrue, false, length, min};
ghost use Rattle.key_index_store.specs.declared.store.TheConstants.{INDICES};
ghost use Rattle.signer_command.specs.Outrunning.{EndorsementOutruns};
ghost use Rattle.base_wire.specs.Pieces.{number_at};

use base_wire::u32_at;
use blocks::CommitteeView;
use handover_keys::check_endorsement;
use key_index_store::{INDICES, IndexStore};
use stable_log::Disk;

/// The boundary of an index store that is not stopped: it gave no index from this one on, of those that its keys have.
pub(crate) fn boundary_of<D: Disk>(index: &IndexStore<D>) -> u32
    ensures { index.now.stopped ≡ false → result ≡ min index.now.mark (INDICES * index.now.keys) }
{
    INDICES * u32::from(index.keys()) - index.left()
}

/// Whether the bytes are a good endorsement under the committee, at an index that is not below the boundary.
pub(crate) fn endorsement_outruns(committee: &CommitteeView, bytes: &[u8], boundary: u32) -> bool
    ensures { IsTrue result ↔ EndorsementOutruns committee.now boundary bytes.now }
{
    match check_endorsement(committee, bytes) {
        Ok(endorsement) => is_from(endorsement.key(), endorsement.signature(), boundary),
        Err(_) => false,
    }
}

// Whether the index of a signature by the key of this number is not below the boundary.
fn is_from(key: u8, signature: &[u8], boundary: u32) -> bool
    requires { 4 ≤ length signature.now }
    ensures { IsTrue result ↔ boundary ≤ INDICES * key + number_at 4 signature.now 0 }
{
    let index = u64::from(INDICES) * u64::from(key) + u64::from(u32_at(signature, 0));
    u64::from(boundary) <= index
}
