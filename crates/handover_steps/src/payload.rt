//! The payload of the block that hands over.

ghost use Rattle.std.specs.Prelude.{◌≡◌, IfErr, IfOk};
ghost use Rattle.handover_blocks.specs.Handovers.{handover_payload};
ghost use Rattle.handover_steps.specs.Successors.{IsSuccessorFile, IsSuccessorRefusal, files_of};

use crate::file_refusal::SuccessorRefusal;
use crate::taken::least_taken;
use blocks::CommitteeView;
use handover_blocks::handover_payload;

/// The payload of the block by which the old committee hands over to the committee of this file. `earlier` has the files of the
/// committees before the old one, in any order; bytes among them that are no committee's count as having no key. Refused in
/// this order: `Committee`, `OldKey`.
pub fn successor_payload(
    earlier: &[Vec<u8>],
    old: &CommitteeView,
    file: &[u8],
) -> Result<[u8; 32], SuccessorRefusal>
    ensures ok { IfOk result (λ payload.
        IsSuccessorFile (files_of earlier.now) old.now file.now × (payload ≡ handover_payload file.now)) }
    ensures first_refusal { IfErr result (IsSuccessorRefusal (files_of earlier.now) old.now file.now) }
{
    let new = match CommitteeView::parse(file) {
        Ok(new) => new,
        Err(refusal) => return Err(SuccessorRefusal::Committee(refusal)),
    };
    match least_taken(earlier, old, &new) {
        Some(key) => Err(SuccessorRefusal::OldKey(key)),
        None => Ok(handover_payload(file)),
    }
}
