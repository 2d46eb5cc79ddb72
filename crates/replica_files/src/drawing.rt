//! Seeds that are drawn for a replica's next keys.

ghost use Rattle.std.specs.Prelude.{◌≤◌, IfOk, length};
ghost use Rattle.base_wire.specs.declared.limits.TheConstants.{MOST_KEYS};
ghost use Rattle.replica_files.specs.Drawing.{AreDrawn, IsDrawn};

use crate::DrawSeed;
use crate::behind::Behind;
use crate::next::SetFault;
use handover_keys::{KeyId, bound_id};
use lmots::PrivateSeed;
use std::alloc::Global;

/// Draws the seeds of these keys, each of which gets the id that is bound to its place (docs/FORMATS.md, "Bound key ids") in place of
/// the one that is drawn with it. Refused: `Memory`; `Folder` if the source of random bytes fails.
pub fn draw_set<S: DrawSeed>(
    alloc: Global,
    seeds: &S,
    behind: &Behind,
) -> Result<Vec<PrivateSeed>, SetFault>
    ensures drawn { IfOk result (λ secrets. AreDrawn (S.draws seeds.now) behind.now secrets.items) }
    ensures most { IfOk result (λ secrets. length secrets.items ≤ MOST_KEYS) }
{
    let mut secrets = Vec::new(alloc);
    for k in 0..behind.count {
        let secret = draw_one(seeds, bound_id(&behind.chain, behind.replica, k))?;
        secrets.push(secret)?;
    }
    Ok(secrets)
}

// A seed under this id.
fn draw_one<S: DrawSeed>(seeds: &S, id: KeyId) -> Result<PrivateSeed, SetFault>
    ensures { IfOk result (IsDrawn (S.draws seeds.now) id) }
{
    let Ok(bytes) = seeds.draw() else {
        return Err(SetFault::Folder);
    };
    let seed = PrivateSeed::from_bytes(&bytes).seed;
    Ok(PrivateSeed { key_id: id, seed })
}
