//! What the body of a call to go over spells.

ghost use Rattle.std.specs.Prelude.{◌≡◌, IfOk, MatchOption};
ghost use Rattle.signer_calls.specs.OverBodies.{SpellsNoThree, SpellsOver, SpellsThree};
ghost use Rattle.signer_calls.specs.Pairs.{SpellsNoPair};

use crate::call::Renewing;
use crate::pair::pair_in;
use bytes::Bytes;
use std::alloc::AllocError;

/// A renewal, a file, and a light proof, if there is one.
#[derive(Drop)]
pub(crate) struct OverBody {
    pub renewal: Bytes,
    pub file: Bytes,
    pub proof: Option<Bytes>,
}

// A renewal, a file and a light proof.
#[derive(Drop)]
struct Three {
    renewal: Bytes,
    file: Bytes,
    proof: Bytes,
}

// What a body spells: all three, or else a renewal and a file.
pub(crate) fn over_body_in(body: &Bytes) -> Result<Option<OverBody>, AllocError>
    ensures { IfOk result (λ it. MatchOption it (SpellsNoPair body.now) (λ it.
        SpellsOver body.now it.renewal it.file it.proof)) }
{
    if let Some(three) = three_in(body)? {
        let Three {
            renewal,
            file,
            proof,
        } = three;
        return Ok(Some(OverBody {
            renewal,
            file,
            proof: Some(proof),
        }));
    }
    let Some(pair) = pair_in(body)? else {
        return Ok(None);
    };
    let Renewing { renewal, file } = pair;
    Ok(Some(OverBody {
        renewal,
        file,
        proof: None,
    }))
}

// All three, each behind its length.
#[tactic(auto, using(crate::proofs::OverBodies::no_first))]
fn three_in(body: &Bytes) -> Result<Option<Three>, AllocError>
    ensures { IfOk result (λ three. MatchOption three (SpellsNoThree body.now) (λ it.
        SpellsThree body.now it.renewal it.file it.proof)) }
{
    let Some(first) = pair_in(body)? else {
        return Ok(None);
    };
    let Renewing {
        renewal,
        file: rest,
    } = first;
    let Some(second) = pair_in(&rest)? else {
        return Ok(None);
    };
    let Renewing {
        renewal: file,
        file: last,
    } = second;
    let Some(third) = pair_in(&last)? else {
        return Ok(None);
    };
    let Renewing {
        renewal: proof,
        file: more,
    } = third;
    if more.len() > 0 {
        return Ok(None);
    }
    Ok(Some(Three {
        renewal,
        file,
        proof,
    }))
}
