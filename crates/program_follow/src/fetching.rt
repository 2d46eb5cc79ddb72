//! What comes next, from servers. What they give is judged before it is stored.

use blocks::{CommitteeView, Id};
use handover_steps::{
    MOST_OF_A_LIGHT_PROOF, MOST_OF_A_RENEWAL, StepFiles, StepRefusal, check_step,
};
use log_request::{Fetched, StepPiece, StepRequest, fetch_piece};
use log_transfer::{Dial, TcpDialer};
use program_parts::{MOST_OF_A_SHORT_FILE, Origin, SourceWord};
use std::alloc::{AllocError, Global};
use std::net::{Net, TcpStream};
use std::time::Clock;

// A piece of the step from this chain, of so many bytes at most.
fn ask<D: Dial>(
    alloc: Global,
    dialer: &D,
    chain: Id,
    piece: StepPiece,
    most: u64,
) -> Result<Fetched, AllocError> {
    let request = StepRequest { chain, piece };
    fetch_piece(alloc, dialer, request, most as usize)
}

// The files of the step from this chain, if the server has a committee's file and a light proof of it.
fn fetch_from<D: Dial>(
    alloc: Global,
    dialer: &D,
    chain: Id,
) -> Result<Option<StepFiles>, AllocError> {
    let file = ask(alloc, dialer, chain, StepPiece::File, MOST_OF_A_SHORT_FILE)?;
    let Fetched::Piece(file) = file else {
        return Ok(None);
    };
    let proof = ask(
        alloc,
        dialer,
        chain,
        StepPiece::LightProof,
        MOST_OF_A_LIGHT_PROOF,
    )?;
    let Fetched::Piece(proof) = proof else {
        return Ok(None);
    };
    let renewal = match ask(alloc, dialer, chain, StepPiece::Renewal, MOST_OF_A_RENEWAL)? {
        Fetched::Piece(renewal) => Some(renewal),
        Fetched::NotThere => None,
        Fetched::Failed => return Ok(None),
    };
    Ok(Some(StepFiles::of(file, renewal, proof)))
}

// Whether they are a good step from this committee.
fn are_good(alloc: Global, old: &CommitteeView, step: &StepFiles) -> Result<bool, AllocError> {
    match check_step(alloc, old, step.file(), step.renewal(), step.proof()) {
        Ok(_) => Ok(true),
        Err(StepRefusal::Memory) => Err(AllocError),
        Err(_) => Ok(false),
    }
}

// The files of a good step from this committee, if the server has them.
fn fetch_good<D: Dial>(
    alloc: Global,
    dialer: &D,
    old: &CommitteeView,
) -> Result<Option<StepFiles>, AllocError> {
    match fetch_from(alloc, dialer, old.chain())? {
        Some(step) if are_good(alloc, old, &step)? => Ok(Some(step)),
        _ => Ok(None),
    }
}

// Whether the one step is the other with a renewal: to the same committee.
fn has_more(step: &StepFiles, than: &StepFiles) -> bool {
    step.file() == than.file() && step.renewal().is_some()
}

/// The files of a good step from the committee of this file, of the first source that is a server and has them; with the renewal of
/// another source that has one to the same committee, if the first one has none.
pub(crate) fn fetch_next<T: Net<Stream = TcpStream> + Clock>(
    rt: &T,
    alloc: Global,
    last: &[u8],
    sources: &[SourceWord],
) -> Result<Option<StepFiles>, AllocError> {
    let Ok(old) = CommitteeView::parse(last) else {
        return Ok(None);
    };
    let mut found: Option<StepFiles> = None;
    for source in sources {
        let Origin::Tcp(address) = source.origin else {
            continue;
        };
        let Some(step) = fetch_good(alloc, &TcpDialer::new(rt, address), &old)? else {
            continue;
        };
        let is_better = match &found {
            Some(first) => has_more(&step, first),
            None => true,
        };
        if is_better {
            found = Some(step);
        }
        if is_whole(&found) {
            break;
        }
    }
    Ok(found)
}

// Whether a step was found, and has a renewal.
fn is_whole(found: &Option<StepFiles>) -> bool {
    match found {
        Some(step) => step.renewal().is_some(),
        None => false,
    }
}
