//! Giving up on the views that others certify, before a gate opens.

ghost use Rattle.std.specs.Prelude.{◌≡◌, IfErr, IfOk, MatchOption, OnOk};
ghost use Rattle.signer_answers.specs.Enough.{AreEnough};
ghost use Rattle.signer_answers.specs.Hearings.{IsGivenUp, IsHearingRefusal, IsTimedOut};

use crate::approver::Approver;
use crate::are_enough;
use crate::heard::Heard;
use crate::keeper::Keeper;
use crate::office::Office;
use stable_log::Disk;
use std::alloc::{AllocError, Global};
use std::marker::{Model, PhantomData};
use std::sync::Wait;
use vote_desk::{DeskError, DeskNaming};

/// What shows that enough others were heard, and that the desk gave up on all views up to the one above the greatest that they
/// certify. `give_up` alone makes it. Contracts see what was heard.
#[derive(Drop)]
pub struct GivenUp<N: DeskNaming, D: Disk> {
    whole: Vec<bool>,
    greatest: Option<u64>,
    named: PhantomData<N>,
    stored: PhantomData<D>,
}

impl<N: DeskNaming, D: Disk> Model for GivenUp<N, D> {
    ghost use Rattle.signer_answers.specs.Hearings.{Hearing, IsGivenUp};

    ghost Value = { Hearing };

    ghost view = { λ g. record { whole = g.whole.items; greatest = g.greatest } };

    ghost invariant = { λ g. IsGivenUp D.Disk N.committee N.replica N.opening (record {
      whole = g.whole.items;
      greatest = g.greatest;
    }) };
}

impl<N: DeskNaming, D: Disk> GivenUp<N, D> {
    // For the proof: what it shows.
    pub(crate) fn heard(&self)
        ensures { IsGivenUp D.Disk N.committee N.replica N.opening self.now }
    {
        let _whole = &self.whole;
    }
}

// The same once more.
fn copy_of(alloc: Global, whole: &[bool]) -> Result<Vec<bool>, AllocError>
    ensures { IfOk result (λ copy. copy.items ≡ whole.now) }
{
    let mut copy = Vec::new(alloc);
    copy.extend_from_slice(whole)?;
    Ok(copy)
}

// Gives up on all views up to the one above this.
fn time_out<N: DeskNaming, R: Wait, D: Disk, K: Approver + Keeper>(
    rt: &R,
    office: &Office<'_, N, D, K>,
    greatest: Option<u64>,
) -> Result<(), DeskError>
    ensures ok { OnOk result (IsTimedOut D.Disk N.committee N.replica N.opening greatest) }
    ensures refused { IfErr result (IsHearingRefusal D.Disk N.committee N.replica N.opening) }
{
    match greatest {
        Some(view) => office.desk.timeout(rt, view.saturating_add(1)),
        None => Ok(()),
    }
}

// Gives up on all views up to the one above the greatest, where enough were heard.
pub(crate) fn give_up<N: DeskNaming, R: Wait, D: Disk, K: Approver + Keeper, H: Heard>(
    rt: &R,
    alloc: Global,
    office: &Office<'_, N, D, K>,
    heard: &H,
) -> Result<Option<GivenUp<N, D>>, DeskError>
    ensures heard { IfOk result (λ given_up. MatchOption given_up
        (AreEnough N.committee N.replica (H.hearing heard.now).whole → ⊥)
        (λ it. it ≡ H.hearing heard.now)) }
    ensures refused { IfErr result (IsHearingRefusal D.Disk N.committee N.replica N.opening) }
{
    if !are_enough(office.committee, office.replica, heard.whole()) {
        return Ok(None);
    }
    let whole = copy_of(alloc, heard.whole())?;
    let greatest = heard.greatest();
    time_out(rt, office, greatest)?;
    Ok(Some(GivenUp {
        whole,
        greatest,
        named: PhantomData,
        stored: PhantomData,
    }))
}
