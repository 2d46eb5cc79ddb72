//! Whether blocks and timeouts are taken yet.

ghost use Rattle.std.specs.Prelude.{◌≡◌, IfErr, IfOk, IfSome, IsFalse, IsTrue, MatchOption, true};
ghost use Rattle.signer_answers.specs.Enough.{AreEnough};
ghost use Rattle.signer_answers.specs.Hearings.{HasHeard, IsGivenUp, IsHearingRefusal};

use crate::approver::Approver;
use crate::giving_up::{GivenUp, give_up};
use crate::heard::Heard;
use crate::keeper::Keeper;
use crate::office::Office;
use crate::opened::Opened;
use stable_log::Disk;
use std::alloc::Global;
use std::sync::{OnceLock, Wait};
use vote_desk::{DeskError, DeskNaming};

/// Whether the callers of a desk are let in yet: at once, or only once enough others were heard. One value for all of them.
#[derive(Drop)]
pub struct Gate<N: DeskNaming, D: Disk> {
    /// Whether others are asked at all.
    pub asks: bool,
    heard: OnceLock<GivenUp<N, D>>,
}

impl<N: DeskNaming, D: Disk> Gate<N, D> {
    /// Open at once, or shut until enough others were heard.
    pub fn new(asks: bool) -> Gate<N, D>
        ensures { result.asks ≡ asks }
    {
        Gate {
            asks,
            heard: OnceLock::new(),
        }
    }

    /// Whether it is open.
    pub fn is_open(&self) -> bool
        ensures open { IsTrue result → self.now.asks ≡ true
            → HasHeard D.Disk N.committee N.replica N.opening }
        ensures shut { IsFalse result → self.now.asks ≡ true }
    {
        if !self.asks {
            return true;
        }
        match self.heard.get() {
            Some(given_up) => {
                given_up.heard();
                true
            }
            None => false,
        }
    }

    /// Opens where the logs of replicas of more than a third of the weight were read whole, this one not counted; before, the
    /// desk gives up on all views up to the one above the greatest that was found to be certified. Answers what shows that it is
    /// open, or none where they are not enough. Where it was opened before, the desk gives up all the same. `Memory`, where what
    /// was heard could not be copied, or `Stopped`, by a stopped desk: then the gate stays as it was.
    pub fn hear<R: Wait, K: Approver + Keeper, H: Heard>(
        &self,
        rt: &R,
        alloc: Global,
        office: &Office<'_, N, D, K>,
        heard: &H,
    ) -> Result<Option<Opened<'_, N, D>>, DeskError>
        ensures few { IfOk result (λ opened. opened ≡ None
            → AreEnough N.committee N.replica (H.hearing heard.now).whole → ⊥) }
        ensures given_up { IfOk result (λ opened. IfSome opened (λ it.
            IsGivenUp D.Disk N.committee N.replica N.opening
            (H.hearing heard.now))) }
        ensures opened { IfOk result (λ opened. IfSome opened (λ it. it.of ≡ self.now.heard.id)) }
        ensures by_this { IfOk result (λ opened. IfSome opened (λ it. IsTrue it.is_first →
            it.heard ≡ H.hearing heard.now)) }
        ensures refused { IfErr result (IsHearingRefusal D.Disk N.committee N.replica N.opening) }
    {
        let Some(given_up) = give_up(rt, alloc, office, heard)? else {
            return Ok(None);
        };
        given_up.heard();
        match self.heard.try_insert(rt, given_up) {
            Ok(token) => Ok(Some(Opened::new(&self.heard, token, true))),
            Err((token, _)) => Ok(Some(Opened::new(&self.heard, token, false))),
        }
    }
}
