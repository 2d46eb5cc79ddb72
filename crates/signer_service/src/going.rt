//! How far a signer is that goes over from committee to committee.

use signer_answers::{Progress, Reserve};

/// How far its next keys are, and for which blocks too little is left.
#[derive(Clone, Copy)]
pub(crate) struct Going {
    pub progress: Progress,
    pub reserve: Reserve,
}
