//! A handover's commit proved by a few headers and three certificates, without the headers below the handover. Needs no threads,
//! files or network.
#![tactic(auto)]

mod format;
mod judging;
mod laws;
#[cfg(test)]
mod stored;
#[cfg(test)]
mod tests;

pub use format::{
    LEAST_NUMBER, LIGHT_PROOF_HEAD_LEN, LightProof, LightProofFormRefusal, MOST_NUMBER,
};
pub use judging::{LightProofRefusal, check_light_proof};
pub use laws::{a_light_proof_is_a_first_handover, light_proofs_agree};
