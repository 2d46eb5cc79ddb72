//! The proof of a handover: exports that show by themselves which block of the old committee's chain hands over, or a light proof.
//! Needs no threads, files or network.
#![tactic(auto)]

mod chain;
mod entries;
mod finding;
mod making;
mod proof;
mod texts;

pub use chain::proving_blocks;
pub use entries::certificate_on;
pub use making::{LightMakingRefusal, make_light_proof};
pub use proof::{ProofFile, prove_handover};
