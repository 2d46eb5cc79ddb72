//! The folder of a signer whose committees follow one another: the chains' logs, the words that it said of each chain, its key
//! sets, the chain that it is in, and what no chain needs any more; and laws on committees of which each renews the one before it.
//! Files alone; no threads or network.
#![tactic(auto)]

mod beginning;
mod chains;
mod clearing;
mod comparing;
mod error;
mod fault;
mod folder;
mod laws;
mod light_proof;
mod lineage_laws;
mod names;
mod said;
mod standing;
mod store;
mod word;

pub use error::WordError;
pub use fault::LineageFault;
pub use folder::LineageFolder;
pub use laws::{
    a_told_word_is_found, a_word_cut_off_may_be_found, at_most_one_word,
    what_is_refused_says_nothing, words_have_one_spelling,
};
pub use light_proof::light_proof_in;
pub use lineage_laws::{
    a_lineage_keeps_the_weight, a_slot_is_its_replicas_own, each_slot_is_handed_on,
    one_endorsement_a_chain,
};
pub use names::{LOG, NEXT_FILE, NEXT_PROOF, NEXT_RENEWAL, WORDS};
pub use standing::{KeySet, Standing, has_keys_of};
pub use store::WordStore;
pub use word::{
    ENDORSED, ENDORSEMENT_LENS, GONE_OVER, GoneOver, WORD_LEN, words_are_those_of_the_format,
};
