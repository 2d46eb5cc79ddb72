//! One committee's file for years: the file of the committee that may come next, the steps by which a lineage goes on, each judged
//! by that file, its renewal and a light proof, a lineage in a folder, and the lines on its steps. Needs no threads or network;
//! files are handed in.
#![tactic(auto)]

mod file_refusal;
mod file_slots;
mod files;
mod folder;
mod judging;
mod laws;
mod lineage;
mod lines;
mod payload;
mod refusal;
mod slots;
mod step;
mod taken;

pub use file_refusal::SuccessorRefusal;
pub use files::StepFiles;
pub use folder::{
    MOST_OF_A_LIGHT_PROOF, MOST_OF_A_RENEWAL, MOST_STEPS, StoredLineage, read_steps, store_step,
};
pub use judging::check_step;
pub use laws::a_lineage_is_followed_step_by_step;
pub use lineage::{Lineage, judge_lineage};
pub use lines::{lineage_status, lineage_text, put_steps};
pub use payload::successor_payload;
pub use refusal::StepRefusal;
pub use step::Step;
