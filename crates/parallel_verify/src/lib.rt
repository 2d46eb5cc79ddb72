//! Evidence of streams and of sources that are read in threads of their own, and votes that are verified together, each once: a
//! memo that threads share answers when one comes again. `collect` takes a runtime with `Threads` and `Wait`, and `verify_all` one
//! with `Threads`.
#![tactic(auto)]

mod batch;
mod board;
mod collecting;
mod gathering;
mod joining;
mod judging;
mod keeping;
mod memo;
mod naming;
mod numbers;
mod observer;
mod part;
mod reading;
mod source;
mod steps;
mod texts;

pub use audit_evidence::{Evidence, EvidenceRefusal, SourceReport};
pub use batch::verify_all;
pub use board::Board;
pub use collecting::{Reading, collect, collect_by, read_sources, unobserved};
pub use judging::{Judgement, Judging, are_sound, sound_weight};
pub use naming::BoardNaming;
pub use observer::{NoOne, Observer};
pub use part::Ending;
pub use source::{Observed, Source, SourceText};
pub use texts::evidence_of;
