//! The judgement of a verdict, from words, files and streams to the line that is printed. Needs no threads or network;
//! files and streams are handed in.
#![tactic(auto)]

mod fault;
mod input;
mod judge;
mod program;

pub use fault::CheckFault;
pub use input::Texts;
pub use judge::{ACCEPTED, REFUSED, run_check};
pub use program::run_program;
