//! The program that draws what an audit finds, from words and files to the text of its picture. Needs threads that wait; files and
//! streams are handed in.
#![tactic(auto)]

mod fault;
mod program;
mod reading;
mod words;

pub use fault::DrawFault;
pub use program::{DRAWN, run_draw};
