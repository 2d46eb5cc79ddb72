//! Runs scripts of commands over files, and prints a transcript of what each did. Needs no threads or network; files,
//! input and output are handed in.
#![tactic(auto)]

mod failing_files;
mod file_commands;
mod line;
mod script;

pub use failing_files::{FailingFiles, Failure};
pub use script::run_script;
