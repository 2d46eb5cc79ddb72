//! What programs share: how they start and end, why they give up and the line that says so, words of their command lines, the files
//! that they read, and files that are there whole or not at all. Needs no threads or network; files and streams are handed in.
#![tactic(auto)]

mod committee;
mod ending;
mod fault;
mod folders;
mod input;
mod names;
mod no_fault;
mod program_fault;
mod source_fault;
mod starting;
mod words;
mod wrong_word;

pub use committee::{MOST_OF_A_SHORT_FILE, parse_committee, read_committee, read_named};
pub use ending::{FAULT, exit_status, write_out};
pub use fault::InputFault;
pub use folders::{folder_of, is_nothing_at, sync_folder, sync_folder_of};
pub use input::{read_at_most, read_file};
pub use names::{NewName, replace_file, store_new};
pub use no_fault::NoFault;
pub use program_fault::{FaultLine, ProgramFault};
pub use source_fault::SourceFault;
pub use starting::run_main;
pub use words::{Origin, SourceWord, number};
pub use wrong_word::write_wrong_word;
