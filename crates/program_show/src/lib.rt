//! What files are and what stands in them: committees, verdicts, exports, journals, endorsements, renewals and keys as lines, from
//! words and files to what is printed. Needs no threads or network; files and streams are handed in.
#![tactic(auto)]

mod block;
mod committee;
mod digits;
mod endorsement;
mod entry;
mod kind;
mod log;
mod mark;
mod names;
mod page;
mod printing;
mod program;
mod renewal;
mod verdict;
mod words;

pub use page::{Page, show};
pub use printing::print_file;
pub use program::{NOT_WHOLE, SHOWN, run_show};
