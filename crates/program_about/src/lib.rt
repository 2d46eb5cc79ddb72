//! What `hs_show` says beside files: a verdict as a sheet to read, what a printed line means, its help and its version. Needs no
//! threads or network; files and streams are handed in.
#![tactic(auto)]

mod about;
mod explaining;
mod lineage;
mod program;
mod sheet;
mod table;

pub use lineage::{SheetFault, asks_for_lineage_sheet, run_lineage_sheet};
pub use program::{asks_about, run_about};
