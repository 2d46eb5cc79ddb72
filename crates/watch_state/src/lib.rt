//! The folder in which a watch keeps what it read: parts of logs, each a file with a name that says where its frames stand; which of
//! them are joined; how they are read again, and given out as exports. Needs no threads or network; files are handed in. No
//! contract speaks of a file.
#![tactic(auto)]

mod digest;
mod export;
mod folder;
mod joining;
mod listing;
mod log_text;
mod logs;
mod name;
mod order;
mod runs;
mod seam;
mod source_parts;
mod text;
mod walk;

pub use digest::{LogDigest, NO_FRAMES, chain_text, digest_then};
pub use export::{ExportFault, export_kept};
pub use folder::{StateFault, StateFolder, open_kept, open_state};
pub use logs::{KeptLogs, log_digest};
pub use name::{PartFile, PartName};
pub use order::put_in_order;
pub use runs::{JOINED, MOST_OF_A_PART, shortest_run};
pub use seam::Seam;
pub use source_parts::{MANY_PARTS, SourceParts};
pub use text::PartText;
pub use walk::{Found, PartVisitor, visit_parts};
