//! The core of a replica: what it votes for, what it locks, and what it knows again after a restart. Needs no
//! signature, threads, files or network.
#![tactic(auto)]

mod durable;
mod marks;
mod plan;
mod refusal;
mod replica;
mod restart;
mod stored;
mod table;

pub use durable::{Durable, Lock};
pub use marks::{MARK_LEN, is_marked};
pub use plan::{Act, Plan};
pub use refusal::CoreRefusal;
pub use replica::{Core, MOST_HEADERS};
pub use restart::replay;
pub use stored::Stored;
