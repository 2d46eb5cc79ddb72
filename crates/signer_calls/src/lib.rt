//! What a call over HTTP asks of a replica, or why it is refused. Needs no threads, files or network.
#![tactic(auto)]

mod asking;
mod block_list;
mod call;
mod door;
mod laws;
mod log_part;
mod over_body;
mod pair;
mod query;
mod rules;
mod target;
mod vote_reading;

pub use asking::call_of;
pub use block_list::{BlockList, MOST_BLOCKS_AT_ONCE};
pub use call::{Call, CallRefusal, Over, Renewing};
pub use laws::{a_committees_file_is_read_as_one, a_request_has_one_reading};
pub use log_part::{LogPart, MOST_ENTRIES_AT_ONCE};
pub use rules::Rules;
pub use target::{CallTarget, Methods, id_in};
