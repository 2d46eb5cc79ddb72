//! A block or a timeout that a replica is asked for, and what answers it, once for the replica that reads lines and for the one
//! that answers calls; and these lines. Calls may wait for the desk's lock; needs no threads, files or network.
#![tactic(auto)]

mod answering;
mod laws;
mod outcome;
mod outcome_line;
mod reading;
mod request;
mod request_line;

pub use answering::{answer, deliver, time_out};
pub use laws::a_text_has_one_reading;
pub use outcome::Outcome;
pub use outcome_line::{LineOutcome, write_outcome};
pub use reading::{LONGEST_LINE, MOST_LINES, read_requests};
pub use request::{Request, block_in};
pub use request_line::LineRequest;
