//! A request for a part of the log of one chain, or for a piece of the step by which a chain was left, and what a server answers
//! that has no such chain; and servers that are asked for it, with what was heard of each. Needs Net for sockets alone.
#![tactic(auto)]

mod asking;
mod closing;
mod dialer;
mod first_bytes;
mod gathering;
mod heard;
mod lines;
mod piece;
mod request;
mod server;
mod source;
mod step;
mod stream;

pub use asking::{Asked, NO_LOG, asked_in};
pub use dialer::ChainDialer;
pub use gathering::{RequestBytes, request_len};
pub use heard::Heard;
pub use lines::tell_heard;
pub use piece::{Fetched, fetch_piece};
pub use request::{CHAIN_REQUEST_LEN, ChainRequest};
pub use server::ChainServer;
pub use source::ChainSource;
pub use step::{STEP_REQUEST_LEN, StepBytes, StepPiece, StepRequest};
pub use stream::ChainStream;
