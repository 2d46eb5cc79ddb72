//! Serves the log of a replica: one request is read and the export that it asks for is written, and over TCP so
//! connection after connection, with a line for each. Needs Net for sockets alone, and no threads.
#![tactic(auto)]

mod answering;
mod connection;
mod error;
mod fault;
mod filling;
mod reply;
mod replying;
mod service;
mod serving;

pub use answering::answer;
pub use connection::{CONNECTION_SECONDS, REQUEST_SECONDS, WAIT_SECONDS};
pub use error::ServeError;
pub use fault::ServiceFault;
pub use filling::{Filled, fill};
pub use reply::Reply;
pub use replying::reply_to;
pub use service::serve_requests;
pub use serving::serve;
