//! Fetching the log of a replica from a source that may break off: the frames of its stream one at a time or all at
//! once, over a few connections, and how the last one ended. Needs Net for sockets alone.
#![tactic(auto)]

mod budget;
mod connector;
mod dial;
mod error;
mod failure;
mod fetching;
mod file_connector;
mod filling;
mod front;
mod laws;
mod memory_connector;
mod payload;
mod pull;
mod puller;
mod reader_state;
mod reading_on;
mod server_connector;
mod source_connector;
mod steps;
mod stream;
mod taking;
mod tcp_connector;
mod tries;
mod watched;

pub use base_streams::Fault;
pub use budget::{Budget, MOST_OF_A_STREAM};
pub use connector::Connector;
pub use dial::Dial;
pub use error::FetchError;
pub use failure::Failure;
pub use fetching::{Fetched, fetch};
pub use file_connector::FileConnector;
pub use laws::{a_complete_source_gives_its_log, a_whole_export_is_complete};
pub use memory_connector::MemoryConnector;
pub use payload::Payload;
pub use pull::{Pull, Step};
pub use puller::Puller;
pub use reader_state::MOST_TRIES;
pub use server_connector::{CONNECTION_SECONDS, ServerConnector};
pub use source_connector::{ServerOrFile, SourceConnector};
pub use tcp_connector::{CONNECT_SECONDS, PAUSE_SECONDS, TcpConnector, TcpDialer, WAIT_SECONDS};
pub use watched::{Watch, Watched};
