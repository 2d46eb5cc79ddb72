//! Where bytes go and come from, and how the failures of devices are counted: sinks and feeds over memory and over the
//! streams of a process, and failures on demand for tests. Needs no threads or network.
#![tactic(auto)]

mod fault;
mod feed;
mod fuse;
mod memory_feed;
mod memory_sink;
mod sink;
mod std_feed;
mod std_sink;

pub use fault::Fault;
pub use feed::Feed;
pub use fuse::Fuse;
pub use memory_feed::MemoryFeed;
pub use memory_sink::MemorySink;
pub use sink::{Sink, write_all};
pub use std_feed::StdFeed;
pub use std_sink::StdSink;
