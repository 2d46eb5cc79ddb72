//! Reading what is new of a source: one connection's answer, and the logs that came of the source so far, told by the digests of
//! their frames. Needs no threads or files; connections are handed in.
#![tactic(auto)]

mod answer;
mod following;
mod kept_log;

pub use answer::{Answer, End, MOST_FRAMES_ASKED, MOST_OF_AN_ANSWER, ask};
pub use following::{FrameDigest, FramePlace, MOST_LOGS, SourceLogs, digest_of};
