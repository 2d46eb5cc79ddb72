//! What a replica's log consists of, and the stream in which it goes out: entries and their bytes, the frames of a
//! stream and how it ends, the request for it. Needs no threads, files or network.
#![tactic(auto)]

mod entry;
mod frames;
mod laws;
mod request;
mod status;

pub use entry::{Entry, EntryRefusal, LONGEST_ENTRY, entries_have_one_spelling};
pub use frames::Frames;
pub use laws::{
    a_cut_export_has_the_first_frames, a_stream_has_one_reading, an_export_reads_back,
    every_stream_has_a_reading,
};
pub use request::{FrameRequest, REQUEST_LEN};
pub use status::Status;
