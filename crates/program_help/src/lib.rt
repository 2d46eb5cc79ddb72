//! What a program says of itself: `--help`, how it is called, and `--version`. Needs no threads, files or network; streams are handed in.
#![tactic(auto)]

mod answering;
mod asking;
mod help;
mod texts;

pub use answering::{run_help, text_of};
pub use asking::{Asked, asked_in};
pub use help::{Help, VERSION};
pub use texts::{DRAW, FOLLOW, SIGNER, WATCH};
