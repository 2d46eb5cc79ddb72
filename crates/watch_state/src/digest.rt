//! What the frames of a log digest to.

ghost use Rattle.std.specs.Prelude.{◌≡◌, IfOk};
ghost use Rattle.watch_state.specs.Digests.{chain_text, digest_then, no_frames};

use base_text::put_id;
use base_wire::append;
use blocks::Id;
use log_reading::FrameDigest;
use sha2::{Digest as _, Sha256};
use std::alloc::{AllocError, Global};

/// What the frames of a log digest to.
pub type LogDigest = [u8; 32];

/// What no frames digest to.
pub const NO_FRAMES: LogDigest = [0; 32];

/// What frames digest to that digest to this, and one more.
#[tactic(auto, unfolding(crate::specs::Digests::digest_then))]
pub fn digest_then(before: &LogDigest, frame: &FrameDigest) -> LogDigest
    ensures { result ≡ digest_then before.now frame.now }
{
    let mut hasher = Sha256::new();
    hasher.update(before);
    hasher.update(frame);
    hasher.finalize()
}

/// The text of the file that says of which chain the logs are that a folder keeps. `AllocError` where memory was refused.
#[tactic(auto, unfolding(crate::specs::Digests::chain_text))]
pub fn chain_text(alloc: Global, chain: &Id) -> Result<Vec<u8>, AllocError>
    ensures { IfOk result (λ text. text.items ≡ chain_text chain.now) }
{
    let mut text = Vec::new(alloc);
    put_id(&mut text, chain)?;
    append(&mut text, b"\n")?;
    Ok(text)
}
