//! The text of a part.

ghost use Rattle.std.specs.Prelude.{◌≡◌, ◌<◌, ◌≤◌, ◌+◌, ◌++◌, ◌∷◌, [], ℕ, List, IfOk, OnOk, codes, length};
ghost use Rattle.std.specs.List.{flat_map};
ghost use Rattle.log_format.specs.Exports.{end_mark, frame_text, stream_text};
ghost use Rattle.base_wire.specs.declared.limits.TheConstants.{LONGEST_PAYLOAD, MOST_ENTRIES};
ghost use Rattle.watch_state.specs.Texts.{HasFrames};

use base_wire::append;
use std::alloc::{AllocError, Global};
use std::marker::Model;

/// The text of a part to which frames are added: the export of them. Contracts see it, and how many frames it has.
#[derive(Drop)]
pub struct PartText {
    text: Vec<u8>,
    count: usize,
}

impl Model for PartText {
    ghost use Rattle.watch_state.specs.Texts.{Written};

    ghost Value = { Written };

    ghost view = { λ t. record { text = t.text.items; count = t.count } };
}

#[tactic(auto, unfolding(log_format::specs::Exports::frame_text))]
fn put_frame(text: &mut Vec<u8>, frame: &[u8]) -> Result<(), AllocError>
    requires { length frame.now ≤ LONGEST_PAYLOAD }
    ensures { OnOk result (text.new.items ≡ text.old.items ++ frame_text frame.now) }
{
    append(text, &(frame.len() as u32).to_be_bytes())?;
    append(text, frame)?;
    Ok(())
}

impl PartText {
    /// No frames yet. `AllocError` where memory was refused, here as in the other calls.
    pub fn new(alloc: Global) -> Result<PartText, AllocError>
        ensures { IfOk result (HasFrames []) }
    {
        let mut text = Vec::new(alloc);
        append(&mut text, b"HSL1")?;
        Ok(PartText { text, count: 0 })
    }

    /// Adds the next frame, of at most 65,536 bytes. After a refusal a part of it may have been added.
    #[tactic(auto, using(crate::proofs::Framing::one_more))]
    pub fn add(&mut self, frame: &[u8]) -> Result<(), AllocError>
        requires fits { length frame.now ≤ LONGEST_PAYLOAD }
        requires few { self.old.count < MOST_ENTRIES }
        ensures text { OnOk result (self.new.text ≡ self.old.text ++ frame_text frame.now) }
        ensures counted { OnOk result (self.new.count ≡ self.old.count + 1) }
        ensures ok { OnOk result ((frames : List (List ℕ))
            → HasFrames frames self.old → HasFrames (frames ++ frame.now ∷ []) self.new) }
    {
        put_frame(&mut self.text, frame)?;
        self.count += 1;
        Ok(())
    }

    /// How many frames it has.
    pub fn count(&self) -> usize
        ensures { result ≡ self.now.count }
    {
        self.count
    }

    /// Hands out the text so far, behind which that of the next frames goes on.
    pub fn take(&mut self, alloc: Global) -> Vec<u8>
        ensures text { result.items ≡ self.old.text }
        ensures left { self.new ≡ record { text = []; count = self.old.count } }
    {
        std::mem::replace(&mut self.text, Vec::new(alloc))
    }

    /// The text without an end mark, so that who reads it sees that more is missing.
    pub fn cut(self) -> Vec<u8>
        ensures { (frames : List (List ℕ)) → HasFrames frames self
            → result.items ≡ codes "HSL1" ++ flat_map frame_text frames }
    {
        let PartText { text, .. } = self;
        text
    }

    /// The whole text, with its end mark.
    #[tactic(auto, unfolding(log_format::specs::Exports::end_mark))]
    pub fn finish(self) -> Result<Vec<u8>, AllocError>
        requires { self.count ≤ MOST_ENTRIES }
        ensures end { IfOk result (λ text. text.items ≡ self.text ++ end_mark self.count) }
        ensures whole { IfOk result (λ text. (frames : List (List ℕ))
            → HasFrames frames self → text.items ≡ stream_text frames) }
    {
        let PartText { mut text, count } = self;
        append(&mut text, &[0; 4])?;
        append(&mut text, &(count as u32).to_be_bytes())?;
        Ok(text)
    }
}
