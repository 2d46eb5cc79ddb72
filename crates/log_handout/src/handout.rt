//! A log that goes out in pieces, while it grows.

ghost use Rattle.std.specs.Prelude.{◌≡◌, ◌⊎◌, ◌≤◌, ◌<◌, ◌++◌, ◌-◌, ◌^◌, ℕ, List, IfErr, IfOk, IfSome, None, OnErr, OnOk, Some, codes, length, min, option_map};
ghost use Rattle.log_format.specs.Exports.{end_mark};
ghost use Rattle.vote_log.specs.declared.export_error.ExportError.TheVariants.{Memory, Sink};
ghost use Rattle.vote_desk.specs.SomeDesk.{IsDeskOf, SomeDesk};
ghost use Rattle.log_handout.specs.Handouts.{AreFrames, HasAll, IsPiece, IsUnmade, begun, next_entry, wanted};

use crate::stage::Stage;
use base_streams::MemorySink;
use base_wire::append;
use log_format::FrameRequest;
use stable_log::Disk;
use std::alloc::{AllocError, Global};
use std::marker::Model;
use std::sync::Wait;
use vote_desk::{Desk, DeskNaming};
use vote_log::ExportError;

/// The bytes of an export before its frames, and how many stand behind them.
const FRONT: &[u8] = b"HSL1";

const FRONT_LEN: usize = 4;

const BACK_LEN: usize = 8;

/// The entries of a log that one request is handed out, and how far that is.
#[derive(Drop)]
pub struct Handout {
    first: u32,
    most: u32,
    sent: u32,
    stage: Stage,
}

impl Model for Handout {
    ghost use Rattle.std.specs.Prelude.{◌≤◌, ◌<◌, ◌+◌, ◌^◌};
    ghost use Rattle.log_handout.specs.Handouts.{Handed};

    ghost Value = { Handed };

    ghost view = { λ h. record { first = h.first; most = h.most; sent = h.sent; stage = h.stage } };

    ghost invariant = { λ h. (h.first + h.most < 2 ^ 32) × (h.sent ≤ h.most) };
}

impl Handout {
    /// What a request is handed out: the entries that it asks for, of those that the desk has now.
    pub fn begin<N: DeskNaming, T: Wait, D: Disk>(
        rt: &T,
        desk: &Desk<N, D>,
        request: FrameRequest,
    ) -> Handout
        ensures { SomeDesk (IsDeskOf D.Disk N.committee N.replica N.opening)
            (λ d. result ≡ begun request (length d.log.steps)) }
    {
        let entries = capped(desk.status(rt).entries);
        Handout {
            first: request.first,
            most: request.most.min(entries.saturating_sub(request.first)),
            sent: 0,
            stage: Stage::Front,
        }
    }

    /// The next bytes that go out, of at most `share` entries, which is above 0, and at most 64, or none behind the last. Each piece is of
    /// the list that the desk has when it is made. After an error, as of `Desk::export`, nothing was made.
    pub fn next_piece<N: DeskNaming, T: Wait, D: Disk>(
        &mut self,
        rt: &T,
        alloc: Global,
        desk: &Desk<N, D>,
        share: u32,
    ) -> Result<Option<Vec<u8>>, ExportError>
        requires { 0 < share }
        ensures made { IfOk result (λ piece.
            IsPiece (SomeDesk (IsDeskOf D.Disk N.committee N.replica N.opening)) D.bytes share
            self.old self.new (option_map (λ v. v.items) piece)) }
        ensures err { OnErr result (self.new ≡ self.old) }
        ensures refused { IfErr result (IsUnmade D.Disk (IsDeskOf D.Disk N.committee N.replica N.opening)
            (next_entry self.old) (wanted self.old share)) }
    {
        match self.stage {
            Stage::Front => {
                let front = copy_of(alloc, FRONT)?;
                self.stage = Stage::Frames;
                Ok(Some(front))
            }
            Stage::Frames => Ok(Some(self.next_frames(rt, alloc, desk, share)?)),
            Stage::Over => Ok(None),
        }
    }

    // The frames of the next entries, or the end.
    fn next_frames<N: DeskNaming, T: Wait, D: Disk>(
        &mut self,
        rt: &T,
        alloc: Global,
        desk: &Desk<N, D>,
        share: u32,
    ) -> Result<Vec<u8>, ExportError>
        requires share { 0 < share }
        requires stage { self.old.stage ≡ Stage.Frames }
        ensures made { IfOk result (λ piece.
            IsPiece (SomeDesk (IsDeskOf D.Disk N.committee N.replica N.opening)) D.bytes share
            self.old self.new (Some piece.items)) }
        ensures err { OnErr result (self.new ≡ self.old) }
        ensures refused { IfErr result (IsUnmade D.Disk (IsDeskOf D.Disk N.committee N.replica N.opening)
            (next_entry self.old) (wanted self.old share)) }
    {
        if self.sent >= self.most {
            return self.end::<N, D>(alloc, share);
        }
        let wanted = share.min(self.most - self.sent);
        match copy_some(rt, alloc, desk, self.first + self.sent, wanted)? {
            Some((piece, frames)) => {
                self.sent += frames;
                Ok(piece)
            }
            None => self.end::<N, D>(alloc, share),
        }
    }

    // The end, which says how many frames went out.
    fn end<N: DeskNaming, D: Disk>(
        &mut self,
        alloc: Global,
        share: u32,
    ) -> Result<Vec<u8>, ExportError>
        requires all { HasAll (SomeDesk (IsDeskOf D.Disk N.committee N.replica N.opening))
            self.old }
        requires stage { self.old.stage ≡ Stage.Frames }
        ensures made { IfOk result (λ piece.
            IsPiece (SomeDesk (IsDeskOf D.Disk N.committee N.replica N.opening)) D.bytes share
            self.old self.new (Some piece.items)) }
        ensures err { OnErr result (self.new ≡ self.old) }
        ensures refused { IfErr result (λ e. e ≡ Memory) }
    {
        match end_of(alloc, self.sent) {
            Ok(end) => {
                self.stage = Stage::Over;
                Ok(end)
            }
            Err(_) => Err(ExportError::Memory),
        }
    }
}

// A number of entries, as a request can count them.
fn capped(entries: usize) -> u32
    ensures { result ≡ min entries (2 ^ 32 - 1) }
{
    u32::try_from(entries).unwrap_or(u32::MAX)
}

/// A copy of bytes.
pub(crate) fn copy_of(alloc: Global, bytes: &[u8]) -> Result<Vec<u8>, ExportError>
    ensures ok { IfOk result (λ copy. copy.items ≡ bytes.now) }
    ensures refused { IfErr result (λ e. e ≡ Memory) }
{
    match bytes.to_vec(alloc) {
        Ok(copy) => Ok(copy),
        Err(_) => Err(ExportError::Memory),
    }
}

// The end of an export of so many frames.
#[tactic(auto, unfolding(log_format::specs::Exports::end_mark))]
fn end_of(alloc: Global, frames: u32) -> Result<Vec<u8>, AllocError>
    ensures { IfOk result (λ end. end.items ≡ end_mark frames) }
{
    let mut end = Vec::new(alloc);
    append(&mut end, &[0; 4])?;
    append(&mut end, &frames.to_be_bytes())?;
    Ok(end)
}

// Copies the frames of entries under the desk's lock, at most so many, and answers how many they are.
fn copy_frames<N: DeskNaming, T: Wait, D: Disk>(
    rt: &T,
    alloc: Global,
    desk: &Desk<N, D>,
    first: u32,
    most: u32,
) -> Result<(Vec<u8>, u32), ExportError>
    ensures copied { IfOk result (λ r. SomeDesk (IsDeskOf D.Disk N.committee N.replica N.opening)
        (AreFrames D.bytes first (min most 64) r.0.items r.1)) }
    ensures refused { IfErr result (IsUnmade D.Disk (IsDeskOf D.Disk N.committee N.replica N.opening)
        first (min most 64)) }
{
    let mut copy = MemorySink::new(alloc);
    let frames = desk.export(rt, first, most, &mut copy)?;
    let piece = frames_in(alloc, copy.bytes())?;
    Ok((piece, frames))
}

// The same, or none where the list has no more.
fn copy_some<N: DeskNaming, T: Wait, D: Disk>(
    rt: &T,
    alloc: Global,
    desk: &Desk<N, D>,
    first: u32,
    most: u32,
) -> Result<Option<(Vec<u8>, u32)>, ExportError>
    requires { 0 < most }
    ensures some { IfOk result (λ copied. IfSome copied (λ r. (0 < r.1)
        × SomeDesk (IsDeskOf D.Disk N.committee N.replica N.opening)
        (AreFrames D.bytes first (min most 64) r.0.items r.1))) }
    ensures none { IfOk result (λ copied. copied ≡ None
        → SomeDesk (IsDeskOf D.Disk N.committee N.replica N.opening)
        (λ d. length d.log.steps ≤ first)) }
    ensures refused { IfErr result (IsUnmade D.Disk (IsDeskOf D.Disk N.committee N.replica N.opening)
        first (min most 64)) }
{
    let (piece, frames) = copy_frames(rt, alloc, desk, first, most)?;
    if frames == 0 {
        return Ok(None);
    }
    Ok(Some((piece, frames)))
}

// What stands between an export's front and its end.
fn frames_in(alloc: Global, export: &[u8]) -> Result<Vec<u8>, ExportError>
    ensures cut { IfOk result (λ frames. (mid : List ℕ) (count : ℕ)
        → export.now ≡ codes "HSL1" ++ (mid ++ end_mark count) → frames.items ≡ mid) }
    ensures refused { IfErr result (λ e. (e ≡ Memory) ⊎ (e ≡ Sink)) }
{
    if export.len() < FRONT_LEN + BACK_LEN {
        return Err(ExportError::Sink);
    }
    let frames = copy_of(alloc, &export[FRONT_LEN..export.len() - BACK_LEN])?;
    Ok(frames)
}
