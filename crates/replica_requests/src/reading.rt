//! Lines that are read from a feed.

ghost use Rattle.std.specs.Prelude.{◌≡◌, ◌<◌, ◌≤◌, ◌+◌, ◌-◌, ◌^◌, ◌⊎◌, ◌↔◌, ◌++◌, ◌∷◌, [], ℕ, List, IfNone, IfOk, IfSome, IsTrue, OnErr, OnOk, length};
ghost use Rattle.std.specs.List.{Contains};
ghost use Rattle.base_streams.specs.Counting.{one_more};
ghost use Rattle.replica_requests.specs.Intakes.{AddsRequestOf, IsTakenIn, held};
ghost use Rattle.replica_requests.specs.LineReading.{AreOfText, IsLine, IsWhatWasRead};
ghost use Rattle.replica_requests.specs.RequestLines.{IsRequestOf};

use crate::request_line::{LineRequest, request_of};
use base_streams::Feed;
use base_text::cut;
use std::alloc::{AllocError, Global};
use std::marker::Model;

/// How many lines are read at most. What lies behind them is not acted upon.
pub const MOST_LINES: usize = 65_536;

/// How long a line may be, in bytes, without its line feed.
pub const LONGEST_LINE: usize = 131_072;

/// How much is read at once, in bytes.
const PIECE_LEN: usize = 4096;

/// The requests of the lines of a feed, in order, 65,536 of them at most. The last line may lack its line feed, and
/// an empty rest behind the last line feed is no line. A line longer than 131,072 bytes is skipped, without being held
/// whole, and is a bad line. A failed read ends the lines: those before it that have their line feed count, and a line
/// that has none is dropped, since the failure may have cut it. An error is want of memory.
pub fn read_requests<R: Feed>(alloc: Global, lines: &mut R) -> Result<Vec<LineRequest>, AllocError>
    // Of a feed that tells what it has left, if that is not more than can be counted.
    ensures ok { IfOk result (λ requests.
        IfSome (R.rest lines.old) (λ text. length text < 2 ^ 64 - 1
        → IsWhatWasRead text (R.rest lines.new) (R.failed lines.old)
        (R.failed lines.new) requests.items)) }

    // Of any feed.
    ensures most { IfOk result (λ requests. length requests.items ≤ MOST_LINES) }
    ensures counted { OnOk result ((R.failed lines.new ≡ R.failed lines.old)
        ⊎ (R.failed lines.new ≡ one_more (R.failed lines.old))) }
    ensures err { OnErr result (R.failed lines.new ≡ R.failed lines.old) }
{
    let mut intake = Intake::new(alloc);
    let mut buffer = [0; PIECE_LEN];
    'reads: for _ in 0..u64::MAX {
        let Ok(n) = lines.read(&mut buffer) else {
            return Ok(intake.requests);
        };
        if n == 0 {
            return intake.finish(alloc);
        }
        intake.take(alloc, &buffer[..n])?;
        if intake.is_full() {
            return Ok(intake.requests);
        }
    }
    Ok(intake.requests)
}

// The requests of the lines that have ended, and the line that has not.
#[derive(Drop)]
struct Intake {
    requests: Vec<LineRequest>,
    line: OpenLine,
}

impl Intake {
    fn new(alloc: Global) -> Intake
        ensures requests { result.requests.items ≡ [] }
        ensures line { result.line ≡ held [] }
    {
        Intake {
            requests: Vec::new(alloc),
            line: OpenLine::new(alloc),
        }
    }

    fn is_full(&self) -> bool
        ensures { IsTrue result ↔ (length self.now.requests.items ≡ MOST_LINES) }
    {
        self.requests.len() == MOST_LINES
    }

    // Takes in what was read next, up to the last line.
    fn take(&mut self, alloc: Global, piece: &[u8]) -> Result<(), AllocError>
        requires { length self.old.requests.items < MOST_LINES }
        ensures ok { OnOk result ((text : List ℕ)
            → IsTakenIn text self.old.requests.items self.old.line
            → IsTakenIn (text ++ piece.now) self.new.requests.items self.new.line) }
        ensures most { length self.new.requests.items ≤ MOST_LINES }
    {
        let mut rest = piece;
        while let Some((front, behind)) = cut(rest) {
            self.line.add(front)?;
            self.end_line(alloc)?;
            if self.is_full() {
                return Ok(());
            }
            rest = behind;
        }
        self.line.add(rest)
    }

    // The requests of the whole text, of which the last line may lack its line feed.
    fn finish(self, alloc: Global) -> Result<Vec<LineRequest>, AllocError>
        requires { length self.requests.items < MOST_LINES }
        ensures ok { IfOk result (λ requests. (text : List ℕ)
            → IsTakenIn text self.requests.items self.line → AreOfText text requests.items) }
        ensures most { IfOk result (λ requests. length requests.items ≤ MOST_LINES) }
    {
        let mut intake = self;
        if intake.line.is_empty() {
            return Ok(intake.requests);
        }
        intake.end_line(alloc)?;
        Ok(intake.requests)
    }

    fn end_line(&mut self, alloc: Global) -> Result<(), AllocError>
        ensures added { OnOk result ((line : List ℕ) → self.old.line ≡ held line →
            AddsRequestOf line self.old.requests.items self.new.requests.items) }
        ensures count { OnOk result (length self.new.requests.items ≡ length self.old.requests.items
            + 1) }
        ensures kept { OnErr result (self.new.requests.items ≡ self.old.requests.items) }
        ensures next { OnOk result (self.new.line ≡ held []) }
    {
        let request = self.line.request(alloc)?;
        self.requests.push(request)?;
        self.line.clear();
        Ok(())
    }
}

// A line that has not ended: its first bytes, and whether it has more than there is room for.
#[derive(Drop)]
struct OpenLine {
    bytes: Vec<u8>,
    is_too_long: bool,
}

impl Model for OpenLine {
    ghost use Rattle.std.specs.Prelude.{◌≤◌, length};
    ghost use Rattle.replica_requests.specs.Intakes.{HeldLine};

    ghost Value = { HeldLine };

    ghost view = { λ l. record { bytes = l.bytes.items; is_too_long = l.is_too_long } };

    ghost invariant = { λ l. length l.bytes.items ≤ 131072 };
}

impl OpenLine {
    #[tactic(auto, unfolding(crate::specs::Intakes::held))]
    fn new(alloc: Global) -> OpenLine
        ensures { result ≡ held [] }
    {
        OpenLine {
            bytes: Vec::new(alloc),
            is_too_long: false,
        }
    }

    #[tactic(auto, unfolding(crate::specs::Intakes::held))]
    fn is_empty(&self) -> bool
        ensures { (line : List ℕ) → self.now ≡ held line → IsTrue result ↔ (line ≡ []) }
    {
        self.bytes.is_empty()
    }

    // Adds bytes at the end of the line, and holds those for which there is room.
    fn add(&mut self, piece: &[u8]) -> Result<(), AllocError>
        ensures { OnOk result ((line : List ℕ) → self.old ≡ held line
            → self.new ≡ held (line ++ piece.now)) }
    {
        let n = (LONGEST_LINE - self.bytes.len()).min(piece.len());
        self.bytes.extend_from_slice(&piece[..n])?;
        if n < piece.len() {
            self.is_too_long = true;
        }
        Ok(())
    }

    fn request(&self, alloc: Global) -> Result<LineRequest, AllocError>
        ensures { IfOk result (λ request. (line : List ℕ) → self.now ≡ held line
            → IsRequestOf line request) }
    {
        if self.is_too_long {
            return Ok(LineRequest::BadLine);
        }
        request_of(alloc, &self.bytes)
    }

    #[tactic(auto, unfolding(crate::specs::Intakes::held))]
    fn clear(&mut self)
        ensures { self.new ≡ held [] }
    {
        self.bytes.clear();
        self.is_too_long = false;
    }
}
