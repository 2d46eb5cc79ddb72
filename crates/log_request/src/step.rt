//! Requests for a piece of a step from one chain to the next.

ghost use Rattle.std.specs.Prelude.{◌≡◌, ◌↔◌, ◌++◌, [], Some, IfSome, IsTrue, codes, length, take};
ghost use Rattle.log_request.specs.StepRequests.{IsStepRequest, begins_step, piece_number, step_request_text};
ghost use Rattle.log_request.specs.declared.step.StepPiece.{StepPiece as PieceValue};
ghost use Rattle.log_request.specs.declared.step.StepRequest.{StepRequest as RequestValue};

use base_wire::{array_at, put};
use blocks::Id;
use std::marker::Model;

/// The length of a request for a piece of a step, in bytes.
pub const STEP_REQUEST_LEN: usize = 37;

/// What there is of a step from one chain to the next.
#[derive(Clone, Copy, Debug, PartialEq, Eq)]
pub enum StepPiece {
    /// 1: the file of the committee that followed.
    File,
    /// 2: the renewal by which it followed.
    Renewal,
    /// 3: the light proof that it was committed.
    LightProof,
}

impl StepPiece {
    /// Its number in a request.
    pub fn number(self) -> u8
        ensures { result ≡ piece_number self }
    {
        match self {
            StepPiece::File => 1,
            StepPiece::Renewal => 2,
            StepPiece::LightProof => 3,
        }
    }

    /// The piece of this number. None where no piece has it.
    pub fn of(number: u8) -> Option<StepPiece>
        ensures found { IfSome result (λ piece. number ≡ piece_number piece) }
        ensures only { (piece : PieceValue) → number ≡ piece_number piece
            → result ≡ Some piece }
    {
        match number {
            1 => Some(StepPiece::File),
            2 => Some(StepPiece::Renewal),
            3 => Some(StepPiece::LightProof),
            _ => None,
        }
    }
}

/// A request for a piece of the step by which a chain was left.
#[derive(Clone, Copy, Debug, PartialEq, Eq)]
pub struct StepRequest {
    /// The id of the chain that was left.
    pub chain: Id,
    /// Which piece.
    pub piece: StepPiece,
}

// Whether the bytes are 37 and begin with the magic.
fn has_step_form(bytes: &[u8]) -> bool
    ensures { IsTrue result ↔ ((length bytes.now ≡ 37) × (take 4 bytes.now ≡ codes "HSL3")) }
{
    bytes.len() == STEP_REQUEST_LEN && bytes.starts_with(b"HSL3")
}

impl StepRequest {
    /// The request that the 37 bytes spell: `HSL3`, the id of the chain that was left (32 bytes at 4), and the number of the piece (1 byte
    /// at 36). None where there are not 37 bytes, they do not begin with `HSL3`, or no piece has that number.
    pub fn from_bytes(bytes: &[u8]) -> Option<StepRequest>
        // What is read is spelled so.
        ensures found { IfSome result (λ r. IsStepRequest r × (bytes.now ≡ step_request_text r)) }

        // What is spelled so is read.
        ensures only { (r : RequestValue) → IsStepRequest r → bytes.now ≡ step_request_text r
            → result ≡ Some r }
    {
        if !has_step_form(bytes) {
            return None;
        }
        let piece = StepPiece::of(bytes[36])?;
        Some(StepRequest {
            chain: array_at(bytes, 4),
            piece,
        })
    }

    /// The 37 bytes of the request.
    #[tactic(auto, unfolding(crate::specs::StepRequests::step_request_text))]
    pub fn to_bytes(self) -> [u8; STEP_REQUEST_LEN]
        ensures text { result ≡ step_request_text self }
        ensures is_request { IsStepRequest self }
    {
        let mut bytes = [0; STEP_REQUEST_LEN];
        put(&mut bytes, 0, b"HSL3");
        put(&mut bytes, 4, &self.chain);
        put(&mut bytes, 36, &[self.piece.number()]);
        bytes
    }
}

/// The bytes of a request for a piece of a step, as far as they came. Contracts see them.
#[derive(Drop)]
pub struct StepBytes {
    bytes: [u8; STEP_REQUEST_LEN],
    have: usize,
}

impl Model for StepBytes {
    ghost use Rattle.std.specs.Prelude.{◌≤◌, ℕ, List, take};

    ghost Value = { List ℕ };

    ghost view = { λ s. take s.have s.bytes };

    ghost invariant = { λ s. s.have ≤ 37 };
}

impl StepBytes {
    /// None.
    pub fn new() -> StepBytes
        ensures { result ≡ [] }
    {
        StepBytes {
            bytes: [0; STEP_REQUEST_LEN],
            have: 0,
        }
    }

    /// Takes what belongs to the request of the bytes that came after it. What comes after the request is not kept.
    pub fn take(&mut self, piece: &[u8])
        ensures { self.new ≡ take 37 (self.old ++ piece.now) }
    {
        let n = piece.len().min(STEP_REQUEST_LEN - self.have);
        put(&mut self.bytes, self.have, &piece[..n]);
        self.have += n;
    }

    /// Whether they begin with the magic of such a request: four bytes of it came at least.
    pub fn begin_step(&self) -> bool
        ensures { IsTrue result ↔ IsTrue (begins_step self.now) }
    {
        self.as_bytes().starts_with(b"HSL3")
    }

    /// Whether as many came as such a request has.
    pub fn is_whole(&self) -> bool
        ensures { IsTrue result ↔ (length self.now ≡ 37) }
    {
        self.have == STEP_REQUEST_LEN
    }

    /// The bytes that came.
    pub fn as_bytes(&self) -> &[u8]
        ensures { result.now ≡ self.now }
    {
        &self.bytes[..self.have]
    }
}
