//! A piece of a step from one chain to the next, as a server hands it out.

ghost use Rattle.std.specs.Prelude.{◌≡◌, IfOk, IfSome, IsTrue, OnOk, Some, length};
ghost use Rattle.std.specs.Io.KnownBytes.{Consumes};
ghost use Rattle.log_request.specs.StepRequests.{IsStepRequest, step_request_text};
ghost use Rattle.log_request.specs.Pieces.{IsFetched};

use crate::StepRequest;
use base_wire::u32_at;
use log_transfer::Dial;
use std::alloc::{AllocError, Global};
use std::io;
use std::io::{Read, Write};

/// What a server gave of a piece.
#[derive(Drop)]
pub enum Fetched {
    /// The piece, whole.
    Piece(Vec<u8>),
    /// The server says that it has none.
    NotThere,
    /// The server could not be reached, broke off, or named more bytes than such a piece has at most.
    Failed,
}

/// Asks a server once for a piece of at most so many bytes. Nothing of it is judged. AllocError comes where memory is refused.
pub fn fetch_piece<D: Dial>(
    alloc: Global,
    dialer: &D,
    request: StepRequest,
    most: usize,
) -> Result<Fetched, AllocError> {
    match ask_for(dialer, request) {
        Ok(mut stream) => read_piece(alloc, &mut stream, most),
        Err(_) => Ok(Fetched::Failed),
    }
}

// Opens a stream, and asks for the piece.
fn ask_for<D: Dial>(dialer: &D, request: StepRequest) -> io::Result<D::Stream>
    ensures sent { IfOk result (λ s. IsTrue D.tells → D.Stream.Write.contents s
        ≡ Some (step_request_text request)) }
    ensures is_request { OnOk result (IsStepRequest request) }
{
    let mut stream = dialer.dial()?;
    stream.write_all(&request.to_bytes())?;
    Ok(stream)
}

// Reads the length of a piece and the piece, or that there is none.
fn read_piece<R: Read>(alloc: Global, stream: &mut R, most: usize) -> Result<Fetched, AllocError>
    ensures { IfSome (R.remaining stream.old) (λ text. IfOk result (IsFetched most text)) }
{
    let Some(head) = read_head(stream) else {
        return Ok(Fetched::Failed);
    };
    if head == *b"HSL0" {
        return Ok(Fetched::NotThere);
    }
    let length = u32_at(&head, 0) as usize;
    if length > most {
        return Ok(Fetched::Failed);
    }
    match read_bytes(alloc, stream, length) {
        Ok(Some(piece)) => Ok(Fetched::Piece(piece)),
        Ok(None) => Ok(Fetched::Failed),
        Err(refused) => Err(refused),
    }
}

// Reads the four bytes that stand before a piece, if as many come.
fn read_head<R: Read>(stream: &mut R) -> Option<[u8; 4]>
    ensures { IfSome result (λ head. Consumes (R.remaining stream.old) (R.remaining stream.new) head) }
{
    let mut head = [0; 4];
    match stream.read_exact(&mut head) {
        Ok(()) => Some(head),
        Err(_) => None,
    }
}

// Reads so many bytes, if as many come.
fn read_bytes<R: Read>(
    alloc: Global,
    stream: &mut R,
    count: usize,
) -> Result<Option<Vec<u8>>, AllocError>
    ensures { IfOk result (λ bytes. IfSome bytes (λ bytes. (length bytes.items ≡ count)
        × Consumes (R.remaining stream.old) (R.remaining stream.new) bytes.items)) }
{
    let mut bytes = vec![in alloc; 0; count]?;
    match stream.read_exact(&mut bytes) {
        Ok(()) => Ok(Some(bytes)),
        Err(_) => Ok(None),
    }
}
