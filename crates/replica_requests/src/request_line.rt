//! What a line asks for.

ghost use Rattle.std.specs.Prelude.{◌≡◌, ◌≢◌, ◌++◌, ℕ, List, IfOk, MatchOption};
ghost use Rattle.replica_requests.specs.RequestLines.{AsksFor, IsOfDigits};

use crate::{Request, block_in};
use base_text::number_in;
use hex::FromHexError;
use std::alloc::{AllocError, Global};

/// What a line asks for.
#[derive(Drop)]
pub enum LineRequest {
    /// This of the replica: `block HEX`, the digits of a header's 84 bytes and of the certificate of its parent, or
    /// `timeout V`, to give up on all views up to V.
    Asked(Request),
    /// Nothing: any other line.
    BadLine,
}

// What a line asks for, without its line feed.
pub(crate) fn request_of(alloc: Global, line: &[u8]) -> Result<LineRequest, AllocError>
    ensures { IfOk result (λ request. AsksFor line.now request) }
{
    if let Some(digits) = behind(line, b"block ") {
        return block_request(alloc, digits);
    }
    let Some(digits) = behind(line, b"timeout ") else {
        return Ok(LineRequest::BadLine);
    };
    match number_in(digits) {
        Some(view) => Ok(LineRequest::Asked(Request::Timeout(view))),
        None => Ok(LineRequest::BadLine),
    }
}

// What stands behind the word that the line begins with.
fn behind<'a>(line: &'a [u8], word: &[u8]) -> Option<&'a [u8]>
    ensures { MatchOption result ((rest : List ℕ) → line.now ≢ word.now ++ rest) (λ rest.
        line.now ≡ word.now ++ rest.now) }
{
    line.strip_prefix(word)
}

fn block_request(alloc: Global, digits: &[u8]) -> Result<LineRequest, AllocError>
    ensures { IfOk result (λ request. IsOfDigits digits.now request) }
{
    match hex::decode(alloc, digits) {
        Ok(bytes) => Ok(LineRequest::Asked(block_in(alloc, &bytes)?)),
        Err(FromHexError::OutOfMemory) => Err(AllocError),
        Err(_) => Ok(LineRequest::BadLine),
    }
}
