//! What one connection to a source gives.

ghost use Rattle.std.specs.Prelude.{◌≡◌, ◌<◌, IfOk, OnOk, length};
ghost use Rattle.log_reading.specs.Answers.{IsAnswer, IsPiece};
ghost use Rattle.log_reading.specs.declared.answer.TheConstants.{MOST_OF_AN_ANSWER};

use log_transfer::{Connector, MOST_OF_A_STREAM};
use std::alloc::{AllocError, Global};

/// How many frames a request asks for at most: the last that is held, and a part of 256.
pub const MOST_FRAMES_ASKED: u32 = 257;

/// How many bytes of a connection are read, behind which no more is: some 1,024 votes and their blocks.
pub const MOST_OF_AN_ANSWER: usize = 1_572_864;

// How many bytes one read asks for.
const PIECE: usize = 65_536;

const _: () = prove!(MOST_OF_AN_ANSWER + PIECE <= MOST_OF_A_STREAM);

/// How what came of a connection ends.
#[derive(Clone, Copy, Debug, PartialEq, Eq)]
pub enum End {
    /// The connection ended.
    Ended,
    /// The connect or a read failed.
    Failing,
    /// It was not read on.
    Stopped,
}

/// What came of a connection.
#[derive(Drop)]
pub struct Answer {
    /// The bytes.
    pub text: Vec<u8>,
    /// How they end.
    pub end: End,
}

// Reads one piece more. Answers how the connection ends, if it does.
fn read_piece<C: Connector>(
    connector: &mut C,
    buffer: &mut [u8],
    text: &mut Vec<u8>,
) -> Result<Option<End>, AllocError>
    requires size { length buffer.old ≡ 65536 }
    requires few { C.taken connector.old ≡ length text.old.items }
    requires room { length text.old.items < MOST_OF_AN_ANSWER }
    ensures size { length buffer.new ≡ 65536 }
    ensures few { OnOk result (C.taken connector.new ≡ length text.new.items) }
    ensures came { IfOk result (IsPiece (C.left connector.old) (C.left connector.new)
        text.old.items text.new.items) }
    ensures state { (s : C) → C.reaches s connector.old → C.reaches s connector.new }
{
    match connector.read(buffer) {
        Err(_) => Ok(Some(End::Failing)),
        Ok(0) => Ok(Some(End::Ended)),
        Ok(n) => {
            text.extend_from_slice(&buffer[..n])?;
            Ok(None)
        }
    }
}

/// Connects to the source, asks for the frames from `first` on, at most 257 of them, and reads what comes, up to
/// `MOST_OF_AN_ANSWER` bytes and one piece. Memory is refused where the text could not be held.
pub fn ask<C: Connector>(alloc: Global, connector: &mut C, first: u32) -> Result<Answer, AllocError>
    ensures answer { IfOk result (λ a.
        IsAnswer (C.gives connector.old 0 first 257) a.text.items a.end) }
    ensures state { C.reaches connector.old connector.new }
{
    let mut text = Vec::new(alloc);
    let mut buffer = Vec::new(alloc);
    buffer.resize(PIECE, 0)?;
    if connector.connect(first, MOST_FRAMES_ASKED).is_err() {
        return Ok(Answer {
            text,
            end: End::Failing,
        });
    }
    while text.len() < MOST_OF_AN_ANSWER {
        if let Some(end) = read_piece(connector, buffer.as_mut_slice(), &mut text)? {
            return Ok(Answer { text, end });
        }
    }
    // For the proof: something may have been given behind it.
    let _ = connector.failures();
    Ok(Answer {
        text,
        end: End::Stopped,
    })
}
