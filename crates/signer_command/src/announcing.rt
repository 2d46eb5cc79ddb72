//! What a signer says while its threads work, and when it ends.

ghost use Rattle.std.specs.Prelude.{◌≡◌, ◌++◌, IfOk, Option, OnErr, OnOk, codes, option_map, string_bytes};
ghost use Rattle.base_streams.specs.Counting.{Counts};
ghost use Rattle.base_streams.specs.Streams.{Wrote, WrotePart};
ghost use Rattle.signer_command.specs.Lines.{IsAnnounced, listening_line, listening_line_if, listening_text};
ghost use Rattle.signer_command.specs.Sockets.{places_of};

use crate::listening::ListeningSocket;
use crate::pool::Start;
use crate::stay::Sockets;
use base_streams::{Feed, Sink, write_all};
use std::alloc::{AllocError, Global};
use std::sync::Wait;
use std::time::Clock;

/// What came of announcing a signer.
#[derive(Clone, Copy, Debug, PartialEq, Eq)]
pub enum Announced {
    /// Not all threads have begun, and nothing was said.
    NotBegun,
    /// It could not be said that calls are taken, or not all of it.
    Unsaid,
    /// It was said, and where an input ends the signer, that has ended.
    Over,
}

/// The threads of all stays, and the sockets that they take calls at.
#[derive(Drop)]
pub(crate) struct Crew<'a, T> {
    pub rt: &'a T,
    pub sockets: &'a Sockets,
    pub start: &'a Start,
    /// Whether the signer ends with its input.
    pub while_input: bool,
}

/// Says where calls are taken once all threads have begun, and ends them when the input has ended, or where nothing can be
/// said.
pub(crate) fn announce<T: Wait + Clock, R: Feed, W: Sink>(
    crew: &Crew<'_, T>,
    text: &[u8],
    input: &mut R,
    out: &mut W,
) -> Announced
    ensures { IsAnnounced result (W.text out.old) (W.text out.new) (W.failed out.old)
        (W.failed out.new) text.now }
{
    if !crew.start.wait_for_all(crew.rt) {
        return Announced::NotBegun;
    }
    let said = write_all(out, text);
    if said.is_ok() {
        if !crew.while_input {
            return Announced::Over;
        }
        read_to_its_end(input);
    }
    crew.start.end_all();
    close_all(crew.sockets);
    match said {
        Ok(()) => Announced::Over,
        Err(_) => Announced::Unsaid,
    }
}

fn close_all(sockets: &Sockets) {
    for place in [
        Some(&sockets.calls),
        sockets.reads.as_ref(),
        sockets.log.as_ref(),
    ] {
        if let Some(place) = place {
            // A thread that it does not wake looks by itself.
            let _ = place.listener.close();
        }
    }
}

/// The lines that say where calls are taken.
pub(crate) fn text_of(alloc: Global, sockets: &Sockets) -> Result<Vec<u8>, AllocError>
    ensures { IfOk result (λ text. text.items ≡ listening_text (places_of sockets.now)) }
{
    let mut text = Vec::new(alloc);
    put_line(&mut text, b"calls", &sockets.calls)?;
    put_line_if(&mut text, b"read", &sockets.reads)?;
    put_line_if(&mut text, b"log", &sockets.log)?;
    Ok(text)
}

fn put_line(text: &mut Vec<u8>, name: &[u8], place: &ListeningSocket) -> Result<(), AllocError>
    ensures { OnOk result (text.new.items
        ≡ text.old.items ++ listening_line name.now (string_bytes place.now.name)) }
{
    text.extend_from_slice(b"listening ")?;
    text.extend_from_slice(name)?;
    text.extend_from_slice(b" ")?;
    text.extend_from_slice(place.name.as_bytes())?;
    text.extend_from_slice(b"\n")
}

// The line of another place, if there is one.
fn put_line_if(
    text: &mut Vec<u8>,
    name: &[u8],
    place: &Option<ListeningSocket>,
) -> Result<(), AllocError>
    ensures { OnOk result (text.new.items ≡ text.old.items ++ listening_line_if name.now
        (option_map (λ p. string_bytes p.name) place.now)) }
{
    match place {
        Some(place) => put_line(text, name, place),
        None => Ok(()),
    }
}

fn read_to_its_end<R: Feed>(input: &mut R) {
    let mut bytes = [0; 64];
    for _ in 0..u64::MAX {
        match input.read(&mut bytes) {
            Ok(0) | Err(_) => return,
            Ok(_) => {}
        }
    }
}
