//! The lines that say what was heard of servers.

ghost use Rattle.std.specs.Prelude.{◌≡◌, ◌⊎◌, IfOk, length};
ghost use Rattle.log_request.specs.HeardLines.{TellsHeard, heard_line, heard_text};

use crate::heard::Heard;
use crate::server::ChainServer;
use base_streams::{Sink, write_all};
use base_text::put_number;
use base_wire::append;
use std::alloc::{AllocError, Global};

// The line that says of the source of this number that it has no log of the chain, or that it was asked without the chain's name;
// else no bytes.
fn heard_line(alloc: Global, number: usize, heard: Heard) -> Result<Vec<u8>, AllocError>
    ensures { IfOk result (λ line. line.items ≡ heard_line number heard) }
{
    let words = match heard {
        Heard::Nothing | Heard::Named => return Ok(Vec::new(alloc)),
        Heard::Unnamed => " was asked without naming the chain\n",
        Heard::NoLog => " has no log of this chain\n",
    };
    let mut line = b"source ".to_vec(alloc)?;
    put_number(&mut line, number)?;
    append(&mut line, words.as_bytes())?;
    Ok(line)
}

// What was heard of each server.
fn heard_of_each<D>(alloc: Global, servers: &[ChainServer<D>]) -> Result<Vec<Heard>, AllocError>
    ensures { IfOk result (λ heard. length heard.items ≡ length servers.now) }
{
    let mut heard = Vec::with_capacity(alloc, servers.len())?;
    for server in servers {
        heard.push(server.heard())?;
    }
    Ok(heard)
}

// The lines of the sources of which this was heard, from number 0 on.
fn heard_text(alloc: Global, heard: &[Heard]) -> Result<Vec<u8>, AllocError>
    ensures { IfOk result (λ text. text.items ≡ heard_text 0 heard.now) }
{
    let mut text = Vec::new(alloc);
    for (i, one) in heard.iter().enumerate() {
        append(&mut text, &heard_line(alloc, i, *one)?)?;
    }
    Ok(text)
}

/// Tells what was heard of the servers of the sources, a line for each that has no log of the chain or was asked without the chain's
/// name. What memory is refused to, or a write, is lost: nothing depends on it.
pub fn tell_heard<D, N: Sink>(alloc: Global, servers: &[ChainServer<D>], notes: &mut N)
    ensures { (notes.new ≡ notes.old)
        ⊎ TellsHeard (length servers.now) (N.text notes.old) (N.text notes.new) }
{
    let Ok(heard) = heard_of_each(alloc, servers) else {
        return;
    };
    let Ok(text) = heard_text(alloc, &heard) else {
        return;
    };
    let _ = write_all(notes, &text);
}
