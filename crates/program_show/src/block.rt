//! What is said of an entry's block behind its line: its payload, and to which committee it hands over.

ghost use Rattle.std.specs.Prelude.{◌≡◌, ◌++◌, OnOk};
ghost use Rattle.hex.specs.Hex.{encode_lower};
ghost use Rattle.base_wire.specs.Pieces.{piece};
ghost use Rattle.handover_blocks.specs.Handovers.{IsHandover};
ghost use Rattle.program_show.specs.Entries.{AddsOnly, IsBlockText, IsHandoverPart};
ghost use Rattle.program_show.specs.Lines.{handover_line, payload_line};

use base_text::put_id;
use base_wire::{append, array_at};
use blocks::Header;
use handover_blocks::is_handover;
use std::alloc::AllocError;

/// How many bytes the mark of a handover has.
const MARK_LEN: usize = 4;

/// Adds a block's payload, and to whom it hands over, if it hands over.
pub(crate) fn put_block(text: &mut Vec<u8>, block: &Header) -> Result<(), AllocError>
    ensures { OnOk result (AddsOnly text.old.items text.new.items (IsBlockText block.now)) }
{
    put_payload_line(text, &block.payload)?;
    put_handover(text, block)
}

#[tactic(auto, unfolding(crate::specs::Lines::payload_line))]
fn put_payload_line(text: &mut Vec<u8>, payload: &[u8; 32]) -> Result<(), AllocError>
    ensures { OnOk result (text.new.items ≡ text.old.items ++ payload_line payload.now) }
{
    append(text, b"payload ")?;
    put_id(text, payload)?;
    append(text, b"\n")
}

// Adds a line for a block that hands over, and nothing for another.
fn put_handover(text: &mut Vec<u8>, block: &Header) -> Result<(), AllocError>
    ensures { OnOk result (AddsOnly text.old.items text.new.items (IsHandoverPart block.now)) }
{
    if is_handover(block) {
        put_handover_line(text, &block.payload)
    } else {
        Ok(())
    }
}

#[tactic(auto, unfolding(crate::specs::Lines::handover_line))]
fn put_handover_line(text: &mut Vec<u8>, payload: &[u8; 32]) -> Result<(), AllocError>
    ensures { OnOk result (text.new.items ≡ text.old.items ++ handover_line payload.now) }
{
    append(text, b"handover ")?;
    put_named(text, &array_at(&payload[..], MARK_LEN))?;
    append(text, b"\n")
}

// Adds the digits of what stands behind the mark.
fn put_named(text: &mut Vec<u8>, named: &[u8; 28]) -> Result<(), AllocError>
    ensures { OnOk result (text.new.items ≡ text.old.items ++ encode_lower named.now) }
{
    let mut digits = [0; 56];
    let _ = hex::encode_to_slice(&named[..], &mut digits);
    append(text, &digits)
}
