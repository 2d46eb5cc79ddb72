//! A text of others inside a text of ours, so that it stays a text there. Needs no threads, files or network.

ghost use Rattle.std.specs.Prelude.{◌≡◌, ◌++◌, ◌∷◌, [], OnOk, codes};
ghost use Rattle.hex.specs.Hex.{encode_lower};
ghost use Rattle.base_text.specs.Escapes.{escape_byte, escaped, html_byte, json_byte, label_byte};

use base_wire::append;
use std::alloc::AllocError;

/// Inside what a text stands.
#[derive(Clone, Copy, Debug, PartialEq, Eq)]
pub enum Inside {
    /// HTML or SVG, between tags or in quotes.
    Html,
    /// The value of a label, as Prometheus reads it.
    Label,
    /// A string of JSON.
    Json,
}

fn put_html(text: &mut Vec<u8>, byte: u8) -> Result<(), AllocError>
    ensures { OnOk result (text.new.items ≡ text.old.items ++ html_byte byte) }
{
    match byte {
        b'&' => append(text, b"&amp;"),
        b'<' => append(text, b"&lt;"),
        b'>' => append(text, b"&gt;"),
        b'"' => append(text, b"&quot;"),
        b'\'' => append(text, b"&#39;"),
        _ => append(text, &[byte]),
    }
}

fn put_label(text: &mut Vec<u8>, byte: u8) -> Result<(), AllocError>
    ensures { OnOk result (text.new.items ≡ text.old.items ++ label_byte byte) }
{
    match byte {
        b'\\' => append(text, b"\\\\"),
        b'"' => append(text, b"\\\""),
        b'\n' => append(text, b"\\n"),
        _ => append(text, &[byte]),
    }
}

fn put_json(text: &mut Vec<u8>, byte: u8) -> Result<(), AllocError>
    ensures { OnOk result (text.new.items ≡ text.old.items ++ json_byte byte) }
{
    if byte == b'\\' {
        return append(text, b"\\\\");
    }
    if byte == b'"' {
        return append(text, b"\\\"");
    }
    if byte < 32 {
        return put_control(text, byte);
    }
    append(text, &[byte])
}

fn put_control(text: &mut Vec<u8>, byte: u8) -> Result<(), AllocError>
    ensures { OnOk result (text.new.items ≡ text.old.items ++ (codes "\\u00" ++ encode_lower (byte ∷ []))) }
{
    let mut digits = [0; 2];
    let _ = hex::encode_to_slice([byte], &mut digits);
    append(text, b"\\u00")?;
    append(text, &digits)
}

#[tactic(auto, unfolding(crate::specs::Escapes::escape_byte))]
fn put_byte(text: &mut Vec<u8>, inside: Inside, byte: u8) -> Result<(), AllocError>
    ensures { OnOk result (text.new.items ≡ text.old.items ++ escape_byte inside byte) }
{
    match inside {
        Inside::Html => put_html(text, byte),
        Inside::Label => put_label(text, byte),
        Inside::Json => put_json(text, byte),
    }
}

/// Adds a text of others, each byte escaped that would mean something there. Where memory is refused a first part was added.
pub fn put_escaped(text: &mut Vec<u8>, inside: Inside, piece: &[u8]) -> Result<(), AllocError>
    ensures { OnOk result (text.new.items ≡ text.old.items ++ escaped inside piece.now) }
{
    for byte in piece {
        put_byte(text, inside, *byte)?;
    }
    Ok(())
}
