//! Paths, printed in one line.

ghost use Rattle.std.specs.Prelude.{◌≡◌, ◌≤◌, ◌<◌, length, slice_index, take, false, OnOk, OnErr};
ghost use Rattle.base_streams.specs.Counting.{Counts};
ghost use Rattle.base_streams.specs.Streams.{Wrote, WrotePart};
ghost use Rattle.base_text.specs.Printed.{is_plain, escape, printed, file_line};

use base_streams::{Fault, Sink, write_all};

/// Writes `fault file `, the path, the text behind it as it is, and a line feed. In the path each byte below 0x20, 0x7f
/// and the backslash go out as `\x` and two hex digits, so a line stays one. After a fault a first part was written.
pub fn write_file_fault<W: Sink>(out: &mut W, path: &str, behind: &[u8]) -> Result<(), Fault>
    ensures ok { OnOk result (Wrote (W.text out.old) (W.text out.new)
        (file_line path.now behind.now)) }
    ensures err { OnErr result (WrotePart (W.text out.old) (W.text out.new)
        (file_line path.now behind.now)) }
    ensures counted { Counts (W.failed out.old) (W.failed out.new) result }
{
    write_all(out, b"fault file ")?;
    write_printed(out, path.as_bytes())?;
    write_all(out, behind)?;
    write_all(out, b"\n")
}

/// Writes a text in one line, as `write_file_fault` writes a path: what is plain piece by piece, and each other byte
/// escaped. After a fault a first part was written.
pub fn write_printed<W: Sink>(out: &mut W, text: &[u8]) -> Result<(), Fault>
    ensures ok { OnOk result (Wrote (W.text out.old) (W.text out.new) (printed text.now)) }
    ensures err { OnErr result (WrotePart (W.text out.old) (W.text out.new) (printed text.now)) }
    ensures counted { Counts (W.failed out.old) (W.failed out.new) result }
{
    let mut rest = text;
    while !rest.is_empty() {
        let n = plain_len(rest);
        if n == 0 {
            write_all(out, &escaped(rest[0]))?;
            rest = &rest[1..];
        } else {
            write_all(out, &rest[..n])?;
            rest = &rest[n..];
        }
    }
    Ok(())
}

// How many bytes at the front are plain.
fn plain_len(text: &[u8]) -> usize
    ensures within { result ≤ length text.now }
    ensures plain { printed (take result text.now) ≡ take result text.now }
    ensures stop { result ≡ 0 → 0 < length text.now → is_plain (slice_index text.now 0) ≡ false }
{
    for (i, byte) in text.iter().enumerate() {
        if !is_plain_byte(*byte) {
            return i;
        }
    }
    text.len()
}

fn is_plain_byte(byte: u8) -> bool
    ensures { result ≡ is_plain byte }
{
    32 <= byte && byte != 127 && byte != b'\\'
}

// `\x` and two hex digits.
fn escaped(byte: u8) -> [u8; 4]
    ensures { result ≡ escape byte }
{
    let mut digits = [0; 2];
    let _ = hex::encode_to_slice([byte], &mut digits);
    [b'\\', b'x', digits[0], digits[1]]
}
