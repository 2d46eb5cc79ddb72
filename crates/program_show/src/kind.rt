//! What kind of file bytes look like.

ghost use Rattle.std.specs.Prelude.{◌≡◌};
ghost use Rattle.program_show.specs.Kinds.{begins_with_index, kind_in};

use base_wire::u32_at;
use lmots::PRIVATE_SEED_LEN;

/// The kinds of files, as they are told apart before they are read.
#[derive(Clone, Copy, Debug, PartialEq, Eq)]
pub(crate) enum Kind {
    /// 48 bytes, whatever they are: nothing else of the bytes is looked at.
    Seed,
    /// They begin with `HSC1`, `HSC2` or `HSC3`.
    Committee,
    /// They begin with `HSX2`.
    Verdict,
    /// They begin with `HSL1`.
    Export,
    /// They begin with `HSE1`.
    Endorsement,
    /// They begin with `HSR1`.
    Renewal,
    /// They begin with `HSJ1`.
    Journal,
    /// They begin with `HSJ1`, and the first entry has four bytes.
    Indices,
    /// None of these: a public key, or a file of no kind.
    Other,
}

// Whether the first gate of a journal is open, and an entry of four bytes stands behind it.
fn begins_with_index(bytes: &[u8]) -> bool
    ensures { result ≡ begins_with_index bytes.now }
{
    bytes.len() >= 13 && bytes[8] == 1 && u32_at(bytes, 9) == 4
}

/// The kind of a file with these bytes. The length of a seed goes before all magics.
pub(crate) fn kind_of(bytes: &[u8]) -> Kind
    ensures { result ≡ kind_in bytes.now }
{
    if bytes.len() == PRIVATE_SEED_LEN {
        Kind::Seed
    } else if bytes.starts_with(b"HSC1")
        || bytes.starts_with(b"HSC2")
        || bytes.starts_with(b"HSC3")
    {
        Kind::Committee
    } else if bytes.starts_with(b"HSX2") {
        Kind::Verdict
    } else if bytes.starts_with(b"HSL1") {
        Kind::Export
    } else if bytes.starts_with(b"HSE1") {
        Kind::Endorsement
    } else if bytes.starts_with(b"HSR1") {
        Kind::Renewal
    } else if !bytes.starts_with(b"HSJ1") {
        Kind::Other
    } else if begins_with_index(bytes) {
        Kind::Indices
    } else {
        Kind::Journal
    }
}
