//! How long a log and its payloads may be, and how many keys a replica may have.

ghost use Rattle.std.specs.Prelude.{◌≡◌};
ghost use Rattle.base_wire.specs.declared.limits.TheConstants.{LONGEST_PAYLOAD, MOST_ENTRIES, MOST_KEYS};

/// The most entries of a log, and so the most frames of a source.
pub const MOST_ENTRIES: usize = 4096;

/// The most bytes of a payload: what a journal holds for an entry, and an export sends as a frame.
pub const LONGEST_PAYLOAD: usize = 65_536;

/// The most keys of a replica.
pub const MOST_KEYS: u8 = 4;

/// All are as docs/FORMATS.md says, "Committee", "Journal file" and "Export": the contract is the law, and nothing is computed.
pub fn limits_are_those_of_the_formats()
    ensures entries { MOST_ENTRIES ≡ 4096 }
    ensures payload { LONGEST_PAYLOAD ≡ 65536 }
    ensures keys { MOST_KEYS ≡ 4 }
{}
