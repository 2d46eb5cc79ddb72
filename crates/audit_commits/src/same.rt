//! Headers that are one.

ghost use Rattle.std.specs.Prelude.{◌≡◌, ◌↔◌, IsTrue};

use blocks::NamedHeader;

/// Whether they are one header.
pub fn are_same(a: &NamedHeader, b: &NamedHeader) -> bool
    ensures { IsTrue result ↔ (a.now ≡ b.now) }
{
    a == b
}
