//! A text, cut into its lines.

ghost use Rattle.std.specs.Prelude.{◌≡◌, ◌++◌, ◌∷◌, IfNone, IfSome};
ghost use Rattle.std.specs.List.{Contains};

/// What stands before the first line feed, and what stands behind it; none where there is no line feed.
pub fn cut(text: &[u8]) -> Option<(&[u8], &[u8])>
    ensures none { IfNone result (Contains text.now 10 → ⊥) }
    ensures some { IfSome result (λ parts. (text.now ≡ parts.0.now ++ 10 ∷ parts.1.now)
        × (Contains parts.0.now 10 → ⊥)) }
{
    let at = text.iter().position(|byte| *byte == b'\n')?;
    Some((&text[..at], &text[at + 1..]))
}
