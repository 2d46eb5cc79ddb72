//! Whether words ask a program what it is.

ghost use Rattle.std.specs.Prelude.{◌≡◌, ◌↔◌, ◌∷◌, [], IfSome, IsNone, IsTrue};
ghost use Rattle.program_help.specs.Helps.{texts, word_of};
ghost use Rattle.program_help.specs.declared.asking.Asked.{Asked as AskedValue};

/// What a program is asked.
#[derive(Clone, Copy, Debug, PartialEq, Eq)]
pub enum Asked {
    /// How it is called: `--help`.
    Help,
    /// Its version: `--version`.
    Version,
}

/// What the words ask, which are one option alone.
pub fn asked_in(words: &[String]) -> Option<Asked>
    ensures some { IfSome result (λ asked. texts words.now ≡ word_of asked ∷ []) }
    ensures none { IsNone result → (asked : AskedValue) → texts words.now ≡ word_of asked ∷ [] → ⊥ }
{
    if are_alone(words, "--help") {
        return Some(Asked::Help);
    }
    if are_alone(words, "--version") {
        return Some(Asked::Version);
    }
    None
}

// Whether the words are this one alone.
fn are_alone(words: &[String], option: &str) -> bool
    ensures { IsTrue result ↔ (texts words.now ≡ option.now ∷ []) }
{
    match words {
        [word] => word.as_str() == option,
        _ => false,
    }
}
