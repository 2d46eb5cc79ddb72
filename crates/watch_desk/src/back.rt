//! Whether a source that went back gave all again that it had.

ghost use Rattle.std.specs.Prelude.{◌≡◌};
ghost use Rattle.watch_desk.specs.Backs.{back_after, back_at, back_then, both, is_all, longer};

use watch_report::lasts_back;

/// So many frames of a log of a source, from the first on.
#[derive(Clone, Copy, Debug, PartialEq, Eq)]
pub struct Extent {
    /// Which of its logs.
    pub log: usize,
    /// How many frames.
    pub frames: usize,
}

/// A source went back, and did not give all again that it had.
#[derive(Clone, Copy, Debug, PartialEq, Eq)]
pub struct Back {
    /// When it last did, in seconds since 1970.
    pub at: u64,
    /// What it had then, or more of the same log, if it went back before within the hour. None if that is not known, or if it went
    /// back from two logs: then no log begins with all that it had.
    pub had: Option<Extent>,
}

// The longer of two pieces of one log.
fn longer(a: Extent, b: Extent) -> Option<Extent>
    ensures { result ≡ longer a b }
{
    if a.log != b.log {
        return None;
    }
    if a.frames < b.frames {
        return Some(b);
    }
    Some(a)
}

fn both(a: Option<Extent>, b: Option<Extent>) -> Option<Extent>
    ensures { result ≡ both a b }
{
    match (a, b) {
        (Some(a), Some(b)) => longer(a, b),
        _ => None,
    }
}

/// It went back once more at this second, when it had this.
pub(crate) fn back_then(back: Option<Back>, second: u64, had: Option<Extent>) -> Back
    ensures { result ≡ back_then back second had }
{
    match back {
        Some(before) if lasts_back(before.at, second) => Back {
            at: second,
            had: both(before.had, had),
        },
        _ => Back { at: second, had },
    }
}

// Whether this is all that it had.
fn is_all(had: Option<Extent>, given: Extent) -> bool
    ensures { result ≡ is_all had given }
{
    match had {
        Some(had) => had.log == given.log && had.frames <= given.frames,
        None => false,
    }
}

/// It gives this of a log.
pub(crate) fn back_after(back: Option<Back>, given: Extent) -> Option<Back>
    ensures { result ≡ back_after back given }
{
    match back {
        Some(before) if is_all(before.had, given) => None,
        _ => back,
    }
}

/// When it last went back, or 0.
pub(crate) fn back_at(back: Option<Back>) -> u64
    ensures { result ≡ back_at back }
{
    match back {
        Some(back) => back.at,
        None => 0,
    }
}
