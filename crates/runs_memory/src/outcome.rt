//! What comes of a scenario.

/// What came of a scenario.
#[derive(Clone, Copy, PartialEq, Eq)]
pub(crate) enum Outcome {
    /// What ample memory answers.
    Ample,
    /// A call answered that memory was refused, and all that must hold then holds.
    Memory,
    /// A disk was refused memory and failed, and all that must hold then holds.
    Device,
    /// The scenario was refused memory before its first call.
    NotSetUp,
    /// Anything else.
    Wrong,
}

impl Outcome {
    /// Its word, and the end of the line.
    pub fn line(self) -> &'static [u8] {
        match self {
            Outcome::Ample => b"ample\n",
            Outcome::Memory => b"memory\n",
            Outcome::Device => b"device\n",
            Outcome::NotSetUp => b"not set up\n",
            Outcome::Wrong => b"WRONG\n",
        }
    }

    /// What came of two parts: the first that is not ample.
    pub fn and(self, next: Outcome) -> Outcome {
        if self == Outcome::Ample { next } else { self }
    }

    /// Ample or wrong.
    pub fn ample_if(is_as_wanted: bool) -> Outcome {
        if is_as_wanted {
            Outcome::Ample
        } else {
            Outcome::Wrong
        }
    }

    /// This outcome, if what must hold then holds.
    pub fn if_so(self, holds: bool) -> Outcome {
        if holds { self } else { Outcome::Wrong }
    }
}
