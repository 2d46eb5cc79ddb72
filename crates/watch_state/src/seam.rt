//! Where a part of a log has to stand that is joined to those in front of it.

ghost use Rattle.std.specs.Prelude.{◌≡◌, ◌<◌, ◌↔◌, IsTrue};
ghost use Rattle.base_wire.specs.declared.limits.TheConstants.{MOST_ENTRIES};
ghost use Rattle.watch_state.specs.Joins.{seam_before, seam_then};

use crate::digest::{LogDigest, digest_then};
use crate::name::PartName;
use log_reading::FrameDigest;

/// Where the next part of a log has to stand.
#[derive(Clone, Copy, Debug, PartialEq, Eq)]
pub struct Seam {
    /// Which of the logs of its source it is.
    pub log: u16,
    /// How many frames of the log stand in front.
    pub place: u16,
    /// What those digest to.
    pub front: LogDigest,
}

impl Seam {
    /// In front of this part.
    pub fn before(part: &PartName) -> Seam
        ensures { result ≡ seam_before part.now }
    {
        Seam {
            log: part.log,
            place: part.place,
            front: part.front,
        }
    }

    /// Whether the part stands there.
    pub fn is_before(&self, part: &PartName) -> bool
        ensures { IsTrue result ↔ (self.now ≡ seam_before part.now) }
    {
        *self == Seam::before(part)
    }

    /// Goes on behind one frame more.
    pub fn pass(&mut self, frame: &FrameDigest)
        requires { self.old.place < MOST_ENTRIES }
        ensures { self.new ≡ seam_then self.old frame.now }
    {
        self.place += 1;
        self.front = digest_then(&self.front, frame);
    }
}
