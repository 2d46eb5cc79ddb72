//! When a connection is over.

ghost use Rattle.std.specs.Prelude.{◌↔◌, IsTrue};
ghost use Rattle.base_sockets.specs.Bounding.{IsOver};

use crate::Standing;

/// How long a connection may take, in milliseconds.
#[derive(Clone, Copy, Debug, PartialEq, Eq)]
pub struct Bounds {
    /// Until its request is whole.
    pub asking: u32,
    /// While it takes nothing of an answer.
    pub answering: u32,
    /// In all.
    pub whole: u32,
}

/// Whether a connection has taken too long.
pub fn is_over(bounds: &Bounds, standing: &Standing) -> bool
    ensures { IsTrue result ↔ IsOver bounds.now standing.now }
{
    if standing.age > bounds.whole {
        return true;
    }
    if standing.is_asking {
        standing.age > bounds.asking
    } else {
        standing.idle > bounds.answering
    }
}
