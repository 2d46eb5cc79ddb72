//! Which connection gives way to a new one where no more are kept.

ghost use Rattle.std.specs.Prelude.{◌≡◌};
ghost use Rattle.base_sockets.specs.GivingWay.{IsFirstToGo, claim};

use crate::Standing;

/// Up to which age a connection keeps its place, however little it did, in milliseconds.
pub const YOUNG_MILLISECONDS: u32 = 2_000;

/// What one counts that gives way to nobody.
const STAYS: u64 = u64::MAX;

/// More than any count of bytes a second.
const BEHIND_ALL_OLD: u64 = 1 << 63;

// How strong a connection's claim to its place is, against a new one that is the nth of its address.
fn claim(standing: &Standing, nth: u32) -> u64
    ensures { result ≡ claim nth standing.now }
{
    if standing.age > YOUNG_MILLISECONDS {
        standing.rate()
    } else if standing.nth > nth {
        BEHIND_ALL_OLD - u64::from(standing.nth)
    } else {
        STAYS
    }
}

/// The place of the connection that gives way to a new one, which is the nth of its address: of those older than two seconds the one
/// that sent and took the fewest bytes a second. Where none is, the one whose address had the most connections when it came, if those
/// were more than n. The first, where several are alike. None: the new one has to go.
pub fn gives_way(all: &[Standing], nth: u32) -> Option<usize>
    ensures { IsFirstToGo nth all.now result }
{
    let mut least = STAYS;
    let mut place = None;
    for (i, standing) in all.iter().enumerate() {
        let claim = claim(standing, nth);
        if claim < least {
            least = claim;
            place = Some(i);
        }
    }
    place
}
