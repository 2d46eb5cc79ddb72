//! Where a scenario says that it is set up.

use base_streams::{Sink, write_all};

/// Says that all is made that the scenario's calls are made on. `trials/refuse.c` counts the requests for memory from here
/// on.
pub(crate) fn announce<W: Sink>(out: &mut W) {
    let _ = write_all(out, b"set up\n");
}
