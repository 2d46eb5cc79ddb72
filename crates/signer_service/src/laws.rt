//! What the definitions of the metrics come to.

ghost use Rattle.signer_service.specs.Tallies.{EachIsCountedOnce};

/// Where a call is refused, the numbers tell one refused call more and as many answers; where a block or a timeout was answered, one
/// answer more and as many refused calls.
pub fn each_is_counted_once()
    ensures { EachIsCountedOnce }
{}
