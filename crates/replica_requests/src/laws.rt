//! What the definitions of lines and requests come to.

ghost use Rattle.replica_requests.specs.LineReading.{ATextHasOneReading};

/// Two lists of requests of one text are the same.
pub fn a_text_has_one_reading()
    ensures { ATextHasOneReading }
{}
