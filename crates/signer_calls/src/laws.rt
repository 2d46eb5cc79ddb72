//! What the definitions of calls come to.

ghost use Rattle.signer_calls.specs.Asking.{ARequestHasOneReading};
ghost use Rattle.signer_calls.specs.OverBodies.{ACommitteesFileIsReadAsOne};

/// Two readings of one request are the same.
pub fn a_request_has_one_reading()
    ensures { ARequestHasOneReading }
{}

/// A call to go over that has a renewal and a committee's file is not read as one with a light proof.
pub fn a_committees_file_is_read_as_one()
    ensures { ACommitteesFileIsReadAsOne }
{}
