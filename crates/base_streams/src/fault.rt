//! Failed calls.

/// A call of a device that failed. The device has counted it.
#[derive(Clone, Copy, Debug, PartialEq, Eq)]
pub struct Fault;
