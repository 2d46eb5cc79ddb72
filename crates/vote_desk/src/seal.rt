//! What a replica's key signs beside votes.

use lms_tree::Signature;

/// The signature of a statement by one of the replica's keys. The index that it was made under is used up on the disk before this
/// value exists.
#[derive(Clone, Copy, Debug, PartialEq, Eq)]
pub struct Seal {
    /// The number of the key, from 0.
    pub key: u8,
    /// The signature.
    pub signature: Signature,
}
