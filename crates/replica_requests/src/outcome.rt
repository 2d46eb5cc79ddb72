//! What came of a request.

use blocks::HeaderRefusal;
use certificates::{BlockRefusal, CertificateRefusal};
use vote_desk::{DeskError, Reply};

/// What came of a request.
#[derive(Clone, Copy, Debug, PartialEq, Eq)]
pub enum Outcome {
    /// The desk took the block in.
    Replied(Reply),
    /// The desk gave up on all views up to this one.
    TimedOut(u64),
    /// The bytes do not begin with a header.
    RefusedHeader(HeaderRefusal),
    /// What stands behind the header is no certificate.
    RefusedCertificate(CertificateRefusal),
    /// The certificate is not a good one of the block's parent.
    RefusedBlock(BlockRefusal),
    /// The desk refused.
    RefusedByDesk(DeskError),
}
