//! What a replica is asked for.

ghost use Rattle.std.specs.Prelude.{◌≡◌, ◌≢◌, IfOk};
ghost use Rattle.replica_requests.specs.Requests.{IsOfBlock};

use blocks::{HEADER_LEN, Header, HeaderRefusal};
use certificates::{Certificate, CertificateRefusal};
use std::alloc::{AllocError, Global};

/// What a replica is asked for.
#[derive(Drop)]
pub enum Request {
    /// To deliver this block: its header, and the certificate of its parent.
    Block(Header, Certificate),
    /// To give up on all views up to this one.
    Timeout(u64),
    /// A block whose first 84 bytes are no header, or all of them where there are fewer.
    RefusedHeader(HeaderRefusal),
    /// A block whose bytes behind the header are no certificate. It is not for want of memory.
    RefusedCertificate(CertificateRefusal),
}

/// To deliver the block whose header and certificate the bytes spell, one behind the other, or what is refused of them.
pub fn block_in(alloc: Global, bytes: &[u8]) -> Result<Request, AllocError>
    ensures { IfOk result (λ request. IsOfBlock bytes.now request) }
{
    let (head, rest) = bytes.split_at(HEADER_LEN.min(bytes.len()));
    let header = match Header::from_bytes(head) {
        Ok(header) => header,
        Err(refusal) => return Ok(Request::RefusedHeader(refusal)),
    };
    match Certificate::read(alloc, rest) {
        Ok(certificate) => Ok(Request::Block(header, certificate)),
        Err(refusal) => refused_certificate(refusal),
    }
}

// The refusal, unless it is for want of memory.
fn refused_certificate(refusal: CertificateRefusal) -> Result<Request, AllocError>
    ensures { IfOk result (λ request. (request ≡ Request.RefusedCertificate refusal)
        × (refusal ≢ CertificateRefusal.Memory)) }
{
    match refusal {
        CertificateRefusal::Memory => Err(AllocError),
        _ => Ok(Request::RefusedCertificate(refusal)),
    }
}
