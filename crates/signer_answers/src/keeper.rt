//! Who puts down that a log was put back.

ghost use Rattle.std.specs.Prelude.{ℕ};
ghost use Rattle.blocks.specs.Headers.{Header as HeaderValue};
ghost use Rattle.certificates.specs.Certificates.{Certificate as CertificateValue};

use crate::approver::NoSuccessor;
use blocks::Header;
use certificates::Certificate;

/// Who puts down that a log was put back, so that a later start finds it.
pub trait Keeper {
    /// That `keep` was called for this. It alone ensures it.
    ghost kept: { Self → HeaderValue → CertificateValue → ℕ → Type 0 };

    /// The block of this header came with this certificate, which has a vote of the replica that its log, of so many entries,
    /// lacks. It is called once for all callers of a desk, before any of them is told. It must not ask `PutBack`, of which the
    /// lock is held.
    fn keep(&self, header: &Header, certificate: &Certificate, entries: usize)
        ensures { kept self.now header.now certificate.now entries };
}

impl Keeper for NoSuccessor {
    ghost kept = { λ _ _ _ _. Unit {0} };

    fn keep(&self, _header: &Header, _certificate: &Certificate, _entries: usize) {}
}
