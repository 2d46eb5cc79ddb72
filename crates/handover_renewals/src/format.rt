//! Renewals and their bytes.

ghost use Rattle.std.specs.Prelude.{◌≡◌, ◌≢◌, ◌≤◌, Ok, Err, IfOk, IsOk, length};
ghost use Rattle.handover_renewals.specs.RenewalReading.{form_refusal_name, form_refusal_number, of_form, renewal_in};
ghost use Rattle.handover_renewals.specs.Renewals.{Renewal as RenewalValue, IsRenewal, renewal_text};

use base_wire::{append, array_at, u64_at};
use blocks::Id;
use certificates::{CERTIFICATE_HEAD_LEN, Certificate, CertificateRefusal};
use std::alloc::{AllocError, Global};
use std::marker::Model;

/// The length in bytes of what stands before the certificate: the magic and the chain id.
pub const RENEWAL_HEAD_LEN: usize = 4 + 32;

// The length of the shortest text whose view and number of signatures are there.
const LEAST_LEN: usize = RENEWAL_HEAD_LEN + CERTIFICATE_HEAD_LEN;

// The view of the certificate of a renewal.
const RENEWAL_VIEW: u64 = 1;

/// Why bytes are no renewal, in the order of the tests.
#[derive(Clone, Copy, Debug, PartialEq, Eq)]
pub enum RenewalFormRefusal {
    /// Memory was refused.
    Memory = 1,
    /// There are fewer than 78 bytes.
    Short = 2,
    /// They do not begin with `HSR1`.
    Magic = 3,
    /// The number at 36 is not 1.
    View = 4,
    /// They are not 78 and 1,455 for each signature.
    Length = 5,
    /// The numbers of the replicas do not rise.
    Order = 6,
    /// There are no signatures, or more than 31.
    Count = 7,
}

impl RenewalFormRefusal {
    /// The number of the refusal, which never changes.
    pub fn number(self) -> u8
        ensures { result ≡ form_refusal_number self }
    {
        self as u8
    }

    /// Its name, as it is printed.
    pub fn name(self) -> &'static str
        ensures name { result.now ≡ form_refusal_name self }
        ensures short { length result.now ≤ 6 }
    {
        match self {
            RenewalFormRefusal::Memory => "Memory",
            RenewalFormRefusal::Short => "Short",
            RenewalFormRefusal::Magic => "Magic",
            RenewalFormRefusal::View => "View",
            RenewalFormRefusal::Length => "Length",
            RenewalFormRefusal::Order => "Order",
            RenewalFormRefusal::Count => "Count",
        }
    }
}

impl From<CertificateRefusal> for RenewalFormRefusal {
    ghost from_gives = { λ refusal r. r ≡ of_form refusal };

    fn from(refusal: CertificateRefusal) -> RenewalFormRefusal {
        match refusal {
            CertificateRefusal::Memory => RenewalFormRefusal::Memory,
            CertificateRefusal::Length => RenewalFormRefusal::Length,
            CertificateRefusal::Order => RenewalFormRefusal::Order,
            CertificateRefusal::Count => RenewalFormRefusal::Count,
        }
    }
}

/// Signatures of replicas of a committee, by rising replica, 1 to 31 of them, each of a statement of next keys, by which a committee is
/// to renew it. Made by `Renewal::read` alone. No signature is checked before `renews`.
#[derive(Drop)]
pub struct Renewal {
    chain: Id,
    certificate: Certificate,
}

impl Model for Renewal {
    ghost use Rattle.handover_renewals.specs.Renewals.{Renewal as RenewalValue, IsRenewal};

    ghost Value = { RenewalValue };

    ghost view = { λ r. record { chain = r.chain; certificate = r.certificate } };

    ghost invariant = { λ r. IsRenewal (record { chain = r.chain; certificate = r.certificate }) };
}

impl Renewal {
    /// The renewal that the bytes spell: `HSR1`, the chain id of the committee before (32 bytes at 4), and from 36 on a certificate
    /// of view 1 with the SHA-256 digest of the next committee's file as its id: the view (8), the digest (32), the number of
    /// signatures (2), and for each the number of its replica (2), that of its key (1) and itself (1,452), numbers with the highest
    /// byte first. Any number of a key is read. Refused in this order: Memory, where memory for the signatures of a text that passes
    /// each test was refused, Short, Magic, View, Length, Order, Count.
    pub fn read(alloc: Global, bytes: &[u8]) -> Result<Renewal, RenewalFormRefusal>
        // What is read is spelled so.
        ensures found { IfOk result (λ r. IsRenewal r × (bytes.now ≡ renewal_text r)) }

        // What is spelled so is read, unless memory is refused.
        ensures only { (r : RenewalValue) → IsRenewal r → bytes.now ≡ renewal_text r
            → result ≢ Err RenewalFormRefusal.Memory → result ≡ Ok r }

        // The first test that fails refuses, unless memory is refused.
        ensures first_refusal { result ≢ Err RenewalFormRefusal.Memory
            → result ≡ renewal_in bytes.now }
        // Nothing is copied before the bytes passed each test.
        ensures memory { result ≡ Err RenewalFormRefusal.Memory → IsOk (renewal_in bytes.now) }
    {
        Renewal::read_all(alloc, bytes)
    }

    #[tactic(auto, unfolding(crate::specs::RenewalReading::renewal_in))]
    fn read_all(alloc: Global, bytes: &[u8]) -> Result<Renewal, RenewalFormRefusal>
        ensures value { result ≢ Err RenewalFormRefusal.Memory → result ≡ renewal_in bytes.now }
        ensures memory { result ≡ Err RenewalFormRefusal.Memory → IsOk (renewal_in bytes.now) }
    {
        if bytes.len() < LEAST_LEN {
            return Err(RenewalFormRefusal::Short);
        }
        if !bytes.starts_with(b"HSR1") {
            return Err(RenewalFormRefusal::Magic);
        }
        if u64_at(bytes, RENEWAL_HEAD_LEN) != RENEWAL_VIEW {
            return Err(RenewalFormRefusal::View);
        }
        let certificate = Certificate::read(alloc, &bytes[RENEWAL_HEAD_LEN..])?;
        Ok(Renewal {
            chain: array_at(bytes, 4),
            certificate,
        })
    }

    /// The bytes of the renewal, 36 and those of its certificate.
    #[tactic(auto, unfolding(crate::specs::Renewals::renewal_text))]
    pub fn write(&self, alloc: Global) -> Result<Vec<u8>, AllocError>
        ensures text { IfOk result (λ text. text.items ≡ renewal_text self.now) }
        ensures is_renewal { IsRenewal self.now }
    {
        let certificate = self.certificate.write(alloc)?;
        let mut text = Vec::with_capacity(alloc, RENEWAL_HEAD_LEN + certificate.len())?;
        append(&mut text, b"HSR1")?;
        append(&mut text, &self.chain)?;
        append(&mut text, &certificate)?;
        Ok(text)
    }

    /// The chain id of the committee before.
    pub fn chain(&self) -> &Id
        ensures { result.now ≡ self.now.chain }
    {
        &self.chain
    }

    /// The SHA-256 digest of the next committee's file.
    pub fn file(&self) -> &Id
        ensures { result.now ≡ self.now.certificate.id }
    {
        self.certificate.id()
    }

    /// The signatures, as the votes of a certificate.
    pub fn certificate(&self) -> &Certificate
        ensures value { result.now ≡ self.now.certificate }
        ensures is_renewal { IsRenewal self.now }
    {
        &self.certificate
    }
}
