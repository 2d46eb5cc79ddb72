//! Certificates.

ghost use Rattle.std.specs.Prelude.{◌≡◌, ◌≢◌, ◌+◌, ◌*◌, ◌<◌, ◌≤◌, ◌↔◌, ◌++◌, true, Ok, Err, IfOk, IfErr, IsOk, IsTrue, OnOk, length};
ghost use Rattle.std.specs.List.{All, AllPairs, flat_map};
ghost use Rattle.certificates.specs.CertificateReading.{certificate_in, certificate_refusal_number, entries_in, endorsement_at, has_count, is_rising, is_whole_certificate};
ghost use Rattle.certificates.specs.Certificates.{Certificate as CertificateValue, IsBefore, IsCertificate, IsEndorsement, certificate_text, nth_endorsement, endorsement_text, vote_of};
ghost use Rattle.certificates.specs.declared.certificate.CertificateRefusal.TheVariants.{Memory};
ghost use Rattle.certificates.specs.declared.certificate.TheConstants.{ENDORSEMENT_LEN};

use crate::vote::SignedVote;
use base_wire::{array_at, u16_at, u64_at};
use blocks::{Ballot, Id};
use lms_tree::{SIGNATURE_LEN, Signature};
use std::alloc::{AllocError, AllocFailed, Global};
use std::marker::Model;

/// The length in bytes of what stands before the entries: the view, the id and the count.
pub const CERTIFICATE_HEAD_LEN: usize = 8 + 32 + 2;

/// The length of an entry in bytes: the number of a replica, that of its key, and a signature.
pub const ENDORSEMENT_LEN: usize = 2 + 1 + SIGNATURE_LEN;

/// The greatest number of entries, one for each replica of the greatest committee.
pub const MOST_ENDORSEMENTS: u16 = 31;

/// The greatest length of a certificate in bytes.
pub const LONGEST_CERTIFICATE: usize = CERTIFICATE_HEAD_LEN
    + ENDORSEMENT_LEN * MOST_ENDORSEMENTS as usize;

/// A replica, one of its keys and the signature under that key, in a certificate.
#[derive(Clone, Copy, Debug)]
pub struct Endorsement {
    /// The number of the replica in its committee, from 0.
    pub replica: u16,
    /// The number of the replica's key that signed, from 0.
    pub key: u8,
    /// The LMS signature of the statement under that key (RFC 8554, section 5.4).
    pub signature: Signature,
}

/// Signatures of replicas on one view and id, by rising replica: 1 to 31 of them in a view above 0, none in
/// view 0. Made by `Certificate::read` and `assemble` alone. No signature is checked before `check_block`.
#[derive(Drop)]
pub struct Certificate {
    view: u64,
    id: Id,
    entries: Vec<Endorsement>,
}

impl Model for Certificate {
    ghost use Rattle.certificates.specs.Certificates.{Certificate as CertificateValue, IsCertificate};

    ghost Value = { CertificateValue };

    ghost view = { λ c. record { view = c.view; id = c.id; entries = c.entries.items } };

    ghost invariant = { λ c. IsCertificate (record {
      view = c.view;
      id = c.id;
      entries = c.entries.items;
    }) };
}

/// Why bytes are no certificate, in the order of the tests.
#[derive(Clone, Copy, Debug, PartialEq, Eq)]
pub enum CertificateRefusal {
    /// Memory was refused.
    Memory = 1,
    /// There are fewer than `CERTIFICATE_HEAD_LEN` bytes, or not these and `ENDORSEMENT_LEN` for each entry.
    Length = 2,
    /// The numbers of the replicas do not rise.
    Order = 3,
    /// There are more than 31 entries, or none with a view above 0, or some with view 0.
    Count = 4,
}

impl CertificateRefusal {
    /// The number of the refusal, which never changes.
    pub fn number(self) -> u8
        ensures { result ≡ certificate_refusal_number self }
    {
        self as u8
    }
}

impl From<AllocError> for CertificateRefusal {
    ghost from_gives = { λ _ refusal. refusal ≡ Memory };

    fn from(_refused: AllocError) -> CertificateRefusal {
        CertificateRefusal::Memory
    }
}

impl<T: Drop> From<AllocFailed<T>> for CertificateRefusal {
    ghost from_gives = { λ _ refusal. refusal ≡ Memory };

    fn from(_refused: AllocFailed<T>) -> CertificateRefusal {
        CertificateRefusal::Memory
    }
}

// Entry k at its place.
#[tactic(auto, unfolding(crate::specs::CertificateReading::endorsement_at))]
fn endorsement_at(bytes: &[u8], k: u16) -> Endorsement
    requires { 42 + ENDORSEMENT_LEN * (k + 1) ≤ length bytes.now }
    ensures { result ≡ endorsement_at bytes.now k }
{
    let at = CERTIFICATE_HEAD_LEN + ENDORSEMENT_LEN * k as usize;
    Endorsement {
        replica: u16_at(bytes, at),
        key: bytes[at + 2],
        signature: array_at(bytes, at + 3),
    }
}

// The first entries, `count` of them.
#[tactic(auto, using(crate::proofs::Entries::entries_none, crate::proofs::Entries::entries_more))]
fn entries_in(
    alloc: Global,
    bytes: &[u8],
    count: u16,
) -> Result<Vec<Endorsement>, CertificateRefusal>
    requires { length bytes.now ≡ 42 + ENDORSEMENT_LEN * count }
    ensures ok { IfOk result (λ entries. entries.items ≡ entries_in bytes.now count) }
    ensures err { IfErr result (λ refusal. refusal ≡ CertificateRefusal.Memory) }
{
    let mut entries = Vec::with_capacity(alloc, usize::from(count))?;
    for k in 0..count {
        entries.push(endorsement_at(bytes, k))?;
    }
    Ok(entries)
}

/// Whether the bytes are as many as a certificate has of as many entries as they name. Neither the order of its
/// replicas nor its count is looked at.
pub fn is_whole_certificate(bytes: &[u8]) -> bool
    ensures value { result ≡ is_whole_certificate bytes.now }
    ensures long { IsTrue result → 42 ≤ length bytes.now }
{
    if bytes.len() < CERTIFICATE_HEAD_LEN {
        return false;
    }
    bytes.len() == CERTIFICATE_HEAD_LEN + ENDORSEMENT_LEN * u16_at(bytes, 40) as usize
}

// The number of the replica of entry k.
#[tactic(auto, unfolding(crate::specs::CertificateReading::endorsement_at))]
fn replica_at(bytes: &[u8], k: u16) -> u16
    requires { 42 + ENDORSEMENT_LEN * (k + 1) ≤ length bytes.now }
    ensures { result ≡ (endorsement_at bytes.now k).replica }
{
    u16_at(bytes, CERTIFICATE_HEAD_LEN + ENDORSEMENT_LEN * k as usize)
}

// Whether the numbers of the replicas rise in the bytes of so many entries.
fn is_rising_in(bytes: &[u8], count: u16) -> bool
    requires { length bytes.now ≡ 42 + ENDORSEMENT_LEN * count }
    ensures { result ≡ is_rising (entries_in bytes.now count) }
{
    let mut least = 0;
    for k in 0..count {
        let replica = replica_at(bytes, k) as u32;
        if replica < least {
            return false;
        }
        least = replica + 1;
    }
    true
}

// Whether a certificate of this view may have so many entries.
fn has_count(view: u64, count: u16) -> bool
    ensures { result ≡ has_count view count }
{
    if view == 0 {
        count == 0
    } else {
        0 < count && count <= MOST_ENDORSEMENTS
    }
}

// Adds an entry to the text.
fn put_entry(text: &mut Vec<u8>, e: &Endorsement) -> Result<(), AllocError>
    ensures { OnOk result (text.new.items ≡ text.old.items ++ endorsement_text e.now) }
{
    text.extend_from_slice(&e.replica.to_be_bytes())?;
    text.push(e.key)?;
    text.extend_from_slice(&e.signature)?;
    Ok(())
}

// Adds each entry to the text.
fn put_entries(text: &mut Vec<u8>, entries: &[Endorsement]) -> Result<(), AllocError>
    ensures { OnOk result (text.new.items ≡ text.old.items
        ++ flat_map endorsement_text entries.now) }
{
    for e in entries {
        put_entry(text, e)?;
    }
    Ok(())
}

impl Certificate {
    // The certificate of these parts.
    pub(crate) fn of(view: u64, id: Id, entries: Vec<Endorsement>) -> Certificate
        requires each { All IsEndorsement entries.items }
        requires rising { AllPairs IsBefore entries.items }
        requires most { length entries.items ≤ 31 }
        requires none { (length entries.items ≡ 0) ↔ (view ≡ 0) }
        ensures { result ≡ record { view = view; id = id; entries = entries.items } }
    {
        Certificate { view, id, entries }
    }

    /// The certificate that the bytes spell: the view (8 bytes at 0), the id (32 at 8), the number of
    /// entries (2 at 40), and for each entry the number of its replica (2), that of its key (1) and its
    /// signature, numbers with the highest byte first. Any number of a key is read. Refused in this
    /// order: Memory, where memory for the entries of a text of whole length was refused, Length, Order, Count.
    pub fn read(alloc: Global, bytes: &[u8]) -> Result<Certificate, CertificateRefusal>
        // What is read is spelled so.
        ensures found { IfOk result (λ c. IsCertificate c × (bytes.now ≡ certificate_text c)) }

        // What is spelled so is read, unless memory is refused.
        ensures only { (c : CertificateValue) → IsCertificate c → bytes.now ≡ certificate_text c
            → result ≢ Err CertificateRefusal.Memory → result ≡ Ok c }

        // The first test that fails refuses, unless memory is refused.
        ensures first_refusal { result ≢ Err CertificateRefusal.Memory
            → result ≡ certificate_in bytes.now }
        // Nothing is copied before the bytes passed each test.
        ensures memory { result ≡ Err CertificateRefusal.Memory → IsOk (certificate_in bytes.now) }
    {
        Certificate::read_all(alloc, bytes)
    }

    #[tactic(auto, unfolding(crate::specs::CertificateReading::certificate_in))]
    fn read_all(alloc: Global, bytes: &[u8]) -> Result<Certificate, CertificateRefusal>
        ensures value { result ≢ Err CertificateRefusal.Memory → result ≡ certificate_in bytes.now }
        ensures memory { result ≡ Err CertificateRefusal.Memory → IsOk (certificate_in bytes.now) }
    {
        if !is_whole_certificate(bytes) {
            return Err(CertificateRefusal::Length);
        }
        let view = u64_at(bytes, 0);
        let count = u16_at(bytes, 40);
        if !is_rising_in(bytes, count) {
            return Err(CertificateRefusal::Order);
        }
        if !has_count(view, count) {
            return Err(CertificateRefusal::Count);
        }
        let entries = entries_in(alloc, bytes, count)?;
        Ok(Certificate {
            view,
            id: array_at(bytes, 8),
            entries,
        })
    }

    /// The bytes of the certificate, `CERTIFICATE_HEAD_LEN` and `ENDORSEMENT_LEN` for each entry.
    #[tactic(auto, unfolding(crate::specs::Certificates::certificate_text))]
    pub fn write(&self, alloc: Global) -> Result<Vec<u8>, AllocError>
        ensures text { IfOk result (λ text. text.items ≡ certificate_text self.now) }
        ensures is_certificate { IsCertificate self.now }
    {
        let mut text = Vec::new(alloc);
        text.extend_from_slice(&self.view.to_be_bytes())?;
        text.extend_from_slice(&self.id)?;
        text.extend_from_slice(&(self.entries.len() as u16).to_be_bytes())?;
        put_entries(&mut text, &self.entries)?;
        Ok(text)
    }

    /// The view of the block that the votes are for.
    pub fn view(&self) -> u64
        ensures { result ≡ self.now.view }
    {
        self.view
    }

    /// The id of that block.
    pub fn id(&self) -> &Id
        ensures { result.now ≡ self.now.id }
    {
        &self.id
    }

    /// The view and the id together.
    pub fn ballot(&self) -> Ballot
        ensures { result ≡ record { view = self.now.view; id = self.now.id } }
    {
        Ballot {
            view: self.view,
            id: self.id,
        }
    }

    /// The number of votes, 0 to 31.
    pub fn count(&self) -> usize
        ensures value { result ≡ length self.now.entries }
        ensures is_certificate { IsCertificate self.now }
    {
        self.entries.len()
    }

    /// Vote `k`, counted from 0, which must be below `count`.
    pub fn vote(&self, k: usize) -> SignedVote
        requires { k < length self.now.entries }
        ensures { result ≡ vote_of self.now (nth_endorsement self.now k) }
    {
        let entry = &self.entries[k];
        SignedVote {
            replica: entry.replica,
            view: self.view,
            id: self.id,
            key: entry.key,
            signature: entry.signature,
        }
    }

    /// Whether vote `k`, counted from 0, which must be below `count`, is this one. It is compared in place.
    pub fn vote_is(&self, k: usize, vote: &SignedVote) -> bool
        requires { k < length self.now.entries }
        ensures { IsTrue result ↔ (vote.now ≡ vote_of self.now (nth_endorsement self.now k)) }
    {
        let entry = &self.entries[k];
        entry.replica == vote.replica
            && self.view == vote.view
            && self.id == vote.id
            && entry.key == vote.key
            && entry.signature == vote.signature
    }

    // The votes as they are kept.
    pub(crate) fn entries(&self) -> &[Endorsement]
        ensures value { result.now ≡ self.now.entries }
        ensures is_certificate { IsCertificate self.now }
    {
        &self.entries
    }
}
