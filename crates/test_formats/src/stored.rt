//! What the tests share, over bytes of an independent program.

use certificates::{Certificate, CommitteeView};
use std::alloc::Global;
use std::test::Fail;
use test_fixtures::{certificates as texts, verdicts};

/// The length in bytes of a certificate before its entries.
pub const HEAD: usize = 42;

/// The length in bytes of an entry.
pub const ENTRY: usize = 1455;

/// The stored committee.
pub fn committee() -> Result<CommitteeView<'static>, Fail> {
    let committee = CommitteeView::parse(verdicts::committee()).ok();
    Ok(committee.ok_or("the committee is refused")?)
}

/// The certificate that the bytes spell.
pub fn certificate(alloc: Global, bytes: &[u8]) -> Result<Certificate, Fail> {
    let certificate = Certificate::read(alloc, bytes).ok();
    Ok(certificate.ok_or("the certificate is refused")?)
}

/// The certificate of A1 with this byte at a place.
pub fn with_byte(alloc: Global, at: usize, byte: u8) -> Result<Vec<u8>, Fail> {
    let mut bytes = texts::of_a1().to_vec(alloc)?;
    *bytes.get_mut(at).ok_or("no such byte")? = byte;
    Ok(bytes)
}

/// The entries at these places of the certificate of A1, under a head that names as many.
pub fn with_entries(alloc: Global, places: &[usize]) -> Result<Vec<u8>, Fail> {
    entries_of(alloc, texts::of_a1(), places)
}

/// The entries at these places of a certificate, under a head that names as many.
pub fn entries_of(alloc: Global, from: &[u8], places: &[usize]) -> Result<Vec<u8>, Fail> {
    let mut bytes = from.get(..HEAD).ok_or("too short")?.to_vec(alloc)?;
    for k in places {
        let entry = from.get(HEAD + ENTRY * (*k % 32)..).ok_or("no such entry")?;
        bytes.extend_from_slice(entry.get(..ENTRY).ok_or("no such entry")?)?;
    }
    *bytes.get_mut(41).ok_or("no count")? = (places.len() % 256) as u8;
    Ok(bytes)
}
