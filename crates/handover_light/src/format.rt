//! Light proofs and their bytes.

ghost use Rattle.std.specs.Prelude.{◌≡◌, ◌≢◌, ◌<◌, ◌⊎◌, ◌≤◌, ◌+◌, ◌*◌, ◌++◌, None, Some, Ok, Err, true, false, IfErr, IfOk, IfSome, IsSome, IsTrue, MatchOption, OnOk, length, ◌↔◌};
ghost use Rattle.std.specs.List.{All, flat_map};
ghost use Rattle.base_wire.specs.Refusals.{first_of};
ghost use Rattle.blocks.specs.HeaderReading.{header_at, header_in};
ghost use Rattle.blocks.specs.Headers.{IsHeader, header_text};
ghost use Rattle.certificates.specs.CertificateReading.{certificate_in};
ghost use Rattle.certificates.specs.Certificates.{IsCertificate};
ghost use Rattle.handover_light.specs.LightProofReading.{IsMeasured, bad_header, certificate_as, certificate_end, count_in, first_place, form_refusal_name, form_refusal_number, has_head, header_piece, headers_in, is_whole, light_proof_in, second_place, third_place};
ghost use Rattle.handover_light.specs.LightProofs.{LightProof as LightProofValue, HasNumber, IsLightProof, light_proof_text};
ghost use Rattle.handover_light.specs.Places.{ArePlaces};
ghost use Rattle.handover_light.specs.declared.format.LightProofFormRefusal.TheVariants.{Memory};
ghost use Rattle.handover_light.specs.Proving.{handover_block, nth_certificate, nth_header};

use base_wire::{append, u16_at, u32_at};
use blocks::{HEADER_LEN, Header};
use certificates::{CERTIFICATE_HEAD_LEN, Certificate, CertificateRefusal, ENDORSEMENT_LEN};
use std::alloc::{AllocError, AllocFailed, Global};
use std::marker::Model;

/// The length in bytes of what stands before the headers: the magic and the number of headers after the first.
pub const LIGHT_PROOF_HEAD_LEN: usize = 4 + 4;

/// The least number of headers after the first: the last three are in views in a row.
pub const LEAST_NUMBER: u32 = 2;

/// The greatest number of headers after the first: as many as a replica's log has entries.
pub const MOST_NUMBER: u32 = 4096;

// The least and the greatest number of headers.
const LEAST_HEADERS: usize = LEAST_NUMBER as usize + 1;

const MOST_HEADERS: usize = MOST_NUMBER as usize + 1;

/// Why bytes are no light proof, in the order of the tests.
#[derive(Clone, Copy, Debug, PartialEq, Eq)]
pub enum LightProofFormRefusal {
    /// 1: memory was refused.
    Memory,
    /// 2: there are fewer than 8 bytes.
    Short,
    /// 3: they do not begin with `HSH1`.
    Magic,
    /// 4: the number at 4 is not 2 to 4,096.
    Number,
    /// 5: they are not as many as this number of headers and the three certificates ask for.
    Length,
    /// 6: this header, counted from 0, is none, and it is the least such header.
    Header(u16),
    /// 7: the numbers of the replicas of this certificate, counted from 0, do not rise; the ones before have the form.
    Order(u8),
    /// 8: this certificate, counted from 0, has more than 31 entries, or none with a view above 0, or some with view 0; the ones
    /// before have the form.
    Count(u8),
}

impl LightProofFormRefusal {
    /// The number of the refusal, which never changes.
    pub fn number(self) -> u8
        ensures { result ≡ form_refusal_number self }
    {
        match self {
            LightProofFormRefusal::Memory => 1,
            LightProofFormRefusal::Short => 2,
            LightProofFormRefusal::Magic => 3,
            LightProofFormRefusal::Number => 4,
            LightProofFormRefusal::Length => 5,
            LightProofFormRefusal::Header(_) => 6,
            LightProofFormRefusal::Order(_) => 7,
            LightProofFormRefusal::Count(_) => 8,
        }
    }

    /// Its name, as it is printed.
    pub fn name(self) -> &'static str
        ensures { result.now ≡ form_refusal_name self }
    {
        match self {
            LightProofFormRefusal::Memory => "Memory",
            LightProofFormRefusal::Short => "Short",
            LightProofFormRefusal::Magic => "Magic",
            LightProofFormRefusal::Number => "Number",
            LightProofFormRefusal::Length => "Length",
            LightProofFormRefusal::Header(_) => "Header",
            LightProofFormRefusal::Order(_) => "Order",
            LightProofFormRefusal::Count(_) => "Count",
        }
    }
}

impl From<AllocError> for LightProofFormRefusal {
    ghost from_gives = { λ _ refusal. refusal ≡ Memory };

    fn from(_refused: AllocError) -> LightProofFormRefusal {
        LightProofFormRefusal::Memory
    }
}

impl<T: Drop> From<AllocFailed<T>> for LightProofFormRefusal {
    ghost from_gives = { λ _ refusal. refusal ≡ Memory };

    fn from(_refused: AllocFailed<T>) -> LightProofFormRefusal {
        LightProofFormRefusal::Memory
    }
}

/// Headers of 3 to 4,097 blocks, and certificates. Made by `LightProof::read` and `LightProof::of` alone. Nothing of them is checked
/// before `check_light_proof`.
#[derive(Drop)]
pub struct LightProof {
    headers: Vec<Header>,
    committed: Certificate,
    second: Certificate,
    third: Certificate,
}

impl Model for LightProof {
    ghost use Rattle.handover_light.specs.LightProofs.{LightProof as LightProofValue, IsLightProof};

    ghost Value = { LightProofValue };

    ghost view = { λ p. record {
      headers = p.headers.items;
      committed = p.committed;
      second = p.second;
      third = p.third;
    } };

    ghost invariant = { λ p. IsLightProof (record {
      headers = p.headers.items;
      committed = p.committed;
      second = p.second;
      third = p.third;
    }) };
}

// What the tests of lengths find: how many headers there are, and where the certificates begin.
#[derive(Clone, Copy)]
struct Places {
    count: u16,
    first: usize,
    second: usize,
    third: usize,
}

// Whether what stands before the entries of a certificate is there.
fn has_head(bytes: &[u8], at: usize) -> bool
    ensures value { result ≡ has_head bytes.now at }
    ensures room { IsTrue result → at + 42 ≤ length bytes.now }
{
    at <= bytes.len() && CERTIFICATE_HEAD_LEN <= bytes.len() - at
}

// Where the certificate ends that begins at `at`, by the number of entries that it names.
#[tactic(auto, unfolding(crate::specs::LightProofReading::certificate_end))]
fn certificate_end(bytes: &[u8], at: usize) -> usize
    requires { at + 42 ≤ length bytes.now }
    ensures value { result ≡ certificate_end bytes.now at }
    ensures after { at + 42 ≤ result }
{
    at + CERTIFICATE_HEAD_LEN + ENDORSEMENT_LEN * usize::from(u16_at(bytes, at + 40))
}

// Where the certificates begin, behind so many headers, if they end with the bytes.
#[tactic(auto, unfolding(crate::specs::LightProofReading::is_whole, crate::specs::LightProofReading::first_place, crate::specs::LightProofReading::second_place, crate::specs::LightProofReading::third_place))]
fn certificate_places(bytes: &[u8], count: u16) -> Option<Places>
    requires { count ≡ count_in bytes.now }
    ensures { MatchOption result (is_whole bytes.now ≡ false) (λ p.
        (is_whole bytes.now ≡ true) × ArePlaces bytes.now p) }
{
    let first = LIGHT_PROOF_HEAD_LEN + HEADER_LEN * usize::from(count);
    if !has_head(bytes, first) {
        return None;
    }
    let second = certificate_end(bytes, first);
    if !has_head(bytes, second) {
        return None;
    }
    let third = certificate_end(bytes, second);
    if !has_head(bytes, third) || bytes.len() != certificate_end(bytes, third) {
        return None;
    }
    Some(Places {
        count,
        first,
        second,
        third,
    })
}

// The first four tests, of how many bytes there are.
#[tactic(auto, unfolding(crate::specs::LightProofReading::measured, crate::specs::LightProofReading::light_proof_in))]
fn measure(bytes: &[u8]) -> Result<Places, LightProofFormRefusal>
    ensures ok { OnOk result (IsMeasured bytes.now) }
    ensures places { IfOk result (ArePlaces bytes.now) }
    ensures few { IfOk result (λ p. (3 ≤ p.count) × (p.count ≤ 4097)) }
    ensures err { IfErr result (λ refusal. light_proof_in bytes.now ≡ Err refusal) }
    ensures no_memory { result ≢ Err LightProofFormRefusal.Memory }
{
    if bytes.len() < LIGHT_PROOF_HEAD_LEN {
        return Err(LightProofFormRefusal::Short);
    }
    if !bytes.starts_with(b"HSH1") {
        return Err(LightProofFormRefusal::Magic);
    }
    let number = u32_at(bytes, 4);
    if number < LEAST_NUMBER || MOST_NUMBER < number {
        return Err(LightProofFormRefusal::Number);
    }
    match certificate_places(bytes, number as u16 + 1) {
        Some(places) => Ok(places),
        None => Err(LightProofFormRefusal::Length),
    }
}

// The bytes of header k.
fn header_piece(bytes: &[u8], k: u16) -> &[u8]
    requires { 8 + 84 * (k + 1) ≤ length bytes.now }
    ensures { result.now ≡ header_piece bytes.now k }
{
    let at = LIGHT_PROOF_HEAD_LEN + HEADER_LEN * usize::from(k);
    &bytes[at..at + HEADER_LEN]
}

// Header k.
#[tactic(auto, unfolding(crate::specs::LightProofReading::bad_header))]
fn header_in(bytes: &[u8], k: u16) -> Result<Header, LightProofFormRefusal>
    requires { 8 + 84 * (k + 1) ≤ length bytes.now }
    ensures ok { IfOk result (λ h. (h ≡ header_at (header_piece bytes.now k)) × IsHeader h) }
    ensures good { OnOk result (bad_header bytes.now k ≡ None) }
    ensures err { IfErr result (λ refusal. bad_header bytes.now k ≡ Some refusal) }
{
    match Header::from_bytes(header_piece(bytes, k)) {
        Ok(header) => Ok(header),
        Err(_) => Err(LightProofFormRefusal::Header(k)),
    }
}

// The first headers, `count` of them.
fn headers_in(alloc: Global, bytes: &[u8], count: u16) -> Result<Vec<Header>, LightProofFormRefusal>
    requires { 8 + 84 * count ≤ length bytes.now }
    ensures ok { IfOk result (λ headers. headers.items ≡ headers_in bytes.now count) }
    ensures each { IfOk result (λ headers. All IsHeader headers.items) }
    ensures good { OnOk result (first_of (bad_header bytes.now) count ≡ None) }
    ensures err { IfErr result (λ refusal. (refusal ≡ LightProofFormRefusal.Memory)
        ⊎ (first_of (bad_header bytes.now) count ≡ Some refusal)) }
{
    let mut headers = Vec::with_capacity(alloc, usize::from(count))?;
    for k in 0..count {
        headers.push(header_in(bytes, k)?)?;
    }
    Ok(headers)
}

// Each header has bytes.
fn spell_headers(headers: &[Header])
    ensures { All IsHeader headers.now }
{
    for header in headers {
        let _bytes = header.to_bytes();
    }
}

// Adds each header to the text.
fn put_headers(text: &mut Vec<u8>, headers: &[Header]) -> Result<(), AllocError>
    ensures { OnOk result (text.new.items ≡ text.old.items ++ flat_map header_text headers.now) }
{
    for header in headers {
        append(text, &header.to_bytes())?;
    }
    Ok(())
}

// The certificate of this number that the bytes spell.
fn certificate_in(alloc: Global, bytes: &[u8], c: u8) -> Result<Certificate, LightProofFormRefusal>
    ensures found { IfOk result IsCertificate }
    ensures value { result ≢ Err LightProofFormRefusal.Memory
        → result ≡ certificate_as c (certificate_in bytes.now) }
{
    match Certificate::read(alloc, bytes) {
        Ok(certificate) => Ok(certificate),
        Err(CertificateRefusal::Memory) => Err(LightProofFormRefusal::Memory),
        Err(CertificateRefusal::Length) => Err(LightProofFormRefusal::Length),
        Err(CertificateRefusal::Order) => Err(LightProofFormRefusal::Order(c)),
        Err(CertificateRefusal::Count) => Err(LightProofFormRefusal::Count(c)),
    }
}

impl LightProof {
    /// The light proof of these headers, the lowest first from the block that is to hand over, and of the certificates that are to be on the
    /// last header but two, on the last but one, and on the last. None where the headers are not 3 to 4,097. Whether they are on one
    /// another and the certificates on them is for `check_light_proof`.
    pub fn of(
        headers: Vec<Header>,
        committed: Certificate,
        second: Certificate,
        third: Certificate,
    ) -> Option<LightProof>
        ensures found { IsSome result ↔ HasNumber headers.items }
        ensures value { IfSome result (λ p. p ≡ record {
          headers = headers.items;
          committed = committed;
          second = second;
          third = third;
        }) }
    {
        if headers.len() < LEAST_HEADERS || MOST_HEADERS < headers.len() {
            return None;
        }
        // For the proof: each header has bytes.
        spell_headers(&headers);
        Some(LightProof {
            headers,
            committed,
            second,
            third,
        })
    }

    /// The light proof that the bytes spell: `HSH1`, the number of headers after the first (4 bytes at 4), 2 to 4,096, the headers
    /// (84 each from 8 on), and behind them the certificates of the last three headers, the lowest first; numbers with the highest
    /// byte first. Whether the headers are on one another and the certificates on them is for `check_light_proof`. Refused in this
    /// order: Short, Magic, Number, Length, Header, Order and Count of the first certificate, then of the second, then of the
    /// third. Memory is refused in place of what comes behind Length.
    pub fn read(alloc: Global, bytes: &[u8]) -> Result<LightProof, LightProofFormRefusal>
        // What is read is spelled so.
        ensures found { IfOk result (λ p. IsLightProof p × (bytes.now ≡ light_proof_text p)) }

        // What is spelled so is read, unless memory is refused.
        ensures only { (p : LightProofValue) → IsLightProof p → bytes.now ≡ light_proof_text p
            → result ≢ Err LightProofFormRefusal.Memory → result ≡ Ok p }

        // The first test that fails refuses, unless memory is refused.
        ensures first_refusal { result ≢ Err LightProofFormRefusal.Memory
            → result ≡ light_proof_in bytes.now }
        // Nothing is copied before the bytes passed the tests of lengths.
        ensures memory { result ≡ Err LightProofFormRefusal.Memory → IsMeasured bytes.now }
    {
        LightProof::read_all(alloc, bytes)
    }

    fn read_all(alloc: Global, bytes: &[u8]) -> Result<LightProof, LightProofFormRefusal>
        ensures value { result ≢ Err LightProofFormRefusal.Memory
            → result ≡ light_proof_in bytes.now }
        ensures memory { result ≡ Err LightProofFormRefusal.Memory → IsMeasured bytes.now }
    {
        let places = measure(bytes)?;
        let headers = headers_in(alloc, bytes, places.count)?;
        let committed = certificate_in(alloc, &bytes[places.first..places.second], 0)?;
        let second = certificate_in(alloc, &bytes[places.second..places.third], 1)?;
        let third = certificate_in(alloc, &bytes[places.third..], 2)?;
        Ok(LightProof {
            headers,
            committed,
            second,
            third,
        })
    }

    /// The bytes of the light proof.
    #[tactic(auto, unfolding(crate::specs::LightProofs::light_proof_text))]
    pub fn write(&self, alloc: Global) -> Result<Vec<u8>, AllocError>
        ensures text { IfOk result (λ text. text.items ≡ light_proof_text self.now) }
        ensures is_light_proof { IsLightProof self.now }
    {
        let number = self.headers.len() as u32 - 1;
        let mut text = Vec::new(alloc);
        append(&mut text, b"HSH1")?;
        append(&mut text, &number.to_be_bytes())?;
        put_headers(&mut text, &self.headers)?;
        append(&mut text, &self.committed.write(alloc)?)?;
        append(&mut text, &self.second.write(alloc)?)?;
        append(&mut text, &self.third.write(alloc)?)?;
        Ok(text)
    }

    /// The headers, 3 to 4,097, the block that is to hand over first.
    pub fn headers(&self) -> &[Header]
        ensures value { result.now ≡ self.now.headers }
        ensures is_light_proof { IsLightProof self.now }
    {
        &self.headers
    }

    /// The first header, of the block that is to hand over.
    pub fn block(&self) -> &Header
        ensures { result.now ≡ handover_block self.now }
    {
        &self.headers[0]
    }

    /// Header `k`, counted from 0, which must be below their number.
    pub fn header(&self, k: usize) -> &Header
        requires { k < length self.now.headers }
        ensures { result.now ≡ nth_header self.now k }
    {
        &self.headers[k]
    }

    /// The certificate that is to be on the last header but two for 0, but one for 1, and on the last for 2.
    pub fn certificate(&self, c: u8) -> &Certificate
        requires { c < 3 }
        ensures { result.now ≡ nth_certificate self.now c }
    {
        match c {
            0 => &self.committed,
            1 => &self.second,
            _ => &self.third,
        }
    }
}
