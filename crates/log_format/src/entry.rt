//! Entries of a log.

ghost use Rattle.std.specs.Prelude.{◌≡◌, ◌≢◌, ◌+◌, ◌*◌, ◌==◌, ◌<◌, ◌≤◌, ◌↔◌, ◌++◌, ◌⊎◌, true, drop, length, option_map, Ok, Err, IfErr, IfOk, IfSome, IsSome, IsTrue, OnOk};
ghost use Rattle.std.specs.Option.{ForSome};
ghost use Rattle.base_wire.specs.Pieces.{piece};
ghost use Rattle.blocks.specs.Headers.{Header as HeaderValue, IsHeader, NamesParent, header_id};
ghost use Rattle.certificates.specs.Assembling.{IsVoteFor};
ghost use Rattle.certificates.specs.CertificateReading.{is_whole_certificate};
ghost use Rattle.log_format.specs.declared.entry.TheConstants.{BEHIND_VOTE, LONGEST_ENTRY, VOTE_AT};
ghost use Rattle.log_format.specs.EntryReading.{AreReadable, IsEntryRefusal, IsOwnVoteOn, IsReadableEntry, IsReadableOn, IsCertificateRefusal, block_in, certificate_in_rest, certificate_place, entry_in, entry_refusal_number, is_voted_in, entry_kind_in, own_in, parent_in};
ghost use Rattle.log_format.specs.EntryText.{Entry as EntryValue, EntriesHaveOneSpelling, IsEntry, IsEntryOf, IsOn, entry_text, entry_kind, is_signed, own_of, own_vote_text, stored_in, own_vote_of};

use base_wire::{append, array_at, u64_at};
use blocks::{HEADER_LEN, Header, Id, NamedHeader};
use certificates::{
    BOUND_VOTE_LEN, Certificate, CertificateRefusal, CheckedBlock, LONGEST_CERTIFICATE, SignedVote,
    is_whole_certificate,
};
use lms_tree::Signature;
use replica_core::Stored;
use std::alloc::{AllocError, Global};
use std::marker::Model;

/// The first byte of an entry with the replica's own vote.
const VOTED: u8 = 3;

/// The first byte of an entry without one.
const RAISED: u8 = 4;

/// Where the parent's header begins, in bytes.
const PARENT_AT: usize = 1 + HEADER_LEN;

/// Where the own vote begins, and where the certificate does in an entry without one.
pub(crate) const VOTE_AT: usize = PARENT_AT + HEADER_LEN;

/// Where the certificate begins behind an own vote.
pub(crate) const BEHIND_VOTE: usize = VOTE_AT + BOUND_VOTE_LEN;

/// The greatest length of an entry in bytes.
pub const LONGEST_ENTRY: usize = BEHIND_VOTE + LONGEST_CERTIFICATE;
// As docs/FORMATS.md says.
const _: () = prove!(LONGEST_ENTRY == 46_809);

/// The signature of a replica's own vote, and the number of the key that signed it.
#[derive(Clone, Copy)]
struct KeyedSignature {
    key: u8,
    signature: Signature,
}

/// What a replica stores of a block that it voted for, or that raised its lock without a vote: the block's
/// header, its parent's, the signature of the own vote and the number of its key if it voted, and the parent's
/// certificate. The block names this parent by id and view, and the certificate is on the parent. Made by
/// `Entry::read` and `Entry::of` alone. No signature is checked, and no number of a key is looked at.
#[derive(Drop)]
pub struct Entry {
    block: NamedHeader,
    parent: Header,
    own: Option<KeyedSignature>,
    certificate: Certificate,
}

impl Model for Entry {
    ghost use Rattle.log_format.specs.EntryText.{Entry as EntryValue, IsEntry};

    ghost Value = { EntryValue };

    ghost view = { λ e. record {
      block = e.block;
      parent = e.parent;
      own = e.own;
      certificate = e.certificate;
    } };

    ghost invariant = { λ e. IsEntry (record {
      block = e.block;
      parent = e.parent;
      own = e.own;
      certificate = e.certificate;
    }) };
}

/// Why bytes are no entry.
#[derive(Clone, Copy, Debug, PartialEq, Eq)]
pub enum EntryRefusal {
    /// Memory was refused.
    Memory = 1,
    /// There are no bytes, or not as many as the kind and the certificate's number of votes ask for.
    Length = 2,
    /// The first byte is neither 3 nor 4.
    Kind = 3,
    /// One of the two headers can not be read.
    Header = 4,
    /// The second header is not the parent that the first one names, by id and view.
    Parent = 5,
    /// The own vote is not on the block's view and id.
    OwnVote = 6,
    /// The certificate can not be read, or is not on the parent's view and id.
    Certificate = 7,
}

impl EntryRefusal {
    /// The number of the refusal, which never changes.
    pub fn number(self) -> u8
        ensures { result ≡ entry_refusal_number self }
    {
        self as u8
    }
}

// Whether the own vote stands in the entry, as its first byte says.
fn is_voted(bytes: &[u8]) -> Result<bool, EntryRefusal>
    ensures ok { IfOk result (λ voted. is_voted_in bytes.now ≡ voted) }
    ensures kind { OnOk result ((entry_kind_in bytes.now ≡ 3) ⊎ (entry_kind_in bytes.now ≡ 4)) }
    ensures first_refusal { IfErr result (IsEntryRefusal bytes.now) }
{
    match bytes.first() {
        None => Err(EntryRefusal::Length),
        Some(&VOTED) => Ok(true),
        Some(&RAISED) => Ok(false),
        Some(_) => Err(EntryRefusal::Kind),
    }
}

fn certificate_place(voted: bool) -> usize
    ensures { result ≡ certificate_place voted }
{
    if voted { BEHIND_VOTE } else { VOTE_AT }
}

// Whether the bytes from place `at` on are as many as a certificate there has.
fn has_whole_certificate(bytes: &[u8], at: usize) -> bool
    ensures value { result ≡ is_whole_certificate (drop at bytes.now) }
    ensures long { IsTrue result → at + 42 ≤ length bytes.now }
{
    if bytes.len() < at {
        return false;
    }
    is_whole_certificate(&bytes[at..])
}

// The two headers, the first beside its id, if both can be read.
fn headers_in(bytes: &[u8]) -> Option<(NamedHeader, Header)>
    requires { VOTE_AT ≤ length bytes.now }
    ensures some { IfSome result (λ h. (h.0 ≡ block_in bytes.now) × (h.1 ≡ parent_in bytes.now)) }
    ensures exact { IsSome result ↔ AreReadable (piece 84 bytes.now 1) (piece 84 bytes.now 85) }
{
    let Ok(block) = Header::from_bytes(&bytes[1..PARENT_AT]) else {
        return None;
    };
    let Ok(parent) = Header::from_bytes(&bytes[PARENT_AT..VOTE_AT]) else {
        return None;
    };
    Some((NamedHeader::of(block), parent))
}

fn is_own_vote_on(block: &NamedHeader, bytes: &[u8]) -> bool
    requires { BEHIND_VOTE ≤ length bytes.now }
    ensures { IsTrue result ↔ IsOwnVoteOn block.now bytes.now }
{
    let id: Id = array_at(bytes, VOTE_AT + 9);
    u64_at(bytes, VOTE_AT + 1) == block.header().view && id == *block.id()
}

// The signature in the own vote and the number of its key, if there is one.
#[tactic(auto, unfolding(crate::specs::EntryReading::own_in))]
fn own_in(voted: bool, bytes: &[u8]) -> Option<KeyedSignature>
    requires { certificate_place voted ≤ length bytes.now }
    ensures { result ≡ own_in voted bytes.now }
{
    if voted {
        Some(KeyedSignature {
            key: bytes[VOTE_AT],
            signature: array_at(bytes, VOTE_AT + 41),
        })
    } else {
        None
    }
}

// Whether the certificate is on the parent that the block names.
fn is_on_parent(certificate: &Certificate, block: &Header, parent: &Header) -> bool
    requires { NamesParent block.now parent.now }
    ensures { IsTrue result ↔ IsOn parent.now certificate.now }
{
    certificate.view() == block.parent_view && *certificate.id() == block.parent
}

// The certificate of the parent.
fn certificate_in(
    alloc: Global,
    rest: &[u8],
    block: &Header,
    parent: &Header,
) -> Result<Certificate, EntryRefusal>
    requires { NamesParent block.now parent.now }
    ensures ok { IfOk result (λ c. c ≡ certificate_in_rest rest.now) }
    ensures passes { OnOk result (IsReadableOn parent.now rest.now) }
    ensures refused { IfErr result (IsCertificateRefusal parent.now rest.now) }
{
    let certificate = match Certificate::read(alloc, rest) {
        Ok(certificate) => certificate,
        Err(CertificateRefusal::Memory) => return Err(EntryRefusal::Memory),
        Err(_) => return Err(EntryRefusal::Certificate),
    };
    if !is_on_parent(&certificate, block, parent) {
        return Err(EntryRefusal::Certificate);
    }
    Ok(certificate)
}

// The signature of a vote and the number of its key, if there is one.
fn own_of(vote: Option<SignedVote>) -> Option<KeyedSignature>
    ensures { result ≡ own_of vote }
{
    let SignedVote { key, signature, .. } = vote?;
    Some(KeyedSignature { key, signature })
}

// The first byte of an entry with this signature or without one.
fn entry_kind(own: &Option<KeyedSignature>) -> u8
    ensures { result ≡ entry_kind own.now }
{
    match own {
        Some(_) => VOTED,
        None => RAISED,
    }
}

fn is_signed(own: &Option<KeyedSignature>) -> bool
    ensures { result ≡ is_signed own.now }
{
    own.is_some()
}

fn put_own_vote(
    text: &mut Vec<u8>,
    block: &NamedHeader,
    own: &Option<KeyedSignature>,
) -> Result<(), AllocError>
    ensures { OnOk result (text.new.items ≡ text.old.items ++ own_vote_text block.now own.now) }
{
    if let Some(own) = own {
        append(text, &[own.key])?;
        append(text, &block.header().view.to_be_bytes())?;
        append(text, block.id())?;
        append(text, &own.signature)?;
    }
    Ok(())
}

impl Entry {
    /// The entry that the bytes spell: the kind (1 byte at 0, 3 with the replica's own vote and 4 without),
    /// the block's header (84 at 1), its parent's (84 at 85), with kind 3 the own vote (`BOUND_VOTE_LEN` at
    /// 169: the number of the key, 1, the view, 8 at 170, the id, 32 at 178, and the signature, from 210 on), and
    /// the parent's certificate (behind the vote, with kind 4 at 169). Any number
    /// of a key is read. Refused in this order: Memory, where memory was refused, Kind, Length, Header,
    /// Parent, OwnVote, Certificate; no bytes are refused as Length, and the kinds 1 and 2, of logs from
    /// before there were numbers of keys, as Kind. Memory is asked for once all but the certificate is good.
    pub fn read(alloc: Global, bytes: &[u8]) -> Result<Entry, EntryRefusal>
        // What is read is spelled so.
        ensures found { IfOk result (IsEntryOf bytes.now) }

        // What is spelled so is read, unless memory is refused.
        ensures only { (e : EntryValue) → IsEntryOf bytes.now e → result ≢ Err EntryRefusal.Memory
            → result ≡ Ok e }

        // The first test that fails refuses, unless memory is refused.
        ensures first_refusal { IfErr result (IsEntryRefusal bytes.now) }
    {
        Entry::read_all(alloc, bytes)
    }

    fn read_all(alloc: Global, bytes: &[u8]) -> Result<Entry, EntryRefusal>
        ensures ok { IfOk result (λ e. IsReadableEntry bytes.now × (e ≡ entry_in bytes.now)) }
        ensures first_refusal { IfErr result (IsEntryRefusal bytes.now) }
    {
        let voted = is_voted(bytes)?;
        let at = certificate_place(voted);
        if !has_whole_certificate(bytes, at) {
            return Err(EntryRefusal::Length);
        }
        let Some((block, parent)) = headers_in(bytes) else {
            return Err(EntryRefusal::Header);
        };
        if !block.header().names(&parent) {
            return Err(EntryRefusal::Parent);
        }
        if voted && !is_own_vote_on(&block, bytes) {
            return Err(EntryRefusal::OwnVote);
        }
        let certificate = certificate_in(alloc, &bytes[at..], block.header(), &parent)?;
        Ok(Entry {
            block,
            parent,
            own: own_in(voted, bytes),
            certificate,
        })
    }

    /// The bytes of the entry: 169, `BOUND_VOTE_LEN` for an own vote, and the certificate.
    pub fn write(&self, alloc: Global) -> Result<Vec<u8>, AllocError>
        ensures text { IfOk result (λ text. text.items ≡ entry_text self.now) }

        // So what is written is read, with the same parts.
        ensures spells { IfOk result (λ text. IsEntryOf text.items self.now) }
        ensures size { IfOk result (λ text. (0 < length text.items)
            × (length text.items ≤ LONGEST_ENTRY)) }
    {
        let certificate = self.certificate.write(alloc)?;
        let mut text = Vec::new(alloc);
        append(&mut text, &[entry_kind(&self.own)])?;
        append(&mut text, &self.block.header().to_bytes())?;
        append(&mut text, &self.parent.to_bytes())?;
        put_own_vote(&mut text, &self.block, &self.own)?;
        append(&mut text, &certificate)?;
        Ok(text)
    }

    /// The entry of a block whose certificate is good, its parent, and the own vote for it, if there is one.
    /// The block has to name this parent by id and view, and the vote to be on the block's view and id. The
    /// number of the replica is not kept, that of the key is. It takes no memory.
    pub fn of(block: CheckedBlock, parent: Header, vote: Option<SignedVote>) -> Entry
        requires names { NamesParent block.header parent }
        requires on_block { ForSome vote (IsVoteFor block.header.view (header_id block.header)) }
        ensures { result ≡ record {
          block = block.entry.header;
          parent = parent;
          own = own_of vote;
          certificate = block.entry.certificate;
        } }
    {
        let (block, certificate) = block.into_parts();
        Entry {
            block,
            parent,
            own: own_of(vote),
            certificate,
        }
    }

    /// The header of the block.
    pub fn block(&self) -> &Header
        ensures value { result.now ≡ self.now.block }
        ensures is_entry { IsEntry self.now }
    {
        self.block.header()
    }

    /// The header of its parent.
    pub fn parent(&self) -> &Header
        ensures value { result.now ≡ self.now.parent }
        ensures is_entry { IsEntry self.now }
    {
        &self.parent
    }

    /// The certificate of the parent.
    pub fn certificate(&self) -> &Certificate
        ensures value { result.now ≡ self.now.certificate }
        ensures is_entry { IsEntry self.now }
    {
        &self.certificate
    }

    /// What replay sees of the entry: whether the replica voted, the block, and its parent.
    pub fn stored(&self) -> Stored
        ensures { result ≡ stored_in self.now }
    {
        Stored {
            voted: is_signed(&self.own),
            block: *self.block.header(),
            parent: self.parent,
        }
    }

    /// The replica's vote for the block, with the number of its key, if it voted. An entry does not say whose
    /// log it stands in.
    pub fn vote(&self, replica: u16) -> Option<SignedVote>
        ensures { result ≡ own_vote_of self.now replica }
    {
        let KeyedSignature { key, signature } = self.own?;
        Some(SignedVote {
            replica,
            view: self.block.header().view,
            id: *self.block.id(),
            key,
            signature,
        })
    }
}

/// Each text is of one entry, and each entry has one text: two entries with the same bytes are the same.
pub fn entries_have_one_spelling()
    ensures { EntriesHaveOneSpelling }
{}
