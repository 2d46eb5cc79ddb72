//! Blocks whose certificate is good.

ghost use Rattle.std.specs.Prelude.{◌≡◌, ◌<◌, ◌↔◌, IsOk, IsTrue, IfErr, IfNone, IfOk, IfSome, OnOk};
ghost use Rattle.std.specs.List.{All, AllPairs};
ghost use Rattle.blocks.specs.Committees.{n_of, keys_of};
ghost use Rattle.certificates.specs.BlockChecks.{CheckedBlock as CheckedBlockValue, counted, counted_weight, AreInCommittee, HasCount, HaveKnownKeys, IsBlockRefusal, IsChecked, IsFirstUnsigned, IsOnParent, IsSignedEntry, block_refusal_number};
ghost use Rattle.certificates.specs.Certificates.{IsBefore};
ghost use Rattle.certificates.specs.GoodCertificates.{IsOnGenesis};

use crate::certificate::{Certificate, Endorsement};
use crate::vote::{Verifier, is_signed_by};
use blocks::{CommitteeView, Header, NamedHeader};
use std::marker::Model;

/// Why a block is refused, in the order of the tests.
#[derive(Clone, Copy, Debug, PartialEq, Eq)]
pub enum BlockRefusal {
    /// 1: the certificate is not on the parent's id and view, or the block's view is 0.
    WrongBlock,
    /// 2: there are no votes and the parent is not genesis with view 0, or there are some, but more than n, or of less
    /// weight than a quorum. Here a vote counts 1 where the committee has no such replica.
    Count,
    /// 3: the committee has no replica of some vote's number.
    UnknownReplica,
    /// 5: some vote names a key that its replica has not.
    UnknownKey,
    /// 4: this vote, counted from 0, is not signed with the key of its replica that it names, and it is the least such vote.
    Signature(usize),
}

impl BlockRefusal {
    /// The number of the refusal, which never changes.
    pub fn number(self) -> u8
        ensures { result ≡ block_refusal_number self }
    {
        match self {
            BlockRefusal::WrongBlock => 1,
            BlockRefusal::Count => 2,
            BlockRefusal::UnknownReplica => 3,
            BlockRefusal::UnknownKey => 5,
            BlockRefusal::Signature(_) => 4,
        }
    }
}

/// A block and the certificate of its parent, made by `check_block` alone: the certificate is good under
/// the committee that the block keeps, and on the parent that its header names. The block's id is hashed here, once.
#[derive(Drop)]
pub struct CheckedBlock<'a> {
    committee: CommitteeView<'a>,
    header: NamedHeader,
    certificate: Certificate,
}

impl<'a> Model for CheckedBlock<'a> {
    ghost use Rattle.certificates.specs.BlockChecks.{CheckedBlock as CheckedBlockValue, IsChecked};

    ghost Value = { CheckedBlockValue };

    ghost view = { λ b. record {
      committee = b.committee;
      header = b.header;
      certificate = b.certificate;
    } };

    ghost invariant = { λ b. IsChecked b.committee b.header b.certificate };
}

// Whether the certificate is on the block that the header names as its parent.
fn is_on_parent(header: &Header, certificate: &Certificate) -> bool
    ensures { IsTrue result ↔ IsOnParent header.now certificate.now }
{
    header.view > 0
        && header.parent_view == certificate.view()
        && header.parent == *certificate.id()
}

// Whether the certificate has no votes and is on genesis.
fn is_on_genesis(committee: &CommitteeView, certificate: &Certificate) -> bool
    ensures { IsTrue result ↔ IsOnGenesis committee.now certificate.now }
{
    certificate.count() == 0 && certificate.view() == 0 && *certificate.id() == committee.chain()
}

// How much an entry counts.
fn counted(committee: &CommitteeView, entry: &Endorsement) -> u32
    ensures { result ≡ counted committee.now entry.now }
{
    if entry.replica < committee.n() {
        committee.weight(entry.replica)
    } else {
        1
    }
}

// How much all entries count.
fn counted_weight(committee: &CommitteeView, certificate: &Certificate) -> u64
    ensures { result ≡ counted_weight committee.now certificate.now }
{
    let mut weight = 0;
    for entry in certificate.entries() {
        weight += u64::from(counted(committee, entry));
    }
    weight
}

// Whether the certificate has as many votes as a good one, and of as much weight.
fn has_count(committee: &CommitteeView, certificate: &Certificate) -> bool
    ensures value { IsTrue result ↔ HasCount committee.now certificate.now }
    ensures rising { AllPairs IsBefore certificate.now.entries }
{
    let count = certificate.count();
    let weight = counted_weight(committee, certificate);
    if committee.quorum() <= weight && count <= committee.n() as usize {
        return true;
    }
    is_on_genesis(committee, certificate)
}

// Whether each vote is by a replica of the committee.
fn are_known(committee: &CommitteeView, certificate: &Certificate) -> bool
    ensures { IsTrue result ↔ AreInCommittee committee.now certificate.now }
{
    let n = committee.n();
    certificate.entries().iter().all(|e| e.replica < n)
}

// Whether each vote names a key that its replica has.
fn have_known_keys(committee: &CommitteeView, certificate: &Certificate) -> bool
    requires { AreInCommittee committee.now certificate.now }
    ensures { IsTrue result ↔ HaveKnownKeys committee.now certificate.now }
{
    for entry in certificate.entries() {
        if entry.key >= committee.keys(entry.replica) {
            return false;
        }
    }
    true
}

// Whether an entry of the certificate is signed with the key of its replica that it names.
fn is_signed_entry<V: Verifier>(
    committee: &CommitteeView,
    verifier: &V,
    certificate: &Certificate,
    entry: &Endorsement,
) -> bool
    requires known { entry.now.replica < n_of committee.now }
    requires key { entry.now.key < keys_of committee.now entry.now.replica }
    ensures { IsTrue result ↔ IsSignedEntry committee.now certificate.now entry.now }
{
    is_signed_by(
        verifier,
        committee,
        entry.replica,
        entry.key,
        &certificate.ballot(),
        &entry.signature,
    )
}

// The least vote that is not signed with the key of its replica that it names.
fn first_unsigned<V: Verifier>(
    committee: &CommitteeView,
    verifier: &V,
    certificate: &Certificate,
) -> Option<usize>
    requires known { AreInCommittee committee.now certificate.now }
    requires keys { HaveKnownKeys committee.now certificate.now }
    ensures none { IfNone result
        (All (IsSignedEntry committee.now certificate.now) certificate.now.entries) }
    ensures some { IfSome result (λ k. IsFirstUnsigned committee.now certificate.now k) }
{
    let entries = certificate.entries();
    for (k, entry) in entries.iter().enumerate() {
        if !is_signed_entry(committee, verifier, certificate, entry) {
            return Some(k);
        }
    }
    None
}

// The tests of a block in their order.
fn judge<V: Verifier>(
    committee: &CommitteeView,
    verifier: &V,
    header: &Header,
    certificate: &Certificate,
) -> Result<(), BlockRefusal>
    ensures exact { IsOk result ↔ IsChecked committee.now header.now certificate.now }
    ensures first_refusal { IfErr result (λ refusal.
        IsBlockRefusal refusal committee.now header.now certificate.now) }
{
    if !is_on_parent(header, certificate) {
        return Err(BlockRefusal::WrongBlock);
    }
    if !has_count(committee, certificate) {
        return Err(BlockRefusal::Count);
    }
    if !are_known(committee, certificate) {
        return Err(BlockRefusal::UnknownReplica);
    }
    if !have_known_keys(committee, certificate) {
        return Err(BlockRefusal::UnknownKey);
    }
    if let Some(k) = first_unsigned(committee, verifier, certificate) {
        return Err(BlockRefusal::Signature(k));
    }
    Ok(())
}

/// The block, if its view is above 0 and the certificate is good under the committee and on the parent
/// that the header names. A good certificate has votes by different replicas, n at the most, that weigh as much as a quorum,
/// each signed with the key of its replica that it names, or none and is on genesis. Refused in this order: WrongBlock,
/// Count, UnknownReplica, UnknownKey, Signature; a refusal drops the header and the certificate. It costs one signature
/// check for each vote at the most, takes no memory and does not wait.
pub fn check_block<'a, V: Verifier>(
    committee: &CommitteeView<'a>,
    verifier: &V,
    header: Header,
    certificate: Certificate,
) -> Result<CheckedBlock<'a>, BlockRefusal>
    ensures exact { IsOk result ↔ IsChecked committee.now header certificate }
    ensures ok { IfOk result (λ b. b ≡ record {
      committee = committee.now;
      header = header;
      certificate = certificate;
    }) }
    ensures first_refusal { IfErr result (λ refusal.
        IsBlockRefusal refusal committee.now header certificate) }
{
    judge(committee, verifier, &header, &certificate)?;
    Ok(CheckedBlock {
        committee: committee.again(),
        header: NamedHeader::of(header),
        certificate,
    })
}

impl<'a> CheckedBlock<'a> {
    /// The header.
    pub fn header(&self) -> &Header
        ensures value { result.now ≡ self.now.header }
        ensures is_checked { IsChecked self.now.committee self.now.header self.now.certificate }
    {
        self.header.header()
    }

    /// The header beside the block's id.
    pub fn named(&self) -> &NamedHeader
        ensures value { result.now ≡ self.now.header }
        ensures is_checked { IsChecked self.now.committee self.now.header self.now.certificate }
    {
        &self.header
    }

    /// The certificate of the parent.
    pub fn certificate(&self) -> &Certificate
        ensures value { result.now ≡ self.now.certificate }
        ensures is_checked { IsChecked self.now.committee self.now.header self.now.certificate }
    {
        &self.certificate
    }

    /// The committee that the block was checked under.
    pub fn committee(&self) -> CommitteeView<'a>
        ensures value { result ≡ self.now.committee }
        ensures is_checked { IsChecked self.now.committee self.now.header self.now.certificate }
    {
        self.committee.again()
    }

    /// The header beside the block's id, and the certificate of the parent. The committee that the block was checked
    /// under is let go.
    pub fn into_parts(self) -> (NamedHeader, Certificate)
        ensures value { (result.0 ≡ self.entry.header) × (result.1 ≡ self.entry.certificate) }
        ensures is_checked { IsChecked self.entry.committee self.entry.header
            self.entry.certificate }
    {
        let CheckedBlock {
            committee: _,
            header,
            certificate,
        } = self;
        (header, certificate)
    }
}
