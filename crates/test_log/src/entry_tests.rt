//! Entries, read and written again. The entries, headers and certificates are those of an independent program.

use base_wire::array_at;
use blocks::{CommitteeView, Header};
use certificates::{Certificate, CheckedBlock, LmsVerifier, SignedVote, check_block};
use std::alloc::Global;
use std::process::Abort;
use test_fixtures::{certificates as certificate_texts, log_entries as texts, verdicts};
use vote_log::{Entry, EntryRefusal};

/// The entry that the bytes spell.
pub(crate) fn read<R: Abort + AllocGlobal>(rt: &R, bytes: &[u8]) -> Entry {
    Entry::read(rt.alloc(), bytes).ok().expect(rt, "an entry")
}

fn refusal_of(alloc: Global, bytes: &[u8]) -> Option<EntryRefusal> {
    match Entry::read(alloc, bytes) {
        Ok(_) => None,
        Err(e) => Some(e),
    }
}

// The bytes with another byte at a place.
fn changed<R: Abort + AllocGlobal>(rt: &R, bytes: &[u8], at: usize, byte: u8) -> Vec<u8> {
    let mut other = bytes.to_vec(rt.alloc()).expect(rt, "memory");
    assert!(rt; at < other.len());
    other[at] = byte;
    other
}

/// Whether the entry is written so.
pub(crate) fn is_written(alloc: Global, entry: &Entry, bytes: &[u8]) -> bool {
    match entry.write(alloc) {
        Ok(text) => text.as_slice() == bytes,
        Err(_) => false,
    }
}

// Whether the bytes are an entry that is written so again.
fn is_written_again(alloc: Global, bytes: &[u8]) -> bool {
    match Entry::read(alloc, bytes) {
        Ok(entry) => is_written(alloc, &entry, bytes),
        Err(_) => false,
    }
}

#[test]
fn entries_are_read_and_written_again(rt: HostRuntime) {
    assert!(rt; is_written_again(rt.alloc(), texts::a1_voted()));
    assert!(rt; is_written_again(rt.alloc(), texts::a2_voted()));
    assert!(rt; is_written_again(rt.alloc(), texts::x6_raised()));
}

// The signature of the own vote in the entry of A2.
fn signature_in<R: Abort>(rt: &R, bytes: &[u8]) -> [u8; 1452] {
    assert!(rt; bytes.len() == 6_069);
    array_at(bytes, 210)
}

// Whether the vote of replica 9 in an entry is on the block, of view 2, with this signature.
fn has_vote_of_9(entry: &Entry, signature: &[u8; 1452]) -> bool {
    match entry.vote(9) {
        Some(vote) => {
            vote.replica == 9
                && vote.view == 2
                && vote.id == entry.block().id()
                && vote.key == 0
                && vote.signature == *signature
        }
        None => false,
    }
}

// The views of the block, of its parent, and of the parent that the parent names.
fn views_of(entry: &Entry) -> [u64; 3] {
    [
        entry.block().view,
        entry.parent().view,
        entry.parent().parent_view,
    ]
}

#[test]
fn parts_of_an_entry_with_a_vote(rt: HostRuntime) {
    let signature = signature_in(&rt, texts::a2_voted());
    let entry = read(&rt, texts::a2_voted());
    assert!(rt; views_of(&entry) == [2, 1, 0]);
    assert!(rt; entry.certificate().count() == 3);
    assert!(rt; has_vote_of_9(&entry, &signature));
}

// The number of the key in the vote of an entry, where it has one.
fn key_in(entry: &Entry) -> Option<u8> {
    entry.vote(0).map(|vote| vote.key)
}

#[test]
fn the_key_of_a_vote_is_kept(rt: HostRuntime) {
    for key in [0, 3, 255] {
        let other = changed(&rt, texts::a2_voted(), 169, key);
        assert!(rt; key_in(&read(&rt, &other)) == Some(key), "{key}");
    }
}

#[test]
fn parts_of_an_entry_without_a_vote(rt: HostRuntime) {
    let entry = read(&rt, texts::x6_raised());
    assert!(rt; views_of(&entry) == [6, 5, 4]);
    assert!(rt; entry.vote(0).is_none());
}

// A place in the entry of A2, another byte for it, and the refusal that this gives.
const CHANGES: [(usize, u8, EntryRefusal); 21] = [
    (0, 0, EntryRefusal::Kind),
    (0, 1, EntryRefusal::Kind),
    (0, 2, EntryRefusal::Kind),
    (0, 4, EntryRefusal::Length),
    (0, 5, EntryRefusal::Kind),
    (1, 0, EntryRefusal::Header),
    (12, 3, EntryRefusal::OwnVote),
    (20, 0, EntryRefusal::Parent),
    (20, 2, EntryRefusal::Header),
    (21, 0, EntryRefusal::Parent),
    (84, 1, EntryRefusal::OwnVote),
    (85, 0, EntryRefusal::Header),
    (96, 5, EntryRefusal::Parent),
    (104, 1, EntryRefusal::Header),
    (168, 1, EntryRefusal::Parent),
    (177, 3, EntryRefusal::OwnVote),
    (178, 0, EntryRefusal::OwnVote),
    (1669, 2, EntryRefusal::Certificate),
    (1670, 0, EntryRefusal::Certificate),
    (1703, 2, EntryRefusal::Length),
    (1705, 1, EntryRefusal::Certificate),
];

#[test]
fn each_field_of_an_entry_counts(rt: HostRuntime) {
    for (at, byte, refusal) in &CHANGES {
        let other = changed(&rt, texts::a2_voted(), *at, *byte);
        assert!(rt; refusal_of(rt.alloc(), &other) == Some(*refusal), "at {at}");
    }
}

// The own key and signature, and those of the certificate.
#[test]
fn no_key_or_signature_is_checked(rt: HostRuntime) {
    for at in &[169, 210, 1661, 1706, 1707, 6068] {
        let other = changed(&rt, texts::a2_voted(), *at, 0x5a);
        assert!(rt; is_written_again(rt.alloc(), &other), "at {at}");
    }
}

// Bytes too few for an entry, and how they are refused.
const SHORT: [(&[u8], EntryRefusal); 6] = [
    (&[], EntryRefusal::Length),
    (&[1], EntryRefusal::Kind),
    (&[3], EntryRefusal::Length),
    (&[4; 169], EntryRefusal::Length),
    (&[2; 169], EntryRefusal::Kind),
    (&[0; 169], EntryRefusal::Kind),
];

#[test]
fn bytes_of_no_entry(rt: HostRuntime) {
    for (bytes, refusal) in &SHORT {
        assert!(rt;
            refusal_of(rt.alloc(), bytes) == Some(*refusal),
            "{bytes:?}"
        );
    }
}

#[test]
fn entries_with_a_byte_less_or_more(rt: HostRuntime) {
    let shorter = texts::a1_voted().get(..1703).expect(&rt, "1,703 bytes");
    assert!(rt; refusal_of(rt.alloc(), shorter) == Some(EntryRefusal::Length));
    let mut longer = texts::a1_voted().to_vec(rt.alloc()).expect(&rt, "memory");
    longer.push(0).expect(&rt, "memory");
    assert!(rt; refusal_of(rt.alloc(), &longer) == Some(EntryRefusal::Length));
}

#[test]
fn entries_that_lie_of_the_parent(rt: HostRuntime) {
    let refused = refusal_of(rt.alloc(), texts::c5_of_wrong_parent_view());
    assert!(rt; refused == Some(EntryRefusal::Parent));
    // A certificate without votes above view 0, though on no parent either.
    let other = changed(&rt, texts::a1_voted(), 1669, 1);
    assert!(rt; refusal_of(rt.alloc(), &other) == Some(EntryRefusal::Certificate));
}

// A2, with its certificate of A1.
fn checked_a2<R: Abort + AllocGlobal>(rt: &R) -> CheckedBlock<'static> {
    let committee = CommitteeView::parse(verdicts::committee());
    let header = Header::from_bytes(certificate_texts::header_a2());
    let certificate = Certificate::read(rt.alloc(), certificate_texts::of_a1());
    let block = check_block(
        &committee.ok().expect(rt, "a committee"),
        &LmsVerifier,
        header.ok().expect(rt, "a header"),
        certificate.ok().expect(rt, "a certificate"),
    );
    block.ok().expect(rt, "a good block")
}

/// The entry of a block and its parent, with a vote of this signature.
pub(crate) fn entry_of<R: Abort>(
    rt: &R,
    block: CheckedBlock,
    parent: Header,
    signature: [u8; 1452],
) -> Entry {
    let header = *block.header();
    assert!(rt; header.parent == parent.id() && header.parent_view == parent.view);
    let vote = SignedVote {
        replica: 0,
        view: header.view,
        id: header.id(),
        key: 0,
        signature,
    };
    Entry::of(block, parent, Some(vote))
}

// The header of A1, as it stands in the entry of A2.
fn header_a1<R: Abort>(rt: &R) -> Header {
    let header = texts::a2_voted().get(85..169).expect(rt, "169 bytes");
    Header::from_bytes(header).ok().expect(rt, "a header")
}

#[test]
fn the_entry_of_a_checked_block(rt: HostRuntime) {
    let signature = signature_in(&rt, texts::a2_voted());
    let entry = entry_of(&rt, checked_a2(&rt), header_a1(&rt), signature);
    assert!(rt; is_written(rt.alloc(), &entry, texts::a2_voted()));
}
