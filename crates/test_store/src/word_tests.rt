//! A word store on a disk in memory. Its bytes are spelled by hand, from docs/FORMATS.md.

use crate::disk_tests::{CHOICES, crashed, disk_of};
use crate::journal_tests::EMPTY;
use handover_folder::{GoneOver, WordError, WordStore};
use stable_log::MemoryDisk;
use std::process::Abort;

const WORD: GoneOver = GoneOver {
    file: [b'f'; 32],
    handover: [b'h'; 32],
};

// An open gate, the length 65, the kind 5, both ids, and a closed gate.
const SAID: &[u8] =
    b"HSJ1\0\0\0\0\x01\0\0\0\x41\x05ffffffffffffffffffffffffffffffffhhhhhhhhhhhhhhhhhhhhhhhhhhhhhhhh\0";

// How many bytes an endorsement of two keys has.
const TWO_KEYS: usize = 1604;

// The length 1,605 and the kind 6, in front of an endorsement of two keys.
const ENDORSED_HEAD: &[u8] = b"HSJ1\0\0\0\0\x01\0\0\x06\x45\x06";

// How many calls of the disk there are in an `endorse` or a `go_over` that writes.
const CALLS: u32 = 4;

// The store that a disk holds.
fn recovered<R: Abort + AllocGlobal>(rt: &R, disk: MemoryDisk) -> WordStore<MemoryDisk> {
    let recovered = WordStore::recover(rt.alloc(), disk);
    recovered.ok().expect(rt, "recover")
}

// The word that a store on this disk finds.
fn found<R: Abort + AllocGlobal>(rt: &R, disk: MemoryDisk) -> Option<GoneOver> {
    recovered(rt, disk).gone()
}

// As many bytes, to endorse by.
fn bytes_of<R: Abort + AllocGlobal>(rt: &R, byte: u8, len: usize) -> Vec<u8> {
    let bytes = vec![in rt.alloc(); byte; len];
    bytes.expect(rt, "memory")
}

// What a journal holds that has the endorsement of two keys alone.
fn endorsed_text<R: Abort + AllocGlobal>(rt: &R) -> Vec<u8> {
    let mut text = ENDORSED_HEAD.to_vec(rt.alloc()).expect(rt, "memory");
    let bytes = bytes_of(rt, b'e', TWO_KEYS);
    text.extend_from_slice(&bytes).expect(rt, "memory");
    text.push(0).ok().expect(rt, "memory");
    text
}

// Whether a store says this endorsement of two keys, and has gone over or not.
fn says(store: &WordStore<MemoryDisk>, bytes: &[u8], gone: Option<GoneOver>) -> bool {
    store.endorsed() == Some(bytes) && store.gone() == gone
}

#[test]
fn a_word_is_there_behind_a_crash(rt: HostRuntime) {
    let created = WordStore::create(rt.alloc(), disk_of(&rt, b""));
    let mut store = created.ok().expect(&rt, "create");
    assert!(rt; store.gone().is_none());
    assert!(rt; store.go_over(WORD) == Ok(()));
    let disk = store.into_disk();
    assert!(rt; disk.bytes() == SAID);
    for choice in &CHOICES {
        assert!(rt;
            found(&rt, crashed(&rt, &disk, *choice)) == Some(WORD),
            "{choice:?}"
        );
    }
    assert!(rt; found(&rt, disk_of(&rt, EMPTY)).is_none());
}

#[test]
fn both_words_are_there_behind_a_crash(rt: HostRuntime) {
    let bytes = bytes_of(&rt, b'e', TWO_KEYS);
    let mut store = recovered(&rt, disk_of(&rt, EMPTY));
    assert!(rt; store.endorsed().is_none() && store.endorse(&bytes) == Ok(()));
    assert!(rt; store.endorse(&bytes) == Ok(()) && says(&store, &bytes, None));
    let disk = store.into_disk();
    let text = endorsed_text(&rt);
    assert!(rt; disk.bytes() == text.as_slice());
    for choice in &CHOICES {
        let mut store = recovered(&rt, crashed(&rt, &disk, *choice));
        assert!(rt; says(&store, &bytes, None), "{choice:?}");
        assert!(rt; store.go_over(WORD) == Ok(()), "{choice:?}");
        let left = crashed(&rt, &store.into_disk(), *choice);
        assert!(rt;
            says(&recovered(&rt, left), &bytes, Some(WORD)),
            "{choice:?}"
        );
    }
}

#[test]
fn other_bytes_are_refused(rt: HostRuntime) {
    let bytes = bytes_of(&rt, b'e', TWO_KEYS);
    let other = bytes_of(&rt, b'x', TWO_KEYS);
    let mut store = recovered(&rt, disk_of(&rt, SAID));
    assert!(rt; store.endorse(&bytes) == Err(WordError::Gone));
    let mut store = recovered(&rt, disk_of(&rt, &endorsed_text(&rt)));
    assert!(rt; store.endorse(&other) == Err(WordError::Other));
    assert!(rt; store.go_over(WORD) == Ok(()) && store.endorse(&bytes) == Ok(()));
    assert!(rt; store.endorse(&other) == Err(WordError::Other));
}

// Lengths at the edges of those that an endorsement of one to four keys has.
const LENGTHS: [(usize, bool); 14] = [
    (0, false),
    (64, false),
    (1547, false),
    (1548, true),
    (1549, false),
    (1603, false),
    (1604, true),
    (1605, false),
    (1659, false),
    (1660, true),
    (1661, false),
    (1715, false),
    (1716, true),
    (1717, false),
];

#[test]
fn lengths_of_an_endorsement(rt: HostRuntime) {
    for (len, is_taken) in &LENGTHS {
        let bytes = bytes_of(&rt, b'e', *len);
        let mut store = recovered(&rt, disk_of(&rt, EMPTY));
        let wanted = if *is_taken {
            Ok(())
        } else {
            Err(WordError::WrongLength)
        };
        assert!(rt; store.endorse(&bytes) == wanted, "{len}");
        assert!(rt; store.endorsed().is_some() == *is_taken, "{len}");
    }
}

// A store of these bytes, whose disk fails once, behind so many calls of the recovered one.
fn failing<R: Abort + AllocGlobal>(rt: &R, bytes: &[u8], behind: u32) -> WordStore<MemoryDisk> {
    let calls = recovered(rt, disk_of(rt, bytes)).into_disk().calls();
    let calls = u32::try_from(calls).unwrap_or(u32::MAX);
    let mut disk = disk_of(rt, bytes);
    disk.fuse(calls.saturating_add(behind), false);
    recovered(rt, disk)
}

#[test]
fn a_disk_that_fails_stops_the_store(rt: HostRuntime) {
    let bytes = bytes_of(&rt, b'e', TWO_KEYS);
    for behind in 0..CALLS {
        let mut store = failing(&rt, EMPTY, behind);
        assert!(rt; store.endorse(&bytes) == Err(WordError::Device), "{behind}");
        assert!(rt; store.stopped() && store.endorsed().is_none(), "{behind}");
        assert!(rt;
            store.endorse(&bytes) == Err(WordError::Stopped),
            "{behind}"
        );
        let disk = store.into_disk();
        for choice in &CHOICES {
            let store = recovered(&rt, crashed(&rt, &disk, *choice));
            let is_right = store.endorsed().is_none() || store.endorsed() == Some(bytes.as_slice());
            assert!(rt; is_right, "{behind} {choice:?}");
        }
    }
}

#[test]
fn an_endorsement_stays_in_a_stopped_store(rt: HostRuntime) {
    let bytes = bytes_of(&rt, b'e', TWO_KEYS);
    let text = endorsed_text(&rt);
    for behind in 0..CALLS {
        let mut store = failing(&rt, &text, behind);
        assert!(rt; store.go_over(WORD) == Err(WordError::Device), "{behind}");
        assert!(rt; store.stopped() && says(&store, &bytes, None), "{behind}");
        let disk = store.into_disk();
        for choice in &CHOICES {
            let store = recovered(&rt, crashed(&rt, &disk, *choice));
            assert!(rt;
                store.endorsed() == Some(bytes.as_slice()),
                "{behind} {choice:?}"
            );
        }
    }
}
