//! In which order a journal calls its disk: the order that docs/FORMATS.md asks for, by first letters.

ghost use Rattle.std.specs.Prelude.{None};

use crate::journal_tests::{EMPTY, created, recovered};
use stable_log::{Disk, Fault, Journal};

// A disk that holds an empty journal, or nothing, and notes its calls by their first letters: length,
// read, write, sync. To contracts it tells nothing.
#[derive(Drop)]
struct NotingDisk {
    held: u64,
    calls: [u8; 8],
    count: usize,
}

impl NotingDisk {
    fn new(held: u64) -> NotingDisk {
        NotingDisk {
            held,
            calls: [b'.'; 8],
            count: 0,
        }
    }

    fn note(&mut self, call: u8) {
        if self.count < self.calls.len() {
            self.calls[self.count] = call;
            self.count += 1;
        }
    }
}

impl Disk for NotingDisk {
    ghost bytes = { λ _. None };

    ghost images = { λ _ _. ⊥ };

    ghost moment = { λ _. 0 };

    ghost images_since = { λ _ _ _. ⊥ };

    ghost failed = { λ _. 0 };

    ghost counts_now = { λ d t c le now. now };

    ghost only_now = { λ d c left. left };

    ghost as_read = { λ d. tt };

    fn len(&mut self) -> Result<u64, Fault> {
        self.note(b'l');
        Ok(self.held)
    }

    fn read_at(&mut self, at: u64, out: &mut [u8]) -> Result<(), Fault> {
        self.note(b'r');
        for (k, byte) in out.iter_mut().enumerate() {
            *byte = EMPTY
                .get((at as usize).saturating_add(k))
                .copied()
                .unwrap_or(0);
        }
        Ok(())
    }

    fn write_at(&mut self, _at: u64, _piece: &[u8]) -> Result<(), Fault> {
        self.note(b'w');
        Ok(())
    }

    fn sync(&mut self) -> Result<(), Fault> {
        self.note(b's');
        Ok(())
    }

    fn failures(&self) -> u64 {
        0
    }
}

// Whether these were the calls of the journal's disk.
fn called(journal: Journal<NotingDisk>, calls: &[u8; 8]) -> bool {
    journal.into_disk().calls == *calls
}

#[test]
fn create_writes_and_then_syncs(rt: HostRuntime) {
    let journal = created(&rt, NotingDisk::new(0));
    assert!(rt; called(journal, b"lws....."));
}

#[test]
fn recover_syncs_first_and_writes_nothing(rt: HostRuntime) {
    let journal = recovered(&rt, NotingDisk::new(9));
    assert!(rt; called(journal, b"slrr...."));
}

#[test]
fn append_opens_the_gate_after_a_sync(rt: HostRuntime) {
    let mut journal = recovered(&rt, NotingDisk::new(9));
    assert!(rt; journal.append(b"abc") == Ok(()));
    assert!(rt; called(journal, b"slrrwsws"));
}
