//! A source that serves a log, call by call.

ghost use Rattle.std.specs.Prelude.{◌≡◌, ⊤};
ghost use Rattle.log_transfer.specs.Connections.{ended};

use crate::serve_tests::log_of_nine;
use crate::sources::gives;
use base_streams::{Fault, Feed, Fuse, MemoryFeed, MemorySink};
use log_format::{FrameRequest, Status};
use log_server::serve;
use log_transfer::Connector;
use stable_log::MemoryDisk;
use std::alloc::Global;
use std::process::Abort;
use vote_log::VoteLog;

// Serves each request of its reader from a log, and fails where it is told to.
#[derive(Drop)]
struct ServedSource {
    alloc: Global,
    log: VoteLog<MemoryDisk>,
    answer: MemoryFeed,
    // How many bytes were read since the last connect.
    taken: usize,
    fuse: Fuse,
    failures: u64,
}

impl ServedSource {
    fn new(alloc: Global, log: VoteLog<MemoryDisk>, fuse: Fuse) -> ServedSource {
        ServedSource {
            alloc,
            log,
            answer: MemoryFeed::new(Vec::new(alloc)),
            taken: 0,
            fuse,
            failures: 0,
        }
    }
}

// The answer to a request.
fn ask(
    alloc: Global,
    log: &mut VoteLog<MemoryDisk>,
    request: FrameRequest,
) -> Result<MemoryFeed, Fault> {
    let Ok(text) = request.to_bytes().to_vec(alloc) else {
        return Err(Fault);
    };
    let mut sink = MemorySink::new(alloc);
    if serve(log, &mut MemoryFeed::new(text), &mut sink).is_err() {
        return Err(Fault);
    }
    match sink.bytes().to_vec(alloc) {
        Ok(bytes) => Ok(MemoryFeed::new(bytes)),
        Err(_) => Err(Fault),
    }
}

impl Connector for ServedSource {
    ghost gives = { λ s k first most c. ⊤ };

    ghost left = { λ s c. ⊤ };

    ghost asked = { λ s t first most. ⊤ };

    ghost taken = { λ s. s.taken };

    ghost failed = { λ s. s.failures };

    ghost reaches = { λ s t. ⊤ };

    ghost allowed = { λ s. 3 };

    fn connect(&mut self, first: u32, most: u32) -> Result<(), Fault> {
        self.taken = 0;
        if !self.fuse.burns() {
            if let Ok(answer) = ask(self.alloc, &mut self.log, FrameRequest { first, most }) {
                self.answer = answer;
                return Ok(());
            }
        }
        self.failures = self.failures.saturating_add(1);
        Err(Fault)
    }

    fn read(&mut self, buffer: &mut [u8]) -> Result<usize, Fault> {
        if !self.fuse.burns() {
            if let Ok(n) = self.answer.read(buffer) {
                self.taken += n;
                return Ok(n);
            }
        }
        self.failures = self.failures.saturating_add(1);
        Err(Fault)
    }

    fn most_tries(&self) -> u8 {
        3
    }

    fn failures(&self) -> u64 {
        self.failures
    }

    ghost some = { λ s. (ended, tt) };

    ghost stays = { λ s. tt };
}

// Of nine frames: one connect, the magic, a length and a payload of each, and the two halves of the end mark.
const CALLS: u32 = 22;

#[test]
fn each_call_fails_once(rt: HostRuntime) {
    for pass in 0..=CALLS {
        let log = log_of_nine(&rt);
        let mut source = ServedSource::new(rt.alloc(), log, Fuse::set(pass, false));
        assert!(rt;
            gives(rt.alloc(), &mut source, 3, 9, Status::Whole),
            "after {pass} calls"
        );
        assert!(rt;
            (source.failures() == 1) == (pass < CALLS),
            "after {pass} calls"
        );
    }
}

#[test]
fn each_call_fails_and_all_behind_it(rt: HostRuntime) {
    for pass in 0..CALLS {
        let log = log_of_nine(&rt);
        let mut source = ServedSource::new(rt.alloc(), log, Fuse::set(pass, true));
        let came = (pass as usize).saturating_sub(2) / 2;
        assert!(rt;
            gives(rt.alloc(), &mut source, 3, came, Status::Failed),
            "after {pass} calls"
        );
        assert!(rt; source.failures() == 3, "after {pass} calls");
    }
}
