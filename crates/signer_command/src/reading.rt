//! Calls that only read, of many connections in one thread.

ghost use Rattle.std.specs.Prelude.{◌≡◌, true};

use base_sockets::{Answerer, Bounds, Rules};
use http_server::{Config, Connection};
use http1::Limits;
use signer_calls::MOST_BLOCKS_AT_ONCE;
use signer_service::{Approver, Keeper, Signer, Witness, serve_calls};
use signer_votes::Checker;
use stable_log::Disk;
use std::alloc::Global;
use std::hash::RandomState;
use std::io;
use std::io::{Read, Write};
use std::sync::Wait;
use std::time::Clock;
use vote_desk::DeskNaming;

/// How long a connection has in all, in milliseconds: to send its calls and to take their answers.
const BOUNDS: Bounds = Bounds {
    asking: 10_000,
    answering: 10_000,
    whole: 10_000,
};

/// From how many bytes on that were made and not taken, over the connections of one thread, no further answer is made but short ones. One
/// answer has at most 64 entries of a log: 3 MB. 512 short ones have at most 6 MB. So the two threads hold at most 64 MB.
const FULL: usize = 20 * 1024 * 1024;

/// How the calls of probes and scrapes begin, whose answers have at most some 12 KB.
pub(crate) const SHORT: &[&[u8]] = &[
    b"GET /metrics",
    b"GET /status",
    b"GET /health",
    b"GET /live",
];

/// The longest body of a call that only reads: the length of a renewal (4 bytes), one with 31 signatures (45,183), and the file of a
/// committee of 31 replicas with a place for four keys each (7,200). Nothing is posted there, but who tries is told so.
const LONGEST_BODY: usize = 52_387;

/// The longest body of who may post: 64 blocks of 31 votes each, each behind its length.
pub(crate) const LONGEST_POST: usize = MOST_BLOCKS_AT_ONCE * (4 + LONGEST_BLOCK);

const LONGEST_BLOCK: usize = 45_231;

/// How many bytes of one call are kept at most: a head of 16,384 and the longest body.
pub(crate) const MOST_OF_A_CALL: usize = 69_632;

/// What one of the threads holds its connections to, of which it has so many.
pub(crate) fn rules(most: usize) -> Rules {
    Rules {
        bounds: BOUNDS,
        most,
        full: FULL,
    }
}

/// What a connection for calls is held to, whose bodies have so many bytes at most.
pub(crate) fn config(longest: usize) -> Config {
    Config {
        limits: Limits::default(),
        max_body_len: longest,
        max_pending: 65_536,
        read_size: 65_536,
    }
}

/// Answers calls that only read: its caller may post nothing.
#[derive(Drop)]
pub(crate) struct Reader<
    'a,
    N: DeskNaming,
    T: Wait + Clock,
    D: Disk,
    V: Checker,
    A: Approver + Keeper,
    S: Witness,
> {
    pub alloc: Global,
    pub keys: RandomState,
    pub signer: Signer<'a, N, T, D, V, A, S>,
    pub ghost reads_only: { signer.reception.now.rules.now.reads_only ≡ true },
}

impl<N: DeskNaming, T: Wait + Clock, D: Disk, V: Checker, A: Approver + Keeper, S: Witness> Answerer
    for Reader<'_, N, T, D, V, A, S> {
    fn answer<R: Read, W: Write>(&mut self, reader: &mut R, writer: &mut W) -> io::Result<()> {
        let mut connection = Connection::new(self.alloc, self.keys, config(LONGEST_BODY));
        serve_calls(&mut self.signer, &mut connection, reader, writer)
    }
}
