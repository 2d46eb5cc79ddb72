//! The calls of one connection.

ghost use Rattle.std.specs.Prelude.{◌≡◌};

use blocks::CommitteeView;
use http_server::{Config, Connection};
use key_index_store::IndexStore;
use lmots::PrivateSeed;
use lms_tree::SigningTree;
use signer_service::{
    Commits, Event, Gate, NoSuccessor, Office, PutBack, Reception, Renewed, Rules, Seen, Signer,
    Sources, Tallies, Witness, serve_calls,
};
use signer_votes::{Checker, GoodVotes, SideBySide};
use stable_log::MemoryDisk;
use std::alloc::{AllocError, Global};
use std::hash::RandomState;
use std::marker::Brand;
use std::process::Abort;
use std::sync::Wait;
use std::sync::atomic::{AtomicU32, Ordering};
use std::sync::ledger::Blank;
use std::thread::Threads;
use std::time::Clock;
use test_fixtures::{certificates as texts, core_blocks, verdicts};
use vote_desk::{Desk, DeskNaming, Parts, Session};
use vote_log::VoteLog;

fn disk<R: Abort>(rt: &R, alloc: Global) -> MemoryDisk {
    let disk = MemoryDisk::new(alloc, Vec::new(alloc)).ok();
    disk.expect(rt, "a disk")
}

fn trees<R: Abort>(rt: &R, alloc: Global, replica: u8) -> Vec<SigningTree> {
    let secret = PrivateSeed {
        key_id: [replica; 16],
        seed: [replica.wrapping_add(16); 32],
    };
    let tree = SigningTree::generate(alloc, secret).ok();
    let trees = vec![in alloc; tree.expect(rt, "a key")].ok();
    trees.expect(rt, "memory")
}

fn index_store<R: Abort>(rt: &R, alloc: Global) -> IndexStore<MemoryDisk> {
    let index = IndexStore::create(alloc, disk(rt, alloc), 1).ok();
    index.expect(rt, "an index store")
}

fn log<R: Abort>(rt: &R, alloc: Global, committee: &CommitteeView) -> VoteLog<MemoryDisk> {
    let log = VoteLog::create(alloc, disk(rt, alloc), committee.genesis()).ok();
    log.expect(rt, "a log")
}

// The parts of a new replica.
fn parts<R: Abort>(
    rt: &R,
    alloc: Global,
    committee: &CommitteeView,
    replica: u8,
) -> Parts<MemoryDisk> {
    Parts {
        trees: trees(rt, alloc, replica),
        index: index_store(rt, alloc),
        log: log(rt, alloc, committee),
    }
}

const ON_GENESIS: &[u8] = b"POST /block HTTP/1.1\r\nhost: a\r\ncontent-length: 126\r\n\r\n";

const ON_A_BLOCK: &[u8] = b"POST /block HTTP/1.1\r\nhost: a\r\ncontent-length: 4491\r\n\r\n";

const OF_A_CERTIFICATE: &[u8] =
    b"POST /certificate HTTP/1.1\r\nhost: a\r\ncontent-length: 4407\r\n\r\n";

// The calls that deliver A1 to A4, of views 1 to 4, each on the one before; A4 commits A1, and comes twice. Behind them Z4, of view 4
// on genesis, and the certificate of A3, to be judged.
fn block_calls(alloc: Global) -> Result<Vec<u8>, AllocError> {
    let mut calls = Vec::new(alloc);
    for piece in [
        ON_GENESIS,
        core_blocks::a1(),
        texts::of_genesis(),
        ON_A_BLOCK,
        texts::header_a2(),
        core_blocks::certificate_of_a1(),
        ON_A_BLOCK,
        core_blocks::a3(),
        core_blocks::certificate_of_a2(),
        ON_A_BLOCK,
        core_blocks::a4(),
        core_blocks::certificate_of_a3(),
        ON_A_BLOCK,
        core_blocks::a4(),
        core_blocks::certificate_of_a3(),
        ON_GENESIS,
        core_blocks::z4(),
        texts::of_genesis(),
        OF_A_CERTIFICATE,
        core_blocks::certificate_of_a3(),
    ] {
        calls.extend_from_slice(piece)?;
    }
    Ok(calls)
}

// How many calls were answered, how many of them by 200, and how many were told that the log was put back.
#[derive(Drop)]
struct Counts {
    calls: AtomicU32,
    good: AtomicU32,
    put_back: AtomicU32,
}

impl Counts {
    fn new() -> Counts {
        Counts {
            calls: AtomicU32::new(0),
            good: AtomicU32::new(0),
            put_back: AtomicU32::new(0),
        }
    }

    fn all(&self) -> [u32; 3] {
        [
            self.calls.load(Ordering::SeqCst),
            self.good.load(Ordering::SeqCst),
            self.put_back.load(Ordering::SeqCst),
        ]
    }
}

impl Witness for Counts {
    fn saw(&self, call: &Seen<'_>) {
        self.calls.fetch_add(1, Ordering::SeqCst);
        if call.status == 200 {
            self.good.fetch_add(1, Ordering::SeqCst);
        }
        if let Event::PutBack(_) = call.event {
            self.put_back.fetch_add(1, Ordering::SeqCst);
        }
    }
}

// Whose desk is called, what its callers are let do, and who counts their calls.
#[derive(Drop)]
struct Scene<'a> {
    alloc: Global,
    committee: &'a CommitteeView<'a>,
    replica: u16,
    rules: &'a Rules,
    counts: &'a Counts,
}

// A desk, and its one session.
fn opened<N: DeskNaming>(
    scene: &Scene,
    blank: Blank,
    parts: Parts<MemoryDisk>,
) -> Option<(Desk<N, MemoryDisk>, Session<N>)>
    requires name { blank.name ≡ N.name }
    requires ledger { (blank.parts ≡ N.parts) × (N.parts ≡ 1) }
    requires committee { scene.now.committee.now ≡ N.committee }
    requires replica { scene.now.replica ≡ N.replica }
    requires opening { parts.log.steps ≡ N.opening }
{
    let (alloc, committee, replica) = (scene.alloc, scene.committee, scene.replica);
    let started = Desk::<N, MemoryDisk>::start(alloc, blank, committee, replica, parts, 1);
    let (desk, mut sessions) = started.ok()?;
    let session = sessions.pop()?;
    Some((desk, session))
}

// What a connection sends where this comes in.
fn answers<N: DeskNaming, T: Wait + Clock, V: Checker>(
    signer: &mut Signer<'_, N, T, MemoryDisk, V, NoSuccessor, Counts>,
    alloc: Global,
    keys: RandomState,
    input: &[u8],
) -> Option<Vec<u8>> {
    let mut connection = Connection::new(alloc, keys, Config::default());
    let mut reader = input;
    let mut writer = Vec::new(alloc);
    match serve_calls(signer, &mut connection, &mut reader, &mut writer) {
        Ok(()) => Some(writer),
        Err(_) => None,
    }
}

// .. at this desk.
fn answers_at<N: DeskNaming, R: Threads + Wait + Clock>(
    rt: &R,
    scene: &Scene,
    keys: RandomState,
    desk: &Desk<N, MemoryDisk>,
    session: Session<N>,
    sources: &Sources,
    input: &[u8],
) -> Option<Vec<u8>>
    requires committee { scene.now.committee.now ≡ N.committee }
    requires replica { scene.now.replica ≡ N.replica }
{
    let (commits, tallies) = (Commits::new(), Tallies::new(0));
    let (put_back, gate) = (PutBack::new(), Gate::new(false));
    let renewed = Renewed::new(scene.alloc).ok()?;
    let good = GoodVotes::new(scene.alloc);
    let checker = SideBySide::new(rt, &good);
    let office = Office {
        desk,
        committee: scene.committee,
        replica: scene.replica,
        keeper: &NoSuccessor,
        renewed: &renewed,
        put_back: &put_back,
    };
    let reception = Reception {
        gate: &gate,
        rules: scene.rules,
        commits: &commits,
        tallies: &tallies,
        sources,
        witness: scene.counts,
    };
    let mut signer = Signer::new(rt, scene.alloc, &office, &checker, &reception, session);
    answers(&mut signer, scene.alloc, keys, input)
}

// What goes out where this comes in. Of two sources that might be asked the second was heard.
fn sent<N: DeskNaming, R: Threads + Wait + Clock>(
    rt: &R,
    scene: &Scene,
    keys: RandomState,
    blank: Blank,
    parts: Parts<MemoryDisk>,
    input: &[u8],
) -> Option<Vec<u8>>
    requires name { blank.name ≡ N.name }
    requires ledger { (blank.parts ≡ N.parts) × (N.parts ≡ 1) }
    requires committee { scene.now.committee.now ≡ N.committee }
    requires replica { scene.now.replica ≡ N.replica }
    requires opening { parts.log.steps ≡ N.opening }
{
    let sources = Sources::new(scene.alloc, 2).ok()?;
    sources.set(1, true);
    let (desk, session) = opened::<N>(scene, blank, parts)?;
    answers_at(rt, scene, keys, &desk, session, &sources, input)
}

// The statuses in what went out, one behind the other.
fn statuses(alloc: Global, sent: &[u8]) -> Result<Vec<u8>, AllocError> {
    let mut all = Vec::new(alloc);
    for at in 0..sent.len() {
        if let Some(status) = sent[at..].strip_prefix(b"HTTP/1.1 ") {
            all.extend_from_slice(&status[..status.len().min(4)])?;
        }
    }
    Ok(all)
}

// Where the text stands in what went out, from this place on.
fn place_of(sent: &[u8], from: usize, text: &[u8]) -> Option<usize> {
    for at in from..sent.len() {
        if sent[at..].starts_with(text) {
            return Some(at);
        }
    }
    None
}

// Whether it holds all these texts.
fn has_all(sent: &[u8], texts: &[&[u8]]) -> bool {
    for text in texts {
        if place_of(sent, 0, text).is_none() {
            return false;
        }
    }
    true
}

// Whether the answers have these statuses, one behind the other, and hold all these texts.
fn are_answers(alloc: Global, sent: &[u8], wanted: &[u8], texts: &[&[u8]]) -> bool {
    match statuses(alloc, sent) {
        Ok(found) => found.as_slice() == wanted && has_all(sent, texts),
        Err(_) => false,
    }
}

const STATUSES: &[u8] =
    b"200 200 200 200 200 200 200 200 400 409 200 404 200 400 200 200 200 200 405 404 400 400 200 ";

// What is told of the calls, of A1 as the last commit, and by the metrics of the calls before.
const TOLD: [&[u8]; 31] = [
    b"\r\nwezhgula-api: 1\r\n",
    b"\r\n\r\nvoted 0 0000",
    b" committed 5b526f8ffa3d66249b11ba8431f9d960b08aad60e33b288aeef2d11f58c1c938\nHTTP/1.1 200",
    b"\r\n\r\nheld 4 7f8590adac467f490aab9dc8c593bf9f063cfe5c2ffb8dbb5ddf51458b07225a\n",
    b"\r\n\r\ngood\n",
    b"timeout 5\n",
    b"\r\n\r\nnot approved\n",
    b"refused call 7 Far\n",
    b"allow: GET, HEAD\r\n",
    b"\"vote_view\":\"5\",\"stored_vote_view\":\"4\"",
    b"\"committed\":{\"view\":\"1\",\"id\":\"5b526f8ffa3d66249b11ba8431f9d960b08aad60e33b288aeef2d11f58c1c938\"}}",
    b"_answers_total{answer=\"voted\"} 4\n",
    b"_answers_total{answer=\"held\"} 2\n",
    b"_answers_total{answer=\"timeout\"} 1\n",
    b"_block_seconds_count 6\n",
    b"_calls_total{reason=\"NoSuchCall\"} 1\n",
    b"_calls_total{reason=\"Method\"} 1\n",
    b"_calls_total{reason=\"Number\"} 2\n",
    b"_calls_total{reason=\"Host\"} 0\n",
    b"_calls_total{reason=\"Far\"} 1\n",
    b"_calls_total{reason=\"NoVote\"} 1\n",
    b"_calls_total{reason=\"Target\"} 1\n",
    b"_calls_total{reason=\"NotHeld\"} 0\n",
    b"_calls_total{reason=\"Length\"} 1\n",
    b"hs_signer_vote_view 5\n",
    b"hs_signer_committed_view 1\n",
    b"hs_signer_asking 0\n",
    b"hs_signer_source_heard{source=\"0\"} 0\nhs_signer_source_heard{source=\"1\"} 1\n",
    b"hs_signer_stopped 0\n",
    b",\"next\":\"none\",\"reserve\":\"none\",\"committees\":1,\"kept_committees\":0,\"committed\":",
    b"hs_signer_next 0\n",
];

// The line from this place on, without its line feed.
fn line_at(sent: &[u8], at: usize) -> Option<&[u8]> {
    let rest = sent.get(at..)?;
    rest.get(..place_of(rest, 0, b"\n")?)
}

// Whether the first two lines that begin so are alike.
fn is_told_twice(sent: &[u8], text: &[u8]) -> bool {
    let Some(first) = place_of(sent, 0, text) else {
        return false;
    };
    let Some(second) = place_of(sent, first.saturating_add(1), text) else {
        return false;
    };
    match (line_at(sent, first), line_at(sent, second)) {
        (Some(line), Some(again)) => line == again,
        _ => false,
    }
}

const CALLS: &[u8] = b"POST /timeout/5 HTTP/1.1\r\nhost: a\r\n\r\n\
POST /timeout/05 HTTP/1.1\r\nhost: a\r\n\r\n\
POST /timeout/9000 HTTP/1.1\r\nhost: a\r\n\r\n\
GET /vote/1 HTTP/1.1\r\nhost: a\r\n\r\n\
GET /vote/5 HTTP/1.1\r\nhost: a\r\n\r\n\
GET /log?most=1&first=0 HTTP/1.1\r\nhost: a\r\n\r\n\
GET /log?first=0&first=1 HTTP/1.1\r\nhost: a\r\n\r\n\
GET /successor?payload=0000000000000000000000000000000000000000000000000000000000000000 HTTP/1.1\r\nhost: a\r\n\r\n\
GET /status HTTP/1.1\r\nhost: a\r\n\r\n\
GET /health HTTP/1.1\r\nhost: a\r\n\r\n\
HEAD /live HTTP/1.1\r\nhost: a\r\n\r\n\
DELETE /live HTTP/1.1\r\nhost: a\r\n\r\n\
GET /nowhere HTTP/1.1\r\nhost: a\r\n\r\n\
GET /live?now HTTP/1.1\r\nhost: a\r\n\r\n\
POST /vote HTTP/1.1\r\nhost: a\r\ncontent-length: 1\r\n\r\n0\
GET /metrics HTTP/1.1\r\nhost: a\r\n\r\n";

const WITH_SEVERAL_BLOCKS: &[u8] =
    b"POST /blocks HTTP/1.1\r\nhost: a\r\ncontent-length: 9125\r\n\r\n";

// A1, A2, a byte that is no block, and A3, in one call; what is no block behind its length; and the votes in views 2 and 3.
fn calls_of_several(alloc: Global) -> Result<Vec<u8>, AllocError> {
    let mut calls = Vec::new(alloc);
    for piece in [
        WITH_SEVERAL_BLOCKS,
        b"\0\0\0\x7e",
        core_blocks::a1(),
        texts::of_genesis(),
        b"\0\0\x11\x8b",
        texts::header_a2(),
        core_blocks::certificate_of_a1(),
        b"\0\0\0\x010",
        b"\0\0\x11\x8b",
        core_blocks::a3(),
        core_blocks::certificate_of_a2(),
        b"POST /blocks HTTP/1.1\r\nhost: a\r\ncontent-length: 5\r\n\r\n\0\0\0\x020",
        b"GET /vote/2 HTTP/1.1\r\nhost: a\r\n\r\nGET /vote/3 HTTP/1.1\r\nhost: a\r\n\r\n",
    ] {
        calls.extend_from_slice(piece)?;
    }
    Ok(calls)
}

// A2, whose certificate of A1 has a vote of replica 1, which its empty log lacks, and then other calls.
fn put_back_calls(alloc: Global) -> Result<Vec<u8>, AllocError> {
    let mut calls = Vec::new(alloc);
    for piece in [
        ON_A_BLOCK,
        texts::header_a2(),
        core_blocks::certificate_of_a1(),
        b"POST /timeout/1 HTTP/1.1\r\nhost: a\r\n\r\nGET /health HTTP/1.1\r\nhost: a\r\n\r\nGET /vote/1 HTTP/1.1\r\nhost: a\r\n\r\n",
    ] {
        calls.extend_from_slice(piece)?;
    }
    Ok(calls)
}

// What goes out where replica R gets these calls, and how many calls were answered, how many by 200, and how many were told that its
// log was put back.
fn told<R: Abort + Threads + Wait + Clock>(
    rt: &R,
    alloc: Global,
    keys: RandomState,
    replica: u8,
    input: &[u8],
) -> (Option<Vec<u8>>, [u32; 3]) {
    let committee = CommitteeView::parse(verdicts::committee())
        .ok()
        .expect(rt, "a committee");
    let rules = Rules {
        over_tcp: false,
        hosts: Vec::new(alloc),
        reads_only: false,
        renews: false,
        furthest: 4096,
    };
    let parts = parts(rt, alloc, &committee, replica);
    let blank = Blank::new(1);
    let counts = Counts::new();
    let scene = Scene {
        alloc,
        committee: &committee,
        replica: u16::from(replica),
        rules: &rules,
        counts: &counts,
    };
    let sent = sent::<Brand, R>(rt, &scene, keys, blank, parts, input);
    (sent, counts.all())
}

#[test]
fn a_replica_answers_calls(rt: HostRuntime) {
    let alloc = rt.alloc();
    let mut input = block_calls(alloc).expect(&rt, "memory");
    input.extend_from_slice(CALLS).expect(&rt, "memory");
    let keys = RandomState::new(&rt).ok().expect(&rt, "keys");
    let (sent, counted) = told(&rt, alloc, keys, 0, &input);
    let sent = sent.expect(&rt, "answers");
    assert!(rt; counted == [23, 15, 0]);
    assert!(rt; are_answers(alloc, &sent, STATUSES, &TOLD));
    assert!(rt; is_told_twice(&sent, b"voted 3 0000"));
}

#[test]
fn a_log_that_was_put_back_is_told(rt: HostRuntime) {
    let alloc = rt.alloc();
    let input = put_back_calls(alloc).expect(&rt, "memory");
    let keys = RandomState::new(&rt).ok().expect(&rt, "keys");
    let (sent, counted) = told(&rt, alloc, keys, 1, &input);
    let sent = sent.expect(&rt, "answers");
    assert!(rt; counted == [4, 0, 2]);
    assert!(rt; are_answers(alloc, &sent, b"500 500 503 404 ", &[PUT_BACK]));
}

// What is told of A1.
const PUT_BACK: &[u8] =
    b"\r\n\r\nstopped vote view 1 id 5b526f8ffa3d66249b11ba8431f9d960b08aad60e33b288aeef2d11f58c1c938 not in the log\n";

#[test]
fn several_blocks_end_at_the_first_that_is_refused(rt: HostRuntime) {
    let alloc = rt.alloc();
    let input = calls_of_several(alloc).expect(&rt, "memory");
    let keys = RandomState::new(&rt).ok().expect(&rt, "keys");
    let (sent, counted) = told(&rt, alloc, keys, 0, &input);
    let sent = sent.expect(&rt, "answers");
    assert!(rt; counted == [4, 1, 0]);
    assert!(rt; are_answers(alloc, &sent, b"400 400 200 404 ", &OF_SEVERAL));
    assert!(rt; is_told_twice(&sent, b"voted 1 0000"));
}

// What is told of them.
const OF_SEVERAL: [&[u8]; 3] = [
    b"\r\n\r\nvoted 0 0000",
    b"\nrefused header 1 Length\nHTTP/1.1 400",
    b"\r\n\r\nrefused call 11 Length\n",
];
