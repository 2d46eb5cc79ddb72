//! Devices in memory, with and without failures, and a stream that tells its bytes. What they give is worked out by
//! hand.

use base_streams::{Feed, MemoryFeed, MemorySink, Sink, StdFeed, StdSink, write_all};

// Whether of three writes the second fails, and with `forever` the third too.
fn sink_fails(sink: &mut MemorySink, forever: bool) -> bool {
    sink.fuse(1, forever);
    sink.write(b"ab") == Ok(2)
        && sink.write(b"cd").is_err()
        && sink.write(b"ef").is_err() == forever
}

#[test]
fn a_sink_fails_once_or_forever(rt: HostRuntime) {
    for (forever, failures, bytes) in [(false, 1, b"abef".as_slice()), (true, 2, b"ab")] {
        let mut sink = MemorySink::new(rt.alloc());
        assert!(rt; sink_fails(&mut sink, forever), "{forever}");
        assert!(rt;
            sink.failures() == failures && sink.bytes() == bytes,
            "{forever}"
        );
    }
}

// Whether of three reads the second fails, and with `forever` the third too, where a feed holds "abc".
fn feed_fails(feed: &mut MemoryFeed, forever: bool) -> bool {
    let mut buffer = [0; 2];
    feed.fuse(1, forever);
    feed.read(&mut buffer) == Ok(2)
        && buffer == *b"ab"
        && feed.read(&mut buffer).is_err()
        && feed.read(&mut buffer).is_err() == forever
        && buffer[0] == if forever { b'a' } else { b'c' }
}

#[test]
fn a_feed_fails_once_or_forever(rt: HostRuntime) {
    for forever in [false, true] {
        let bytes = b"abc".to_vec(rt.alloc()).expect(&rt, "memory");
        assert!(rt;
            feed_fails(&mut MemoryFeed::new(bytes), forever),
            "{forever}"
        );
    }
}

#[test]
fn a_feed_ends(rt: HostRuntime) {
    let mut feed = MemoryFeed::new(Vec::new(rt.alloc()));
    assert!(rt; feed.read(&mut [0; 4]) == Ok(0) && feed.failures() == 0);
}

#[test]
fn streams_are_handed_on(rt: HostRuntime) {
    let mut feed = StdFeed::new(b"abcd".as_slice());
    let mut buffer = [0; 3];
    assert!(rt; feed.read(&mut buffer) == Ok(3) && buffer == *b"abc" && feed.failures() == 0);
    let mut sink = StdSink::new(Vec::new(rt.alloc()));
    assert!(rt; write_all(&mut sink, b"abc") == Ok(()) && sink.failures() == 0);
}
