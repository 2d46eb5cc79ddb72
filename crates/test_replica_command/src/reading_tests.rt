//! What lines ask for. The expected words follow from docs/FORMATS.md.

use crate::stored::block_line;
use base_streams::{Feed, MemoryFeed};
use replica_requests::{LONGEST_LINE, LineRequest, MOST_LINES, Request, read_requests};
use std::alloc::{AllocError, Global};
use std::process::Abort;
use std::test::Fail;

// A request in a word or two.
fn described(alloc: Global, request: &LineRequest) -> Result<String, AllocError> {
    let LineRequest::Asked(request) = request else {
        return format!(in alloc; "bad line");
    };
    match request {
        Request::Block(header, certificate) => {
            let view = header.view;
            let count = certificate.count();
            format!(in alloc; "block of view {view} with {count} votes")
        }
        Request::Timeout(view) => format!(in alloc; "timeout {view}"),
        Request::RefusedHeader(refusal) => {
            let number = refusal.number();
            format!(in alloc; "header {number}")
        }
        Request::RefusedCertificate(refusal) => {
            let number = refusal.number();
            format!(in alloc; "certificate {number}")
        }
    }
}

// Whether the text is one line, and what it asks for is described so.
fn asks(alloc: Global, text: &str, want: &str) -> Result<bool, AllocError> {
    let mut feed = MemoryFeed::new(text.as_bytes().to_vec(alloc)?);
    let requests = read_requests(alloc, &mut feed)?;
    let [request] = requests.as_slice() else {
        return Ok(false);
    };
    let said = described(alloc, request)?;
    Ok(said.as_str() == want)
}

#[test]
fn each_form_of_a_line_is_told(rt: HostRuntime) -> Result<(), Fail> {
    let alloc = rt.alloc();
    let block = block_line();
    let mut upper = String::new(alloc);
    upper.push_str("block ")?;
    upper.push_str(block.get(6..).unwrap_or(""))?;
    for (line, want) in [
        (block, "block of view 1 with 0 votes"),
        // One byte less, and one more.
        (block.get(..256).unwrap_or(""), "certificate 2"),
        ("block ", "header 1"),
        ("block 00", "header 1"),
        ("block 0", "bad line"),
        ("block 0g", "bad line"),
        ("block", "bad line"),
        ("block  00", "bad line"),
        ("Block 00", "bad line"),
        ("timeout 0", "timeout 0"),
        ("timeout 9\n", "timeout 9"),
        (
            "timeout 18446744073709551615",
            "timeout 18446744073709551615",
        ),
        ("timeout 18446744073709551616", "bad line"),
        ("timeout 09", "bad line"),
        ("timeout +9", "bad line"),
        ("timeout -1", "bad line"),
        ("timeout ", "bad line"),
        ("timeout 9 ", "bad line"),
        ("timeout 9\r\n", "bad line"),
        (" timeout 9", "bad line"),
        ("\n", "bad line"),
        ("é", "bad line"),
    ] {
        let is_so = asks(alloc, line, want)?;
        assert!(rt; is_so, "{line}");
    }
    Ok(())
}

// Zeros behind "block ", so that the line has this length.
fn long_line(alloc: Global, length: usize) -> Result<Vec<u8>, AllocError> {
    let mut line = b"block ".to_vec(alloc)?;
    for _ in line.len()..length {
        line.push(b'0')?;
    }
    Ok(line)
}

#[test]
fn a_line_is_read_up_to_its_limit(rt: HostRuntime) -> Result<(), Fail> {
    let alloc = rt.alloc();
    for (length, want) in [
        // No header begins with zeros.
        (LONGEST_LINE, "header 2"),
        (LONGEST_LINE + 1, "bad line"),
        (LONGEST_LINE + 2, "bad line"),
    ] {
        let mut text = long_line(alloc, length)?;
        text.extend_from_slice(b"\ntimeout 7")?;
        let requests = read_requests(alloc, &mut MemoryFeed::new(text))?;
        let [long, short] = requests.as_slice() else {
            return Err("not two lines".into());
        };
        assert!(rt; described(alloc, long)?.as_str() == want, "{length}");
        assert!(rt;
            described(alloc, short)?.as_str() == "timeout 7",
            "{length}"
        );
    }
    Ok(())
}

#[test]
fn lines_are_read_up_to_their_limit(rt: HostRuntime) -> Result<(), Fail> {
    for (count, want) in [(MOST_LINES, MOST_LINES), (MOST_LINES + 1, MOST_LINES)] {
        let text = vec![in rt.alloc(); b'\n'; count]?;
        let requests = read_requests(rt.alloc(), &mut MemoryFeed::new(text))?;
        assert!(rt; requests.len() == want, "{count}");
    }
    Ok(())
}

#[test]
fn a_failed_read_drops_the_line_that_it_may_have_cut(rt: HostRuntime) -> Result<(), Fail> {
    let alloc = rt.alloc();
    let mut text = Vec::new(alloc);
    for _ in 0..500 {
        text.extend_from_slice(b"timeout 12\n")?;
    }
    let mut feed = MemoryFeed::new(text);
    feed.fuse(1, false);
    let before = read_requests(alloc, &mut feed)?;
    let behind = read_requests(alloc, &mut feed)?;
    // What is left of the cut line is no line of its own kind.
    assert!(rt; feed.failures() == 1 && before.len() + behind.len() == 500);
    let is_cut = matches!(behind.first(), Some(LineRequest::BadLine));
    assert!(rt; is_cut);
    for request in &before {
        assert!(rt; matches!(request, LineRequest::Asked(Request::Timeout(12))));
    }
    Ok(())
}
