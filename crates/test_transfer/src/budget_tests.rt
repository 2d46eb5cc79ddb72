//! How many bytes of one connection are read.

use log_transfer::Budget;
use std::io;
use std::io::Read;
use std::process::Abort;

// Answers that it filled each buffer, and writes nothing.
#[derive(Drop)]
struct Unending;

impl Read for Unending {
    fn read(&mut self, buffer: &mut [u8]) -> io::Result<usize> {
        Ok(buffer.len())
    }
}

// 268,451,852 bytes are 65,540 buffers of 4,096, and 12 bytes.
#[test]
fn a_connection_is_read_for_so_many_bytes(rt: HostRuntime) {
    let mut budget = Budget::new();
    let mut buffer = [0; 4096];
    for _ in 0..65_540u32 {
        assert!(rt; budget.read(&mut Unending, &mut buffer).ok() == Some(4096));
    }
    assert!(rt; budget.read(&mut Unending, &mut buffer).ok() == Some(12));
    assert!(rt; budget.read(&mut Unending, &mut buffer).is_err());
    assert!(rt; budget.read(&mut Unending, &mut []).ok() == Some(0));
}
