//! Long exports, which are made and not stored.

use std::alloc::{AllocError, Global};
use std::fs::{File, Files};
use std::{fs, io};

/// `frames COUNT LENGTH FILE`: makes an export of so many frames, each of so many zero bytes. Answers 0, or 2 where that
/// fails.
pub fn make_frames<R: Files<File = File> + AllocGlobal>(rt: &R, words: &[String]) -> u8 {
    match made(rt, words) {
        Ok(()) => 0,
        Err(_) => 2,
    }
}

fn made<R: Files<File = File> + AllocGlobal>(rt: &R, words: &[String]) -> io::Result<()> {
    let [count, length, path] = words else {
        return Err(io::Error::from(io::ErrorKind::InvalidInput));
    };
    let (Ok(count), Ok(length)) = (count.parse::<u32>(), length.parse::<u32>()) else {
        return Err(io::Error::from(io::ErrorKind::InvalidInput));
    };
    let stream = frames(rt.alloc(), count, length)?;
    fs::write(rt, path.as_str(), &stream)
}

fn frames(alloc: Global, count: u32, length: u32) -> Result<Vec<u8>, AllocError> {
    let payload = vec![in alloc; 0u8; length as usize]?;
    let mut stream = b"HSL1".to_vec(alloc)?;
    for _ in 0..count {
        stream.extend_from_slice(&length.to_be_bytes())?;
        stream.extend_from_slice(&payload)?;
    }
    stream.extend_from_slice(&[0; 4])?;
    stream.extend_from_slice(&count.to_be_bytes())?;
    Ok(stream)
}
