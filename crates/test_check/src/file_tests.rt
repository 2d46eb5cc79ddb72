//! How much of a file is read. The limit is that of docs/hs_check.md.

use program_check::Texts;
use std::fs;
use std::fs::{File, Files};
use std::process::Abort;
use std::test::Fail;

// Of a file of so many bytes so many are read, as committee and as verdict.
fn reads<R: Files<File = File> + AllocGlobal + Abort>(
    rt: &R,
    length: usize,
    read: usize,
) -> Result<(), Fail> {
    let digits = vec![in rt.alloc(); b'0'; length]?;
    fs::write(rt, "long", &digits)?;
    let texts = Texts::from_files(rt, rt.alloc(), "long", "long");
    let texts = texts.ok().ok_or("a fault")?;
    let is_read = texts.committee.len() == read && texts.verdict.len() == read;
    assert!(rt; is_read, "of {length} bytes");
    Ok(())
}

#[test]
fn files_are_read_up_to_the_limit(rt: HostRuntime) -> Result<(), Fail> {
    for (length, read) in [(16_384, 16_384), (16_385, 16_384)] {
        reads(&rt, length, read)?;
    }
    fs::remove_file(&rt, "long")?;
    Ok(())
}
