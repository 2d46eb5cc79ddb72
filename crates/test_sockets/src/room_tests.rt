//! How many files may be open.

use base_sockets::{most_open_files, most_open_files_by};
use std::alloc::Global;
use std::fs::{File, Files};
use std::test::Fail;
use std::{fs, io};

// Texts of limits, and how many files they let be open.
const TEXTS: [(&[u8], u64); 3] = [
    (
        b"Limit   Soft Limit  Hard Limit  Units\nMax processes  7  8  processes\nMax open files            4096                 524288               files\n",
        4_096,
    ),
    (b"Max open files  unlimited unlimited files\n", u64::MAX),
    // None is told.
    (b"Max cpu time  1 2 s\n", 1_024),
];

fn most_by<F: Files<File = File>>(files: &F, alloc: Global, text: &[u8]) -> io::Result<u64> {
    fs::write(files, "limits", text)?;
    let most = most_open_files_by(files, alloc, "limits");
    fs::remove_file(files, "limits")?;
    Ok(most)
}

#[test]
fn the_limit_is_read(rt: HostRuntime) -> Result<(), Fail> {
    for (text, want) in TEXTS {
        let most = most_by(&rt, rt.alloc(), text)?;
        assert!(rt; most == want);
    }
    assert!(rt; most_open_files_by(&rt, rt.alloc(), "no-limits") == 1_024);
    assert!(rt; most_open_files(&rt, rt.alloc()) > 0);
    Ok(())
}
