//! A folder has one replica at a time, and none where a file says so.

use base_streams::{Feed, MemoryFeed, MemorySink};
use base_wire::KeyNumber;
use blocks::CommitteeView;
use replica_command::{ReplicaFault, ReplicaFile, run_replica};
use replica_files::KeyFile;
use std::alloc::Global;
use std::fs;
use std::fs::{File, Files, OpenOptions};
use std::sync::Wait;
use std::test::Fail;
use std::thread::Threads;
use test_fixtures::verdicts;

// The lock of a folder is held: a replica opens nothing, reads no line, and answers nothing.
#[test]
fn a_second_replica_of_a_folder_is_refused(rt: HostRuntime) -> Result<(), Fail> {
    let alloc = rt.alloc();
    let committee = CommitteeView::parse(verdicts::committee()).ok();
    let committee = committee.ok_or("the committee is refused")?;
    fs::create_dir(&rt, "held")?;
    let mut how = OpenOptions::new();
    how.read(true).write(true).create(true);
    let held = how.open(&rt, "held/lock")?;
    held.try_lock().ok().ok_or("the lock is not got")?;
    let mut lines = MemoryFeed::new(b"timeout 1\n".to_vec(alloc)?);
    let mut out = MemorySink::new(alloc);
    let refused = run_replica(
        &rt, &rt, alloc, &committee, 0, "held", 1, &mut lines, &mut out,
    );
    let fault = refused.err();
    assert!(rt; fault == Some(ReplicaFault::File(ReplicaFile::Lock)));
    drop(held);
    let refused = run_replica(
        &rt, &rt, alloc, &committee, 0, "held", 1, &mut lines, &mut out,
    );
    let fault = refused.err();
    assert!(rt;
        fault == Some(ReplicaFault::File(ReplicaFile::Key(KeyFile::Seed(KeyNumber::Zero))))
    );
    let mut rest = [0; 16];
    let read = lines.read(&mut rest).ok();
    assert!(rt; read == Some(10) && out.bytes().is_empty());
    fs::remove_file(&rt, "held/lock")?;
    fs::remove_dir(&rt, "held")?;
    Ok(())
}

// What a replica of the folder, in which is no seed, gives up for.
fn fault_in<R: Files<File = File> + Threads + Wait + Sync>(
    rt: &R,
    alloc: Global,
    folder: &str,
) -> Option<ReplicaFault> {
    let committee = CommitteeView::parse(verdicts::committee()).ok()?;
    let mut lines = MemoryFeed::new(Vec::new(alloc));
    let mut out = MemorySink::new(alloc);
    let refused = run_replica(
        rt, rt, alloc, &committee, 0, folder, 1, &mut lines, &mut out,
    );
    refused.err()
}

// None is run where its log was put back, nor where a disk failed until an operator removes the file that says so.
#[test]
fn a_folder_that_is_not_to_be_run_is_refused(rt: HostRuntime) -> Result<(), Fail> {
    let alloc = rt.alloc();
    let seed = Some(ReplicaFault::File(ReplicaFile::Key(KeyFile::Seed(KeyNumber::Zero))));
    let failed = Some(ReplicaFault::File(ReplicaFile::DiskFailed));
    let forgot = Some(ReplicaFault::File(ReplicaFile::PutBack));
    fs::create_dir(&rt, "refused")?;
    assert!(rt; fault_in(&rt, alloc, "refused") == seed);
    fs::write(&rt, "refused/disk-failed", b"")?;
    assert!(rt; fault_in(&rt, alloc, "refused") == failed);
    fs::write(&rt, "refused/put-back", b"")?;
    assert!(rt; fault_in(&rt, alloc, "refused") == forgot);
    fs::remove_file(&rt, "refused/disk-failed")?;
    assert!(rt; fault_in(&rt, alloc, "refused") == forgot);
    fs::remove_file(&rt, "refused/put-back")?;
    assert!(rt; fault_in(&rt, alloc, "refused") == seed);
    fs::remove_file(&rt, "refused/lock")?;
    fs::remove_dir(&rt, "refused")?;
    Ok(())
}
