//! Keygen over a folder and a sink in memory. Which calls fail is said by a fuse.

use base_streams::{MemorySink, Sink};
use base_wire::KeyNumber;
use lmots::PrivateSeed;
use replica_files::{KeyFault, KeyFile, MakeFolder, MemoryFolder, Readers, make_key};
use std::alloc::Global;
use std::process::Abort;
use std::test::Fail;
use std::thread::Threads;

/// The key of replica 2 of the fixtures: a key id of 16 bytes 02, and a seed of 32 bytes 12.
const SECRET: PrivateSeed = PrivateSeed {
    key_id: [0x02; 16],
    seed: [0x12; 32],
};

const PUBLIC_KEY: &[u8; 56] =
    b"\0\0\0\x06\0\0\0\x04\x02\x02\x02\x02\x02\x02\x02\x02\x02\x02\x02\x02\x02\x02\x02\x02\
\x81\x7b\xd0\xf0\x82\xb6\x97\xb0\xa2\x53\x08\x9b\x4d\x09\x9f\x68\xd4\x4e\xbf\x26\x01\xdf\x27\x33\x93\xab\xd0\xb5\x19\xe2\xe8\x85";

const LINE: &str =
    "key 000000060000000402020202020202020202020202020202817bd0f082b697b0a253089b4d099f68d44ebf2601df273393abd0b519e2e885\n";

/// A further key: a key id of 16 bytes 20, and a seed of 32 bytes 30.
const FURTHER: PrivateSeed = PrivateSeed {
    key_id: [0x20; 16],
    seed: [0x30; 32],
};

const FURTHER_PUBLIC_KEY: &[u8; 56] =
    b"\0\0\0\x06\0\0\0\x04\x20\x20\x20\x20\x20\x20\x20\x20\x20\x20\x20\x20\x20\x20\x20\x20\
\x66\x0d\xe6\xc8\x78\x62\xc5\x51\x4e\x0c\x43\x55\x05\x80\xb9\xbe\x7f\xb1\x26\xb3\xe5\x2e\x1b\x04\x79\xe6\xc6\xa0\x8d\xae\xe9\xec";

const FURTHER_LINE: &str =
    "key 000000060000000420202020202020202020202020202020660de6c87862c5514e0c43550580b9be7fb126b3e52e1b0479e6c6a08daee9ec\n";

const SEED: KeyFile = KeyFile::Seed(KeyNumber::Zero);

const PUBLIC: KeyFile = KeyFile::PublicKey(KeyNumber::Zero);

const THIRD_SEED: KeyFile = KeyFile::Seed(KeyNumber::Three);

const THIRD_PUBLIC: KeyFile = KeyFile::PublicKey(KeyNumber::Three);

// What the folder holds at place `i`.
fn holds(folder: &MemoryFolder, i: usize, name: &str, bytes: &[u8]) -> bool {
    match folder.files().get(i) {
        Some(file) => file.name() == name.as_bytes() && file.bytes() == bytes,
        None => false,
    }
}

fn has_all(folder: &MemoryFolder) -> bool {
    let mut seed = [0x12; 48];
    seed[..16].copy_from_slice(&[0x02; 16]);
    folder.files().len() == 4
        && holds(folder, 0, "key.seed", &seed)
        && holds(folder, 1, "key.pub", PUBLIC_KEY)
        && holds(folder, 2, "index.hsj", b"HSJ1\0\0\0\0\0")
        && holds(folder, 3, "log.hsj", b"HSJ1\0\0\0\0\0")
}

// Makes the first key in a folder.
fn make_first<R: Threads + Sync>(
    rt: &R,
    alloc: Global,
    folder: &mut MemoryFolder,
    out: &mut MemorySink,
) -> Result<(), KeyFault> {
    make_key(rt, alloc, folder, KeyNumber::Zero, SECRET, out)
}

#[test]
fn keygen_makes_four_files_and_prints_the_key(rt: HostRuntime) -> Result<(), Fail> {
    let mut folder = MemoryFolder::new(rt.alloc());
    let mut out = MemorySink::new(rt.alloc());
    let made = make_first(&rt, rt.alloc(), &mut folder, &mut out);
    assert!(rt; made == Ok(()));
    assert!(rt; has_all(&folder) && folder.failures() == 0);
    assert!(rt; out.bytes() == LINE.as_bytes() && out.failures() == 0);
    Ok(())
}

// Whether the first key's files are followed by those of a further key.
fn has_further(folder: &MemoryFolder) -> bool {
    let mut seed = [0x30; 48];
    seed[..16].copy_from_slice(&[0x20; 16]);
    folder.files().len() == 6
        && holds(folder, 4, "key-1.seed", &seed)
        && holds(folder, 5, "key-1.pub", FURTHER_PUBLIC_KEY)
}

// The files of the first key are no hindrance.
#[test]
fn keygen_of_a_further_key_makes_two_files(rt: HostRuntime) -> Result<(), Fail> {
    let mut folder = MemoryFolder::new(rt.alloc());
    for name in ["key.seed", "key.pub", "index.hsj", "log.hsj"] {
        assert!(rt; folder.create(name, b"mine", Readers::All) == Ok(()));
    }
    let mut out = MemorySink::new(rt.alloc());
    let made = make_key(
        &rt,
        rt.alloc(),
        &mut folder,
        KeyNumber::One,
        FURTHER,
        &mut out,
    );
    assert!(rt; made == Ok(()) && has_further(&folder));
    assert!(rt; holds(&folder, 0, "key.seed", b"mine") && folder.failures() == 0);
    assert!(rt; out.bytes() == FURTHER_LINE.as_bytes() && out.failures() == 0);
    Ok(())
}

// The folder's call behind the first `pass` fails: just so many files are made, and nothing is printed.
fn stops_at<R: Abort + Threads + Sync>(
    rt: &R,
    alloc: Global,
    number: KeyNumber,
    pass: u32,
    file: KeyFile,
    many: usize,
) -> bool {
    let mut folder = MemoryFolder::new(alloc);
    folder.fuse(pass, false);
    let mut out = MemorySink::new(alloc);
    let made = make_key(rt, alloc, &mut folder, number, SECRET, &mut out);
    assert!(rt; made == Err(KeyFault::File(file)), "pass {pass}");
    folder.files().len() == many && folder.failures() == 1 && out.bytes().is_empty()
}

// A look for each file comes first, and then the files.
#[test]
fn a_file_that_fails_is_named_and_leaves_those_before_it(rt: HostRuntime) {
    for (number, pass, file, many) in [
        (KeyNumber::Zero, 0, SEED, 0),
        (KeyNumber::Zero, 3, KeyFile::Log, 0),
        (KeyNumber::Zero, 4, SEED, 0),
        (KeyNumber::Zero, 5, PUBLIC, 1),
        (KeyNumber::Zero, 6, KeyFile::Indices, 2),
        (KeyNumber::Zero, 7, KeyFile::Log, 3),
        (KeyNumber::Three, 1, THIRD_PUBLIC, 0),
        (KeyNumber::Three, 2, THIRD_SEED, 0),
        (KeyNumber::Three, 3, THIRD_PUBLIC, 1),
    ] {
        assert!(rt;
            stops_at(&rt, rt.alloc(), number, pass, file, many),
            "pass {pass}"
        );
    }
}

// These files are there: the first of the key's is named, and nothing is made, printed or counted.
fn names_the_first<R: Abort + Threads + Sync>(
    rt: &R,
    alloc: Global,
    number: KeyNumber,
    there: &[KeyFile],
    first: KeyFile,
) -> bool {
    let mut folder = MemoryFolder::new(alloc);
    for file in there {
        assert!(rt; folder.create(file.name(), b"mine", Readers::All) == Ok(()));
    }
    let mut out = MemorySink::new(alloc);
    let made = make_key(rt, alloc, &mut folder, number, SECRET, &mut out);
    assert!(rt; made == Err(KeyFault::File(first)));
    folder.files().len() == there.len()
        && folder
            .files()
            .iter()
            .all(|file| file.bytes() == b"mine".as_slice())
        && folder.failures() == 0
        && out.bytes().is_empty()
}

const THERE: [(KeyNumber, &[KeyFile], KeyFile); 7] = [
    (KeyNumber::Zero, &[SEED], SEED),
    (KeyNumber::Zero, &[PUBLIC], PUBLIC),
    (KeyNumber::Zero, &[KeyFile::Indices], KeyFile::Indices),
    (KeyNumber::Zero, &[KeyFile::Log], KeyFile::Log),
    (KeyNumber::Zero, &[KeyFile::Log, PUBLIC], PUBLIC),
    (KeyNumber::Three, &[SEED, THIRD_PUBLIC], THIRD_PUBLIC),
    (KeyNumber::Three, &[THIRD_PUBLIC, THIRD_SEED], THIRD_SEED),
];

#[test]
fn a_file_that_is_there_is_named_before_any_is_made(rt: HostRuntime) {
    for (number, there, first) in THERE {
        assert!(rt; names_the_first(&rt, rt.alloc(), number, there, first));
    }
}

#[test]
fn a_second_keygen_in_one_folder_makes_nothing(rt: HostRuntime) -> Result<(), Fail> {
    let mut folder = MemoryFolder::new(rt.alloc());
    let mut out = MemorySink::new(rt.alloc());
    let first = make_first(&rt, rt.alloc(), &mut folder, &mut out);
    let second = make_first(&rt, rt.alloc(), &mut folder, &mut out);
    assert!(rt; first == Ok(()) && second == Err(KeyFault::File(SEED)));
    assert!(rt; has_all(&folder) && out.bytes() == LINE.as_bytes());
    Ok(())
}

#[test]
fn a_line_that_fails_leaves_all_files(rt: HostRuntime) -> Result<(), Fail> {
    let mut folder = MemoryFolder::new(rt.alloc());
    let mut out = MemorySink::new(rt.alloc());
    out.fuse(0, true);
    let made = make_first(&rt, rt.alloc(), &mut folder, &mut out);
    assert!(rt; made == Err(KeyFault::Output));
    assert!(rt; has_all(&folder) && out.bytes().is_empty() && out.failures() == 1);
    Ok(())
}
