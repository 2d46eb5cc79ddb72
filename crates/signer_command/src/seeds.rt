//! The files of a key set.

ghost use Rattle.std.specs.Prelude.{◌≤◌};
ghost use Rattle.base_wire.specs.declared.limits.TheConstants.{MOST_KEYS};

use base_wire::KeyNumber;
use lmots::{PRIVATE_SEED_LEN, PrivateSeed};
use lms_tree::{PUBLIC_KEY_LEN, PublicKey};
use program_parts::{InputFault, read_at_most};
use replica_files::KeyFile;
use std::alloc::{AllocError, Global};
use std::fs::{File, Files};

/// The first public keys in a folder, so many, if all can be read.
pub(crate) fn public_keys_at<F: Files<File = File>>(
    files: &F,
    alloc: Global,
    place: &str,
    count: u8,
) -> Result<Option<Vec<PublicKey>>, AllocError>
    requires { count ≤ MOST_KEYS }
{
    let mut keys = Vec::new(alloc);
    for k in 0..count {
        let file = KeyFile::PublicKey(KeyNumber::of(k));
        let Some(bytes) = bytes_of(files, alloc, place, file, PUBLIC_KEY_LEN)? else {
            return Ok(None);
        };
        let Ok(key) = PublicKey::parse(&bytes) else {
            return Ok(None);
        };
        keys.push(key)?;
    }
    Ok(Some(keys))
}

/// The first seeds in a folder, so many, if all can be read.
pub(crate) fn seeds_at<F: Files<File = File>>(
    files: &F,
    alloc: Global,
    place: &str,
    count: u8,
) -> Result<Option<Vec<PrivateSeed>>, AllocError>
    requires { count ≤ MOST_KEYS }
{
    let mut seeds = Vec::new(alloc);
    for k in 0..count {
        let file = KeyFile::Seed(KeyNumber::of(k));
        let Some(bytes) = bytes_of(files, alloc, place, file, PRIVATE_SEED_LEN)? else {
            return Ok(None);
        };
        let Some(bytes) = bytes.as_slice().as_array() else {
            return Ok(None);
        };
        seeds.push(PrivateSeed::from_bytes(bytes))?;
    }
    Ok(Some(seeds))
}

/// How many bytes are read of a file of a key at most: more than any has, to see that it ends where it should.
const MOST_OF_A_KEY: u64 = 64;

// The bytes of a file in a folder, if it has so many and can be read.
fn bytes_of<F: Files<File = File>>(
    files: &F,
    alloc: Global,
    place: &str,
    file: KeyFile,
    len: usize,
) -> Result<Option<Vec<u8>>, AllocError> {
    let name = file.name();
    let path = format!(in alloc; "{place}/{name}")?;
    let Ok(file) = File::open(files, &path) else {
        return Ok(None);
    };
    match read_at_most(alloc, file, MOST_OF_A_KEY) {
        Ok(bytes) if bytes.len() == len => Ok(Some(bytes)),
        Err(InputFault::Memory) => Err(AllocError),
        _ => Ok(None),
    }
}
