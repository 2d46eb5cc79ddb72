//! A replica's next keys, made in its folder.

ghost use Rattle.std.specs.Prelude.{◌≡◌, ◌≤◌, IfOk, IfSome, length, map};
ghost use Rattle.base_wire.specs.declared.limits.TheConstants.{MOST_KEYS};
ghost use Rattle.replica_files.specs.Drawing.{AreDrawn, AreNextKeys};
ghost use Rattle.replica_files.specs.KeySets.{public_key};

use crate::behind::Behind;
use crate::drawing::draw_set;
use crate::growing::{Growth, grow_all, keys_of};
use crate::making::{Journals, make_files, make_key_set};
use crate::{DrawSeed, KeyFault, KeyFile, SystemFolder};
use base_wire::{KeyNumber, MOST_KEYS};
use blocks::Id;
use lmots::PrivateSeed;
use lms_tree::{PUBLIC_KEY_LEN, SigningTree};
use program_parts::{is_nothing_at, sync_folder};
use std::alloc::{AllocError, AllocFailed, Global};
use std::fs::{File, Files};
use std::io::ErrorKind;
use std::thread::Threads;
use std::time::Clock;
use std::{fs, io};

/// What keys are made with.
#[derive(Clone, Copy)]
pub struct KeyHost<'a, F, T> {
    /// Files.
    pub files: &'a F,
    /// Threads.
    pub rt: &'a T,
    /// Memory.
    pub alloc: Global,
}

/// Why a replica's next keys are not made.
#[derive(Clone, Copy, Debug, PartialEq, Eq)]
pub enum SetFault {
    /// Memory was refused.
    Memory,
    /// The source of random bytes failed, or what is to be made in the folder is there already, in part or whole, or can't be made.
    Folder,
}

impl From<AllocError> for SetFault {
    ghost use Rattle.replica_files.specs.declared.next.SetFault.TheVariants.{Memory};

    ghost from_gives = { λ _ fault. fault ≡ Memory };

    fn from(_error: AllocError) -> SetFault {
        SetFault::Memory
    }
}

impl<T: Drop> From<AllocFailed<T>> for SetFault {
    ghost use Rattle.replica_files.specs.declared.next.SetFault.TheVariants.{Memory};

    ghost from_gives = { λ _ fault. fault ≡ Memory };

    fn from(_refused: AllocFailed<T>) -> SetFault {
        SetFault::Memory
    }
}

impl From<KeyFault> for SetFault {
    ghost use Rattle.replica_files.specs.Faults.{of_files};

    ghost from_gives = { λ fault r. r ≡ of_files fault };

    fn from(fault: KeyFault) -> SetFault {
        match fault {
            KeyFault::Memory => SetFault::Memory,
            KeyFault::File(_) | KeyFault::Output => SetFault::Folder,
        }
    }
}

impl From<io::Error> for SetFault {
    ghost use Rattle.std.specs.IoError.{error_kind};
    ghost use Rattle.replica_files.specs.Faults.{of_kind};

    ghost from_gives = { λ error r. r ≡ of_kind (error_kind error) };

    fn from(error: io::Error) -> SetFault {
        match error.kind() {
            ErrorKind::OutOfMemory => SetFault::Memory,
            _ => SetFault::Folder,
        }
    }
}

/// Draws a replica's next keys, and makes their files in its folder, `DIR`. Where DIR has keys or a log, as each has that a replica ran
/// on, they get a folder of their own, `DIR/next-CHAIN`, with no log; it is made as `DIR/next-CHAIN.new`, synced, and then takes its
/// name. Else they stand in DIR itself, with an empty log. Answers the public keys, 56 bytes each. After a fault `DIR/next-CHAIN.new`,
/// or a first part of the files in DIR, may be left, of which nobody was told.
pub fn make_next_keys<F: Files<File = File>, T: Threads + Sync, S: DrawSeed>(
    host: &KeyHost<'_, F, T>,
    seeds: &S,
    folder: &str,
    behind: &Behind,
) -> Result<Vec<[u8; PUBLIC_KEY_LEN]>, SetFault>
    ensures { IfOk result (λ keys. AreNextKeys (S.draws seeds.now) behind.now keys.items) }
{
    let chain = hex::encode(host.alloc, &behind.chain[..])?;
    let secrets = draw_set(host.alloc, seeds, behind)?;
    if has_keys(host, folder)? {
        return make_beside(host, folder, &chain, &secrets);
    }
    make_in(host, folder, &secrets, Journals::IndicesAndLog)
}

/// Draws a replica's next keys, computes them beside other work, and makes their files in `DIR/next-CHAIN`, with no log. Answers the
/// trees, or none where it was to end before; then nothing was made. The folder is made as `DIR/next-CHAIN.making`, in the place of
/// what an earlier try left there, of which nobody was told; it is synced, and then takes its name. After a fault
/// `DIR/next-CHAIN.making` may be left. Refused where `DIR/next-CHAIN` is there.
pub fn make_gently<F: Files<File = File>, T: Clock, S: DrawSeed>(
    host: &KeyHost<'_, F, T>,
    growth: &Growth<'_, T>,
    seeds: &S,
    folder: &str,
    behind: &Behind,
) -> Result<Option<Vec<SigningTree>>, SetFault>
    ensures { IfOk result (λ grown. IfSome grown (λ trees.
        AreDrawn (S.draws seeds.now) behind.now trees.items)) }
{
    let secrets = draw_set(host.alloc, seeds, behind)?;
    let Some(trees) = grow_all(growth, host.alloc, &secrets)? else {
        return Ok(None);
    };
    let keys = keys_of(host.alloc, &trees)?;
    store_next_keys(host, folder, &behind.chain, &secrets, &keys)?;
    Ok(Some(trees))
}

// Makes the files of these keys in `DIR/next-CHAIN`.
fn store_next_keys<F: Files<File = File>, T>(
    host: &KeyHost<'_, F, T>,
    folder: &str,
    chain: &Id,
    secrets: &[PrivateSeed],
    keys: &[[u8; PUBLIC_KEY_LEN]],
) -> Result<(), SetFault>
    requires few { length secrets.now ≤ MOST_KEYS }
    requires keys { keys.now ≡ map public_key secrets.now }
{
    let chain = hex::encode(host.alloc, &chain[..])?;
    let path = format!(in host.alloc; "{folder}/next-{chain}")?;
    if !is_nothing_at(host.files, &path)? {
        return Err(SetFault::Folder);
    }
    let making = format!(in host.alloc; "{path}.making")?;
    match fs::create_dir(host.files, making.as_str()) {
        Ok(()) => {}
        Err(error) if error.kind() == ErrorKind::AlreadyExists => clear_keys(host, &making)?,
        Err(error) => return Err(SetFault::from(error)),
    }
    let mut made = SystemFolder::new(host.files, host.alloc, &making);
    make_files(&mut made, secrets, keys, Journals::Indices)?;
    sync_folder(host.files, &making);
    fs::rename(host.files, making.as_str(), path.as_str())?;
    sync_folder(host.files, folder);
    Ok(())
}

// Removes the files of a key set, of which some may be there.
fn clear_keys<F: Files<File = File>, T>(
    host: &KeyHost<'_, F, T>,
    folder: &str,
) -> Result<(), SetFault> {
    for k in 0..MOST_KEYS {
        let number = KeyNumber::of(k);
        clear_file(host, folder, KeyFile::Seed(number))?;
        clear_file(host, folder, KeyFile::PublicKey(number))?;
    }
    clear_file(host, folder, KeyFile::Indices)
}

fn clear_file<F: Files<File = File>, T>(
    host: &KeyHost<'_, F, T>,
    folder: &str,
    file: KeyFile,
) -> Result<(), SetFault> {
    let name = file.name();
    let path = format!(in host.alloc; "{folder}/{name}")?;
    match fs::remove_file(host.files, path.as_str()) {
        Ok(()) => Ok(()),
        Err(error) if error.kind() == ErrorKind::NotFound => Ok(()),
        Err(error) => Err(SetFault::from(error)),
    }
}

// Whether the folder has keys already, or their indices, or a log, as each has that a replica ran on: seeds and the log may have gone
// from there.
fn has_keys<F: Files<File = File>, T>(
    host: &KeyHost<'_, F, T>,
    folder: &str,
) -> Result<bool, SetFault> {
    for name in ["key.seed", "index.hsj", "log.hsj"] {
        let path = format!(in host.alloc; "{folder}/{name}")?;
        if !is_nothing_at(host.files, &path)? {
            return Ok(true);
        }
    }
    Ok(false)
}

// Makes the keys in a folder of their own, which is new.
fn make_beside<F: Files<File = File>, T: Threads + Sync>(
    host: &KeyHost<'_, F, T>,
    folder: &str,
    chain: &str,
    secrets: &[PrivateSeed],
) -> Result<Vec<[u8; PUBLIC_KEY_LEN]>, SetFault>
    requires { length secrets.now ≤ MOST_KEYS }
    ensures { IfOk result (λ keys. keys.items ≡ map public_key secrets.now) }
{
    let path = format!(in host.alloc; "{folder}/next-{chain}")?;
    let beside = format!(in host.alloc; "{path}.new")?;
    if !is_nothing_at(host.files, &path)? {
        return Err(SetFault::Folder);
    }
    fs::create_dir(host.files, beside.as_str())?;
    let keys = make_in(host, &beside, secrets, Journals::Indices)?;
    fs::rename(host.files, beside.as_str(), path.as_str())?;
    sync_folder(host.files, folder);
    Ok(keys)
}

fn make_in<F: Files<File = File>, T: Threads + Sync>(
    host: &KeyHost<'_, F, T>,
    folder: &str,
    secrets: &[PrivateSeed],
    journals: Journals,
) -> Result<Vec<[u8; PUBLIC_KEY_LEN]>, SetFault>
    requires { length secrets.now ≤ MOST_KEYS }
    ensures { IfOk result (λ keys. keys.items ≡ map public_key secrets.now) }
{
    let mut made = SystemFolder::new(host.files, host.alloc, folder);
    let keys = make_key_set(host.rt, host.alloc, &mut made, secrets, journals)?;
    Ok(keys)
}
