//! The keys of a set, one after the other, and then its journals.

ghost use Rattle.std.specs.Prelude.{◌≡◌, ◌≤◌, IfErr, IfOk, OnOk, length, map};
ghost use Rattle.base_wire.specs.declared.limits.TheConstants.{MOST_KEYS};
ghost use Rattle.replica_files.specs.KeyFiles.{Made};
ghost use Rattle.replica_files.specs.KeySets.{IsFaultOfSet, IsStop, files_of_key, files_of_keys, files_of_set, journal, journals_of, one_file, public_key};

use crate::{FolderFault, KeyFault, KeyFile, MakeFolder, Readers, Store, generate_parallel};
use base_wire::KeyNumber;
use lmots::PrivateSeed;
use lms_tree::PUBLIC_KEY_LEN;
use std::alloc::{AllocError, Global};
use std::thread::Threads;

/// Which journals are made with the keys.
#[derive(Clone, Copy, Debug, PartialEq, Eq)]
pub enum Journals {
    /// That of the indices that were taken alone: what the replica signs is stored elsewhere, by chain.
    Indices,
    /// That, and then the log of what the replica signs.
    IndicesAndLog,
}

/// Makes the files of the keys of these seeds, at most 4, which have the numbers from 0 on, as new files in this order: for each key
/// `key.seed` (for its owner alone) and `key.pub`, or `key-K.seed` and `key-K.pub`; then `index.hsj`, and `log.hsj` if it is asked for.
/// Answers the public keys, 56 bytes each. They are computed before the first file is made, in threads by `generate_parallel`. Refused: `Memory`; `File` of the first
/// file that is there already or can't be made, where those before it are there, and stay.
pub fn make_key_set<R: Threads + Sync, D: MakeFolder>(
    rt: &R,
    alloc: Global,
    folder: &mut D,
    secrets: &[PrivateSeed],
    journals: Journals,
) -> Result<Vec<[u8; PUBLIC_KEY_LEN]>, KeyFault>
    requires { length secrets.now ≤ MOST_KEYS }
    ensures keys { IfOk result (λ keys. keys.items ≡ map public_key secrets.now) }
    ensures files { OnOk result (Made (D.files folder.old) (D.files folder.new)
        (files_of_set secrets.now journals)) }
    ensures no_failure { OnOk result (D.failed folder.new ≡ D.failed folder.old) }
    ensures err { IfErr result (λ fault. IsFaultOfSet fault (D.files folder.old)
        (D.files folder.new) (D.failed folder.old) (D.failed folder.new)
        (files_of_set secrets.now journals)) }
{
    let keys = public_keys(rt, alloc, secrets)?;
    make_files(folder, secrets, &keys, journals)?;
    Ok(keys)
}

// The files of these keys, and then their journals.
pub(crate) fn make_files<D: MakeFolder>(
    folder: &mut D,
    secrets: &[PrivateSeed],
    keys: &[[u8; PUBLIC_KEY_LEN]],
    journals: Journals,
) -> Result<(), KeyFault>
    requires few { length secrets.now ≤ MOST_KEYS }
    requires keys { keys.now ≡ map public_key secrets.now }
    ensures files { OnOk result (Made (D.files folder.old) (D.files folder.new)
        (files_of_set secrets.now journals)) }
    ensures no_failure { OnOk result (D.failed folder.new ≡ D.failed folder.old) }
    ensures err { IfErr result (λ fault. IsStop fault (D.files folder.old) (D.files folder.new)
        (D.failed folder.old) (D.failed folder.new) (files_of_set secrets.now journals)) }
{
    make_keys(folder, secrets, keys)?;
    make_journals(folder, journals)?;
    Ok(())
}

// The public keys of these seeds.
fn public_keys<R: Threads + Sync>(
    rt: &R,
    alloc: Global,
    secrets: &[PrivateSeed],
) -> Result<Vec<[u8; PUBLIC_KEY_LEN]>, AllocError>
    ensures { IfOk result (λ keys. keys.items ≡ map public_key secrets.now) }
{
    let mut keys = Vec::with_capacity(alloc, secrets.len())?;
    for secret in secrets {
        let tree = generate_parallel(rt, alloc, *secret)?;
        keys.push(tree.public_key().to_bytes())?;
    }
    Ok(keys)
}

// The files of each key, whose public key stands at the same place.
fn make_keys<D: MakeFolder>(
    folder: &mut D,
    secrets: &[PrivateSeed],
    keys: &[[u8; PUBLIC_KEY_LEN]],
) -> Result<(), KeyFault>
    requires few { length secrets.now ≤ MOST_KEYS }
    requires keys { keys.now ≡ map public_key secrets.now }
    ensures ok { OnOk result (Made (D.files folder.old) (D.files folder.new)
        (files_of_keys 0 secrets.now)) }
    ensures no_failure { OnOk result (D.failed folder.new ≡ D.failed folder.old) }
    ensures err { IfErr result (λ fault. IsStop fault (D.files folder.old) (D.files folder.new)
        (D.failed folder.old) (D.failed folder.new) (files_of_keys 0 secrets.now)) }
{
    for (i, secret) in secrets.iter().enumerate() {
        make_key(folder, KeyNumber::of(i as u8), secret, &keys[i])?;
    }
    Ok(())
}

// The secret key is for its owner alone.
fn make_key<D: MakeFolder>(
    folder: &mut D,
    number: KeyNumber,
    secret: &PrivateSeed,
    key: &[u8; PUBLIC_KEY_LEN],
) -> Result<(), KeyFault>
    requires key { key.now ≡ public_key secret.now }
    ensures ok { OnOk result (Made (D.files folder.old) (D.files folder.new)
        (files_of_key number secret.now)) }
    ensures no_failure { OnOk result (D.failed folder.new ≡ D.failed folder.old) }
    ensures err { IfErr result (λ fault. IsStop fault (D.files folder.old) (D.files folder.new)
        (D.failed folder.old) (D.failed folder.new) (files_of_key number secret.now)) }
{
    make(
        folder,
        KeyFile::Seed(number),
        &secret.to_bytes(),
        Readers::Owner,
    )?;
    make(folder, KeyFile::PublicKey(number), key, Readers::All)
}

// Makes a file of the folder.
#[tactic(auto, using(crate::proofs::Stopping::stop_at_one, crate::proofs::Stopping::stop_for_memory))]
fn make<D: MakeFolder>(
    folder: &mut D,
    file: KeyFile,
    bytes: &[u8],
    readers: Readers,
) -> Result<(), KeyFault>
    ensures ok { OnOk result (Made (D.files folder.old) (D.files folder.new)
        (one_file file bytes.now readers)) }
    ensures no_failure { OnOk result (D.failed folder.new ≡ D.failed folder.old) }
    ensures err { IfErr result (λ fault. IsStop fault (D.files folder.old) (D.files folder.new)
        (D.failed folder.old) (D.failed folder.new) (one_file file bytes.now readers)) }
{
    match folder.create(file.name(), bytes, readers) {
        Ok(()) => Ok(()),
        Err(FolderFault::Memory) => Err(KeyFault::Memory),
        Err(FolderFault::Failed) => Err(KeyFault::File(file)),
    }
}

// Makes an empty journal of the folder.
#[tactic(auto, using(crate::proofs::Stopping::stop_at_one, crate::proofs::Stopping::stop_for_memory))]
fn make_store<D: MakeFolder>(folder: &mut D, file: KeyFile, store: Store) -> Result<(), KeyFault>
    ensures ok { OnOk result (Made (D.files folder.old) (D.files folder.new) (journal file)) }
    ensures no_failure { OnOk result (D.failed folder.new ≡ D.failed folder.old) }
    ensures err { IfErr result (λ fault. IsStop fault (D.files folder.old) (D.files folder.new)
        (D.failed folder.old) (D.failed folder.new) (journal file)) }
{
    match folder.create_store(file.name(), store) {
        Ok(()) => Ok(()),
        Err(FolderFault::Memory) => Err(KeyFault::Memory),
        Err(FolderFault::Failed) => Err(KeyFault::File(file)),
    }
}

fn make_journals<D: MakeFolder>(folder: &mut D, journals: Journals) -> Result<(), KeyFault>
    ensures ok { OnOk result (Made (D.files folder.old) (D.files folder.new)
        (journals_of journals)) }
    ensures no_failure { OnOk result (D.failed folder.new ≡ D.failed folder.old) }
    ensures err { IfErr result (λ fault. IsStop fault (D.files folder.old) (D.files folder.new)
        (D.failed folder.old) (D.failed folder.new) (journals_of journals)) }
{
    make_store(folder, KeyFile::Indices, Store::Indices)?;
    match journals {
        Journals::Indices => Ok(()),
        Journals::IndicesAndLog => make_store(folder, KeyFile::Log, Store::Log),
    }
}
