//! A replica's key files, made from the seeds of its keys.

ghost use Rattle.std.specs.Prelude.{◌≡◌, ◌⊎◌, ◌∷◌, [], Err, IfErr, IfSome, OnOk, OnErr};
ghost use Rattle.base_streams.specs.Counting.{one_more};
ghost use Rattle.base_streams.specs.Streams.{Wrote, WrotePart};
ghost use Rattle.stable_log.specs.Image.{empty_journal};
ghost use Rattle.replica_files.specs.KeyFiles.{file_name, key_files, key_line, files_with, IsFaultOf, IsFaultOfLook, IsFaultOfLooks, IsThere, LeavesFiles, LeavesLine, LeavesMade, LeavesSome, Made, OfFirstThere};

use crate::fault::KeyFault;
use crate::files::KeyFile;
use crate::folder::{FolderFault, MakeFolder, Readers, Store};
use crate::generate_parallel;
use base_streams::{Sink, write_all};
use base_wire::KeyNumber;
use lmots::PrivateSeed;
use std::alloc::Global;
use std::thread::Threads;

/// Makes the key of this number: `key.seed`, `key.pub`, `index.hsj` and `log.hsj` for key 0, `key-K.seed` and
/// `key-K.pub` alone for a further key K, as new files in this order; and prints `key ` and the public key's 112 hex
/// digits. It first looks for each of them, in this order: one that is there is the fault, and so is one that can't be
/// looked for; then no key is computed, and nothing is made. A file that another process makes after that is a fault
/// too; it stays as it is, and files made before it stay too. Tree, in threads by `generate_parallel`, and line are
/// computed before the first file is made, so that want of memory for them leaves no file.
pub fn make_key<R: Threads + Sync, D: MakeFolder, W: Sink>(
    rt: &R,
    alloc: Global,
    folder: &mut D,
    number: KeyNumber,
    secret: PrivateSeed,
    out: &mut W,
) -> Result<(), KeyFault>
    ensures files { OnOk result (Made (D.files folder.old) (D.files folder.new)
        (key_files number secret.key_id secret.seed)) }
    ensures line { OnOk result (Wrote (W.text out.old) (W.text out.new)
        (key_line secret.key_id secret.seed)) }
    ensures no_failure { OnOk result ((D.failed folder.new ≡ D.failed folder.old)
        × (W.failed out.new ≡ W.failed out.old)) }

    ensures taken { OfFirstThere number (D.files folder.old) (λ file.
        (result ≡ Err (KeyFault.File file))
        ⊎ (D.failed folder.new ≡ one_more (D.failed folder.old))) }
    ensures untouched { OfFirstThere number (D.files folder.old) (λ _.
        (D.files folder.new ≡ D.files folder.old) × (W.text out.new ≡ W.text out.old)
        × (W.failed out.new ≡ W.failed out.old)) }

    ensures part { OnErr result (WrotePart (W.text out.old) (W.text out.new)
        (key_line secret.key_id secret.seed)) }
    ensures fewer { IfErr result (λ fault.
        LeavesFiles number fault (D.files folder.old) (D.files folder.new) (D.failed folder.old)
        (D.failed folder.new) (key_files number secret.key_id secret.seed)) }
    ensures cause { IfErr result (λ fault.
        LeavesLine fault (W.text out.old) (W.text out.new) (W.failed out.old) (W.failed out.new)) }
{
    look_for_files(folder, number)?;
    make_new_key(rt, alloc, folder, number, secret, out)
}

// The first of the key's files that is there is the fault.
fn look_for_files<D: MakeFolder>(folder: &mut D, number: KeyNumber) -> Result<(), KeyFault>
    ensures same { D.files folder.new ≡ D.files folder.old }
    ensures none { OnOk result (OfFirstThere number (D.files folder.old) (λ _. ⊥)) }
    ensures no_failure { OnOk result (D.failed folder.new ≡ D.failed folder.old) }
    ensures err { IfErr result (λ fault.
        IsFaultOfLooks number fault (D.files folder.old) (D.failed folder.old)
        (D.failed folder.new)) }
{
    look(folder, KeyFile::Seed(number))?;
    look(folder, KeyFile::PublicKey(number))?;
    if number == KeyNumber::Zero {
        look(folder, KeyFile::Indices)?;
        look(folder, KeyFile::Log)?;
    }
    Ok(())
}

// A file that is there is a fault.
fn look<D: MakeFolder>(folder: &mut D, file: KeyFile) -> Result<(), KeyFault>
    ensures same { D.files folder.new ≡ D.files folder.old }
    ensures none { OnOk result (IfSome (D.files folder.old) (λ held. IsThere (file_name file) held
        → ⊥)) }
    ensures kept { OnOk result (D.failed folder.new ≡ D.failed folder.old) }
    ensures err { IfErr result (λ fault.
        IsFaultOfLook file fault (D.files folder.old) (D.failed folder.old) (D.failed folder.new)) }
{
    match folder.has(file.name()) {
        Ok(false) => Ok(()),
        Ok(true) => Err(KeyFault::File(file)),
        Err(FolderFault::Memory) => Err(KeyFault::Memory),
        Err(FolderFault::Failed) => Err(KeyFault::File(file)),
    }
}

// Makes the key and prints its line, where none of the files was there.
fn make_new_key<R: Threads + Sync, D: MakeFolder, W: Sink>(
    rt: &R,
    alloc: Global,
    folder: &mut D,
    number: KeyNumber,
    secret: PrivateSeed,
    out: &mut W,
) -> Result<(), KeyFault>
    ensures files { OnOk result (Made (D.files folder.old) (D.files folder.new)
        (key_files number secret.key_id secret.seed)) }
    ensures line { OnOk result (Wrote (W.text out.old) (W.text out.new)
        (key_line secret.key_id secret.seed)) }
    ensures no_failure { OnOk result ((D.failed folder.new ≡ D.failed folder.old)
        × (W.failed out.new ≡ W.failed out.old)) }
    ensures part { OnErr result (WrotePart (W.text out.old) (W.text out.new)
        (key_line secret.key_id secret.seed)) }
    ensures fewer { IfErr result (λ fault.
        LeavesMade number fault (D.files folder.old) (D.files folder.new) (D.failed folder.old)
        (D.failed folder.new) (key_files number secret.key_id secret.seed)) }
    ensures cause { IfErr result (λ fault.
        LeavesLine fault (W.text out.old) (W.text out.new) (W.failed out.old) (W.failed out.new)) }
{
    let public_key = generate_parallel(rt, alloc, secret)?
        .public_key()
        .to_bytes();
    let digits = hex::encode(alloc, &public_key[..])?;
    let line = format!(in alloc; "key {digits}\n")?;
    make_files(folder, number, &secret, &public_key)?;
    match write_all(out, line.as_bytes()) {
        Ok(()) => Ok(()),
        Err(_) => Err(KeyFault::Output),
    }
}

// The secret key is for its owner alone.
fn make_files<D: MakeFolder>(
    folder: &mut D,
    number: KeyNumber,
    secret: &PrivateSeed,
    public_key: &[u8; 56],
) -> Result<(), KeyFault>
    ensures ok { OnOk result (Made (D.files folder.old) (D.files folder.new)
        (files_with number secret.now.key_id secret.now.seed public_key.now)) }
    ensures no_failure { OnOk result (D.failed folder.new ≡ D.failed folder.old) }
    ensures err { IfErr result (λ fault.
        LeavesSome number fault (D.files folder.old) (D.files folder.new) (D.failed folder.old)
        (D.failed folder.new) (files_with number secret.now.key_id secret.now.seed
        public_key.now)) }
{
    let secret_key = secret.to_bytes();
    make(folder, KeyFile::Seed(number), &secret_key, Readers::Owner)?;
    make(folder, KeyFile::PublicKey(number), public_key, Readers::All)?;
    if number == KeyNumber::Zero {
        make_store(folder, KeyFile::Indices, Store::Indices)?;
        make_store(folder, KeyFile::Log, Store::Log)?;
    }
    Ok(())
}

// Makes a file of the folder.
fn make<D: MakeFolder>(
    folder: &mut D,
    file: KeyFile,
    bytes: &[u8],
    readers: Readers,
) -> Result<(), KeyFault>
    ensures ok { OnOk result (Made (D.files folder.old) (D.files folder.new)
        (record { name = file_name file; bytes = bytes.now; readers = readers } ∷ [])) }
    ensures kept { OnOk result (D.failed folder.new ≡ D.failed folder.old) }
    ensures err { IfErr result (λ fault.
        IsFaultOf file fault (D.files folder.old) (D.files folder.new) (D.failed folder.old)
        (D.failed folder.new)) }
{
    match folder.create(file.name(), bytes, readers) {
        Ok(()) => Ok(()),
        Err(FolderFault::Memory) => Err(KeyFault::Memory),
        Err(FolderFault::Failed) => Err(KeyFault::File(file)),
    }
}

// Makes an empty journal of the folder.
fn make_store<D: MakeFolder>(folder: &mut D, file: KeyFile, store: Store) -> Result<(), KeyFault>
    ensures ok { OnOk result (Made (D.files folder.old) (D.files folder.new)
        (record { name = file_name file; bytes = empty_journal; readers = Readers.All } ∷ [])) }
    ensures kept { OnOk result (D.failed folder.new ≡ D.failed folder.old) }
    ensures err { IfErr result (λ fault.
        IsFaultOf file fault (D.files folder.old) (D.files folder.new) (D.failed folder.old)
        (D.failed folder.new)) }
{
    match folder.create_store(file.name(), store) {
        Ok(()) => Ok(()),
        Err(FolderFault::Memory) => Err(KeyFault::Memory),
        Err(FolderFault::Failed) => Err(KeyFault::File(file)),
    }
}
