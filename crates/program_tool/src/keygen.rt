//! `hs_tool keygen SEED DIR [--key K]`: a replica's key files.

ghost use Rattle.std.specs.Prelude.{◌≡◌, OnOk};
ghost use Rattle.replica_files.specs.declared.files.KeyFile.{KeyFile as KeyFileValue};
ghost use Rattle.program_parts.specs.Writes.{CountsWrites};
ghost use Rattle.program_tool.specs.Lines.{IsKeyPrinted};
ghost use Rattle.program_tool.specs.Seeds.{IsSeedOf};

use crate::fault::{Fault, FolderFile, ToolFault};
use crate::host::ToolHost;
use crate::seeds::seed_of;
use base_streams::{Feed, Sink};
use base_wire::KeyNumber;
use program_parts::ProgramFault;
use program_words::SeedWord;
use replica_command::ReplicaFile;
use replica_files::{DrawSeed, KeyFault, SystemFolder, make_key};
use std::fs::{File, Files};
use std::thread::Threads;

/// Makes the key of this number of the seed that a word names, and writes its files into the folder at `path`, as `make_key`
/// does. Only `--stdin` reads `lines`.
pub fn keygen<'a, F: Files<File = File>, T: Threads + Sync, S: DrawSeed, R: Feed, W: Sink>(
    host: &ToolHost<'a, F, T>,
    seeds: &S,
    seed: SeedWord<'a>,
    path: &'a str,
    key: KeyNumber,
    lines: &mut R,
    out: &mut W,
) -> Result<(), Fault<'a>>
    ensures line { OnOk result
        (IsKeyPrinted (IsSeedOf (S.draws seeds.now) (R.rest lines.old) seed.entry)
        (W.text out.old) (W.text out.new)) }
    ensures counted { CountsWrites result (W.failed out.old) (W.failed out.new) }
{
    let secret = seed_of(host, seeds, seed, path, lines)?;
    let mut folder = SystemFolder::new(host.files, host.alloc, path);
    match make_key(host.rt, host.alloc, &mut folder, key, secret, out) {
        Ok(()) => Ok(()),
        Err(fault) => Err(in_folder(path, fault)),
    }
}

// The fault of a key in the folder at `path`.
fn in_folder<'a>(folder: &'a str, fault: KeyFault) -> Fault<'a>
    ensures memory { fault ≡ KeyFault.Memory → result ≡ ProgramFault.Memory }
    ensures file { (file : KeyFileValue) → fault ≡ KeyFault.File file
        → result ≡ ProgramFault.Own
        (ToolFault.FileIn folder.entry (FolderFile.Replica (ReplicaFile.Key file))) }
    ensures output { fault ≡ KeyFault.Output → result ≡ ProgramFault.Output }
{
    match fault {
        KeyFault::Memory => Fault::Memory,
        KeyFault::File(file) => {
            let file = FolderFile::Replica(ReplicaFile::Key(file));
            Fault::Own(ToolFault::FileIn(folder, file))
        }
        KeyFault::Output => Fault::Output,
    }
}
