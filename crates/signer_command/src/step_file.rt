//! A piece of the step by which a chain was left, as it is handed out.

ghost use Rattle.std.specs.Prelude.{◌≡◌, ◌≤◌, IfOk, IfSome, drop, length, min, option_map, string_bytes, take};
ghost use Rattle.signer_command.specs.Steps.{IsNextPart, piece_name, piece_path, step_reply};

use crate::making::copy_of;
use handover_folder::{LineageFolder, NEXT_FILE, NEXT_PROOF, NEXT_RENEWAL};
use log_request::{StepPiece, StepRequest};
use stable_log::{Disk, FileDisk};
use std::alloc::{AllocError, Global};
use std::fs::{File, Files};
use std::io;
use std::io::ErrorKind;

/// How many bytes of a file are handed out at most.
const MOST_OF_A_PIECE: u64 = 500_000;

/// How many bytes say how many they are.
const LEN_BYTES: usize = 4;

/// How many bytes go out at once at most, about as many as the longest entry of a log has.
const SHARE: usize = 65_536;

/// The file of a piece, and how many bytes of its answer went out. Contracts see the bytes of the disk, where it tells them.
#[derive(Drop)]
pub(crate) struct StepFile<D: Disk> {
    disk: D,
    sent: usize,
}

impl StepFile<FileDisk> {
    /// The file of a piece of the step by which the signer left a chain; none where it did not leave it, or has no such file.
    pub fn open<F: Files<File = File>>(
        folder: &LineageFolder<'_, F>,
        wanted: &StepRequest,
    ) -> Option<StepFile<FileDisk>>
        ensures { IfSome result (λ file. file.sent ≡ 0) }
    {
        match folder.said_of(&wanted.chain) {
            Ok(Some(_)) => {}
            _ => return None,
        }
        let path = piece_path(folder, wanted).ok()?;
        let file = File::open(folder.files, &path).ok()?;
        Some(StepFile {
            disk: FileDisk::new(file),
            sent: 0,
        })
    }
}

impl<D: Disk> StepFile<D> {
    /// The next bytes that go out: how many there are, and then these; none after the last. The file stays as it is.
    pub fn next_part(&mut self, alloc: Global) -> io::Result<Option<Vec<u8>>>
        ensures part { IfOk result (λ part. IfSome (D.bytes self.old.disk) (λ file.
            IsNextPart (step_reply file) self.old.sent self.new.sent
            (option_map (λ v. v.items) part))) }
        ensures same { D.bytes self.new.disk ≡ D.bytes self.old.disk }
    {
        let len = len_of(&mut self.disk)?;
        if self.sent < LEN_BYTES {
            let part = copy_of(alloc, &(len as u32).to_be_bytes()[self.sent..])?;
            self.sent = LEN_BYTES;
            return Ok(Some(part));
        }
        let at = self.sent - LEN_BYTES;
        if at >= len {
            return Ok(None);
        }
        let share = SHARE.min(len - at);
        let part = part_at(&mut self.disk, alloc, at, share)?;
        self.sent += share;
        Ok(Some(part))
    }
}

// How many bytes of a file are handed out.
fn len_of<D: Disk>(disk: &mut D) -> io::Result<usize>
    ensures told { IfOk result (λ len. IfSome (D.bytes disk.old) (λ file.
        len ≡ min 500000 (length file))) }
    ensures few { IfOk result (λ len. len ≤ 500000) }
    ensures same { D.bytes disk.new ≡ D.bytes disk.old }
{
    match disk.len() {
        Ok(len) => Ok(MOST_OF_A_PIECE.min(len) as usize),
        Err(_) => Err(io::Error::from(ErrorKind::Other)),
    }
}

// So many bytes of it.
fn part_at<D: Disk>(disk: &mut D, alloc: Global, at: usize, len: usize) -> io::Result<Vec<u8>>
    ensures told { IfOk result (λ part. IfSome (D.bytes disk.old) (λ file.
        part.items ≡ take len (drop at file))) }
    ensures len { IfOk result (λ part. length part.items ≡ len) }
    ensures same { D.bytes disk.new ≡ D.bytes disk.old }
{
    let mut part = Vec::new(alloc);
    part.resize(len, 0)?;
    match disk.read_at(at as u64, &mut part) {
        Ok(()) => Ok(part),
        Err(_) => Err(io::Error::from(ErrorKind::Other)),
    }
}

// Where a piece lies: in the folder of the chain that was left.
fn piece_path<F: Files<File = File>>(
    folder: &LineageFolder<'_, F>,
    wanted: &StepRequest,
) -> Result<String, AllocError>
    ensures { IfOk result (λ path. string_bytes path ≡ piece_path folder.now.path.now wanted.now) }
{
    let place = folder.chain_folder(&wanted.chain)?;
    let name = piece_name(wanted.piece);
    format!(in folder.alloc; "{place}/{name}")
}

fn piece_name(piece: StepPiece) -> &'static str
    ensures { result.now ≡ piece_name piece }
{
    match piece {
        StepPiece::File => NEXT_FILE,
        StepPiece::Renewal => NEXT_RENEWAL,
        StepPiece::LightProof => NEXT_PROOF,
    }
}
