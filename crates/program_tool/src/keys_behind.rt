//! `hs_tool keygen --random DIR --behind COMMITTEE R [--keys K]`: a replica's keys for the committee that follows another.

ghost use Rattle.std.specs.Prelude.{◌≡◌, ◌≤◌, ◌<◌, ◌++◌, ℕ, Err, IfErr, IfOk, List, MatchOption, OnOk};
ghost use Rattle.blocks.specs.Committees.{n_of};
ghost use Rattle.base_wire.specs.declared.limits.TheConstants.{MOST_KEYS};
ghost use Rattle.replica_files.specs.Drawing.{AreNextKeys};
ghost use Rattle.program_parts.specs.Faults.{IsMemoryOr};
ghost use Rattle.program_parts.specs.Writes.{CountsWrites};
ghost use Rattle.program_tool.specs.NextKeys.{AreKeysPrinted, AreNextKeysPrinted, IsBehind, IsFaultOfKeys, IsFaultOfNextKeys, count_behind, key_line, key_lines as lines_of_keys};

use crate::fault::Fault;
use crate::host::ToolHost;
use base_streams::{Sink, write_all};
use base_wire::append;
use blocks::CommitteeView;
use lms_tree::PUBLIC_KEY_LEN;
use program_parts::{ProgramFault, parse_committee, read_committee};
use program_words::KeyCount;
use replica_files::{Behind, DrawSeed, SetFault, make_next_keys};
use std::alloc::{AllocError, Global};
use std::fs::{File, Files};
use std::thread::Threads;

/// Makes the next keys of this replica, for the committee that follows the one of the file at `file`, in the folder, as
/// `make_next_keys` does: as many as are asked for, or as the replica has in that committee. Prints `key ` and the 112
/// digits of each, in the order of their numbers. In this order: `file` that can't be read, or is no committee, a replica
/// that the committee has not (`Usage`), and the folder. After `Output`, or where memory for the lines is refused, the
/// keys are there.
pub fn next_keys<'a, F: Files<File = File>, T: Threads + Sync, S: DrawSeed, W: Sink>(
    host: &ToolHost<'_, F, T>,
    seeds: &S,
    folder: &'a str,
    file: &'a str,
    replica: u16,
    count: Option<KeyCount>,
    out: &mut W,
) -> Result<(), Fault<'a>>
    ensures printed { OnOk result (AreNextKeysPrinted (S.draws seeds.now) replica count
        (W.text out.old) (W.text out.new)) }
    ensures refused { IfErr result (IsFaultOfNextKeys folder.entry file.entry replica) }
    ensures counted { CountsWrites result (W.failed out.old) (W.failed out.new) }
{
    let bytes = read_committee(host.files, host.alloc, file)?;
    let committee = parse_committee(&bytes)?;
    print_keys(host, seeds, folder, &committee, replica, count, out)
}

// The same, of a committee that was read.
fn print_keys<'a, F: Files<File = File>, T: Threads + Sync, S: DrawSeed, W: Sink>(
    host: &ToolHost<'_, F, T>,
    seeds: &S,
    folder: &'a str,
    committee: &CommitteeView<'_>,
    replica: u16,
    count: Option<KeyCount>,
    out: &mut W,
) -> Result<(), Fault<'a>>
    ensures printed { OnOk result (AreKeysPrinted (S.draws seeds.now) committee.now replica count
        (W.text out.old) (W.text out.new)) }
    ensures usage { n_of committee.now ≤ replica → result ≡ Err ProgramFault.Usage }
    ensures refused { IfErr result (IsFaultOfKeys folder.entry committee.now replica) }
    ensures counted { CountsWrites result (W.failed out.old) (W.failed out.new) }
{
    let Some(behind) = behind_of(committee, replica, count) else {
        return Err(Fault::Usage);
    };
    let lines = made_lines(host, seeds, folder, &behind)?;
    match write_all(out, &lines) {
        Ok(()) => Ok(()),
        Err(_) => Err(Fault::Output),
    }
}

// Whose next keys they are to be, and how many, if the committee has such a replica.
fn behind_of(committee: &CommitteeView<'_>, replica: u16, count: Option<KeyCount>) -> Option<Behind>
    ensures { MatchOption result (n_of committee.now ≤ replica)
        (IsBehind committee.now replica count) }
{
    if replica >= committee.n() {
        return None;
    }
    Some(Behind {
        chain: committee.chain(),
        replica,
        count: count_of(committee, replica, count),
    })
}

// How many keys the replica is to have.
fn count_of(committee: &CommitteeView<'_>, replica: u16, count: Option<KeyCount>) -> u8
    requires { replica < n_of committee.now }
    ensures value { result ≡ count_behind committee.now replica count }
    ensures most { result ≤ MOST_KEYS }
{
    match count {
        Some(count) => count.count(),
        None => committee.keys(replica),
    }
}

// Makes the keys, and answers their lines.
fn made_lines<'a, F: Files<File = File>, T: Threads + Sync, S: DrawSeed>(
    host: &ToolHost<'_, F, T>,
    seeds: &S,
    folder: &'a str,
    behind: &Behind,
) -> Result<Vec<u8>, Fault<'a>>
    ensures made { IfOk result (λ lines. (keys : List (List ℕ))
        × AreNextKeys (S.draws seeds.now) behind.now keys × (lines.items ≡ lines_of_keys keys)) }
    ensures refused { IfErr result (IsMemoryOr (ProgramFault.File folder.entry)) }
{
    let host = replica_files::KeyHost {
        files: host.files,
        rt: host.rt,
        alloc: host.alloc,
    };
    match make_next_keys(&host, seeds, folder, behind) {
        Ok(keys) => Ok(key_lines(host.alloc, &keys)?),
        Err(SetFault::Memory) => Err(Fault::Memory),
        Err(SetFault::Folder) => Err(Fault::File(folder)),
    }
}

// `key ` and the digits of each key.
fn key_lines(alloc: Global, keys: &[[u8; PUBLIC_KEY_LEN]]) -> Result<Vec<u8>, AllocError>
    ensures { IfOk result (λ lines. lines.items ≡ lines_of_keys keys.now) }
{
    let mut lines = Vec::new(alloc);
    for key in keys {
        put_key(&mut lines, key)?;
    }
    Ok(lines)
}

fn put_key(lines: &mut Vec<u8>, key: &[u8; PUBLIC_KEY_LEN]) -> Result<(), AllocError>
    ensures { OnOk result (lines.new.items ≡ lines.old.items ++ key_line key.now) }
{
    let mut digits = [0; 2 * PUBLIC_KEY_LEN];
    let _ = hex::encode_to_slice(&key[..], &mut digits);
    append(lines, b"key ")?;
    append(lines, &digits)?;
    append(lines, b"\n")
}
