//! `hs_tool committee F OUT KEY..` and `hs_tool weighted OUT WEIGHT=PATH,PATH..`: a committee's file from its replicas' key
//! files.

ghost use Rattle.std.specs.Prelude.{◌≡◌, ◌≢◌, ◌⊎◌, IfErr, IfOk, OnOk, length};
ghost use Rattle.blocks.specs.Committees.{multikey_text, weighted_text};
ghost use Rattle.program_parts.specs.Writes.{CountsWrites};
ghost use Rattle.program_tool.specs.Lines.{IsChainPrinted, IsMemberOf, IsTextOfKeys, IsTextOfReplicas, chain_line as chain_text};

use crate::fault::Fault;
use crate::occupied::see_place;
use base_streams::{Sink, write_all};
use base_text::put_id;
use base_wire::{MOST_KEYS, array_at};
use blocks::{Id, Member, write_committee, write_multikey_committee, write_weighted_committee};
use lms_tree::PUBLIC_KEY_LEN;
use program_parts::{ProgramFault, parse_committee, read_named, replace_file};
use program_words::WeightedReplica;
use std::alloc::{AllocError, Global};
use std::fs::{File, Files};

/// Reads the key files, 56 bytes each, the key of replica 0 first. Where they make a committee of f
/// faulty replicas, writes its bytes to `path`, new or in place of what was there, and prints `chain ` and the
/// chain id's 64 hex digits. A key file of another length is its fault; a refused committee writes nothing, nor does
/// one whose file is also one of its keys, or holds what may not be lost: see `see_place`.
pub fn committee<'a, F: Files<File = File>, W: Sink>(
    rt: &F,
    alloc: Global,
    f: u16,
    path: &'a str,
    keys: &[&'a str],
    out: &mut W,
) -> Result<(), Fault<'a>>
    ensures printed { OnOk result (IsChainPrinted (IsTextOfKeys f (length keys.now))
        (W.text out.old) (W.text out.new)) }
    ensures counted { CountsWrites result (W.failed out.old) (W.failed out.new) }
{
    if keys.contains(&path) {
        return Err(Fault::File(path));
    }
    let mut texts = Vec::new(alloc);
    for key in keys {
        texts.push(read_key(rt, alloc, key)?)?;
    }
    // There are 3f + 1 of them; the writer asks for that bound.
    if texts.len() > 65_535 {
        return Err(Fault::Usage);
    }
    publish(rt, alloc, path, &write_committee(alloc, f, &texts)?, out)
}

/// The same of replicas that have weights: each with its weight and its key files, replica 0 first. Where each has one key,
/// the format without room for more is written.
pub fn weighted<'a, F: Files<File = File>, W: Sink>(
    rt: &F,
    alloc: Global,
    path: &'a str,
    replicas: &[WeightedReplica<'a>],
    out: &mut W,
) -> Result<(), Fault<'a>>
    ensures printed { OnOk result (IsChainPrinted (IsTextOfReplicas replicas.now)
        (W.text out.old) (W.text out.new)) }
    ensures counted { CountsWrites result (W.failed out.old) (W.failed out.new) }
{
    if replicas.iter().any(|replica| replica.paths.contains(&path)) {
        return Err(Fault::File(path));
    }
    let mut members = Vec::new(alloc);
    for replica in replicas {
        members.push(read_member(rt, alloc, replica)?)?;
    }
    publish(rt, alloc, path, &text_of(alloc, &members)?, out)
}

// A replica with the keys in its files, one or more.
fn read_member<'a, F: Files<File = File>>(
    rt: &F,
    alloc: Global,
    replica: &WeightedReplica<'a>,
) -> Result<Member, Fault<'a>>
    ensures member { IfOk result (IsMemberOf replica.now) }
    ensures fault { IfErr result (λ fault. fault ≢ ProgramFault.Output) }
{
    let mut keys = Vec::new(alloc);
    for path in &replica.paths {
        keys.push(read_key(rt, alloc, path)?)?;
    }
    Ok(Member {
        weight: replica.weight,
        keys,
    })
}

// The bytes of the committee of these replicas, in the format with room for several keys where one has several.
fn text_of<'a>(alloc: Global, members: &[Member]) -> Result<Vec<u8>, Fault<'a>>
    ensures text { IfOk result (λ text. (text.items ≡ weighted_text members.now)
        ⊎ (text.items ≡ multikey_text members.now)) }
    ensures fault { IfErr result (λ fault. fault ≢ ProgramFault.Output) }
{
    // There are 4 to 31 of them, each with one to four keys; the writers ask for these bounds.
    if members.len() > 65_535 || members.iter().any(|m| m.keys.len() > MOST_KEYS as usize) {
        return Err(Fault::Usage);
    }
    if members.iter().all(|m| m.keys.len() == 1) {
        Ok(write_weighted_committee(alloc, members)?)
    } else {
        Ok(write_multikey_committee(alloc, members)?)
    }
}

// Writes the bytes where they are a committee, and prints its chain id.
fn publish<'a, F: Files<File = File>, W: Sink>(
    rt: &F,
    alloc: Global,
    path: &'a str,
    bytes: &[u8],
    out: &mut W,
) -> Result<(), Fault<'a>>
    ensures printed { OnOk result
        (IsChainPrinted (λ b. b ≡ bytes.now) (W.text out.old) (W.text out.new)) }
    ensures counted { CountsWrites result (W.failed out.old) (W.failed out.new) }
{
    let line = chain_line(alloc, &parse_committee(bytes)?.chain())?;
    see_place(rt, alloc, path)?;
    if let Err(error) = replace_file(rt, alloc, path, bytes) {
        return Err(Fault::unless_memory(&error, Fault::File(path)));
    }
    match write_all(out, &line) {
        Ok(()) => Ok(()),
        Err(_) => Err(Fault::Output),
    }
}

// `chain ` and the id's digits.
fn chain_line(alloc: Global, chain: &Id) -> Result<Vec<u8>, AllocError>
    ensures { IfOk result (λ line. line.items ≡ chain_text chain.now) }
{
    let mut line = b"chain ".to_vec(alloc)?;
    put_id(&mut line, chain)?;
    line.push(b'\n')?;
    Ok(line)
}

// The bytes of a public key's file. One byte more than a key has is read, to see that it ends there.
fn read_key<'a, F: Files<File = File>>(
    rt: &F,
    alloc: Global,
    path: &'a str,
) -> Result<[u8; PUBLIC_KEY_LEN], Fault<'a>>
    ensures { IfErr result (λ fault. fault ≢ ProgramFault.Output) }
{
    let bytes = read_named(rt, alloc, path, PUBLIC_KEY_LEN as u64 + 1)?;
    if bytes.len() != PUBLIC_KEY_LEN {
        return Err(Fault::File(path));
    }
    Ok(array_at(&bytes, 0))
}
