//! Committees and keys as lines.

ghost use Rattle.std.specs.Prelude.{◌≡◌, ◌<◌, ◌++◌, OnOk, decimal, length};
ghost use Rattle.hex.specs.Hex.{encode_lower};
ghost use Rattle.blocks.specs.Committees.{has_many_keys, keys_of, n_of};
ghost use Rattle.program_show.specs.Lines.{chain_line, committee_lines, first_line, key_ids, lines_of_replica, member_line, multikey_replica_front, multikey_replica_line, shown_key_line, refused_committee_line, replica_line, replica_lines, say_line, seed_line, size_line, votes_line, weighted_replica_line, weighted_size_line};

use crate::digits::put_key_id;
use base_text::{put_id, put_number, put_spoken};
use base_wire::{append, array_at};
use blocks::{CommitteeView, Id};
use key_index_store::INDICES;
use lms_tree::PublicKey;
use std::alloc::AllocError;

/// Adds the lines of a committee.
pub(crate) fn put_committee(text: &mut Vec<u8>, committee: &CommitteeView) -> Result<(), AllocError>
    ensures { OnOk result (text.new.items ≡ text.old.items ++ committee_lines committee.now) }
{
    put_first_line(text, committee)?;
    let chain = committee.chain();
    put_chain(text, &chain)?;
    put_say(text, &chain)?;
    put_replicas(text, committee)
}

fn put_first_line(text: &mut Vec<u8>, committee: &CommitteeView) -> Result<(), AllocError>
    ensures { OnOk result (text.new.items ≡ text.old.items ++ first_line committee.now) }
{
    let n = committee.n();
    if committee.has_weights() {
        put_weighted_size(text, n, committee.total(), committee.quorum())
    } else {
        put_size(text, n / 3, n)
    }
}

#[tactic(auto, unfolding(crate::specs::Lines::weighted_size_line))]
fn put_weighted_size(text: &mut Vec<u8>, n: u16, total: u64, quorum: u64) -> Result<(), AllocError>
    ensures { OnOk result (text.new.items ≡ text.old.items ++ weighted_size_line n total quorum) }
{
    append(text, b"committee n ")?;
    put_number(text, n)?;
    append(text, b" weight ")?;
    put_number(text, total)?;
    append(text, b" quorum ")?;
    put_number(text, quorum)?;
    append(text, b"\n")
}

#[tactic(auto, unfolding(crate::specs::Lines::size_line))]
fn put_size(text: &mut Vec<u8>, f: u16, n: u16) -> Result<(), AllocError>
    ensures { OnOk result (text.new.items ≡ text.old.items ++ size_line f n) }
{
    append(text, b"committee f ")?;
    put_number(text, f)?;
    append(text, b" n ")?;
    put_number(text, n)?;
    append(text, b"\n")
}

/// Adds the line of a file that begins as a committee and is none, with the text of its refusal.
#[tactic(auto, unfolding(crate::specs::Lines::refused_committee_line))]
pub(crate) fn put_refused_committee(text: &mut Vec<u8>, why: &[u8]) -> Result<(), AllocError>
    ensures { OnOk result (text.new.items ≡ text.old.items ++ refused_committee_line why.now) }
{
    append(text, b"refused committee ")?;
    append(text, why)?;
    append(text, b"\n")
}

/// Adds the line of a chain.
#[tactic(auto, unfolding(crate::specs::Lines::chain_line))]
pub(crate) fn put_chain(text: &mut Vec<u8>, chain: &Id) -> Result<(), AllocError>
    ensures { OnOk result (text.new.items ≡ text.old.items ++ chain_line chain.now) }
{
    append(text, b"chain ")?;
    put_id(text, chain)?;
    append(text, b"\n")
}

#[tactic(auto, unfolding(crate::specs::Lines::say_line))]
fn put_say(text: &mut Vec<u8>, chain: &Id) -> Result<(), AllocError>
    ensures { OnOk result (text.new.items ≡ text.old.items ++ say_line chain.now) }
{
    append(text, b"say")?;
    put_spoken(text, chain)?;
    append(text, b"\n")
}

#[tactic(auto, unfolding(crate::specs::Lines::votes_line))]
fn put_votes(text: &mut Vec<u8>, r: u16, votes: u32) -> Result<(), AllocError>
    ensures { OnOk result (text.new.items ≡ text.old.items ++ votes_line r votes) }
{
    append(text, b"votes ")?;
    put_number(text, r)?;
    append(text, b" ")?;
    put_number(text, votes)?;
    append(text, b"\n")
}

#[tactic(auto, unfolding(crate::specs::Lines::replica_line))]
fn put_replica(text: &mut Vec<u8>, r: u16, key_id: &[u8; 16]) -> Result<(), AllocError>
    ensures { OnOk result (text.new.items ≡ text.old.items ++ replica_line r key_id.now) }
{
    append(text, b"replica ")?;
    put_number(text, r)?;
    append(text, b" key ")?;
    put_key_id(text, key_id)?;
    append(text, b"\n")
}

#[tactic(auto, unfolding(crate::specs::Lines::weighted_replica_line))]
fn put_weighted_replica(
    text: &mut Vec<u8>,
    r: u16,
    weight: u32,
    key_id: &[u8; 16],
) -> Result<(), AllocError>
    ensures { OnOk result (text.new.items ≡ text.old.items
        ++ weighted_replica_line r weight key_id.now) }
{
    append(text, b"replica ")?;
    put_number(text, r)?;
    append(text, b" weight ")?;
    put_number(text, weight)?;
    append(text, b" key ")?;
    put_key_id(text, key_id)?;
    append(text, b"\n")
}

// Whether the format has room for several keys.
fn has_many_keys(committee: &CommitteeView) -> bool
    ensures { result ≡ has_many_keys committee.now }
{
    committee.bytes().starts_with(b"HSC3")
}

#[tactic(auto, unfolding(crate::specs::Lines::multikey_replica_front))]
fn put_multikey_front(text: &mut Vec<u8>, r: u16, weight: u32, keys: u8) -> Result<(), AllocError>
    ensures { OnOk result (text.new.items ≡ text.old.items
        ++ multikey_replica_front r weight keys) }
{
    append(text, b"replica ")?;
    put_number(text, r)?;
    append(text, b" weight ")?;
    put_number(text, weight)?;
    append(text, b" keys ")?;
    put_number(text, keys)
}

// Adds the ids of the keys of a replica.
fn put_key_ids(text: &mut Vec<u8>, committee: &CommitteeView, r: u16) -> Result<(), AllocError>
    requires { r < n_of committee.now }
    ensures { OnOk result (text.new.items ≡ text.old.items
        ++ key_ids committee.now r (keys_of committee.now r)) }
{
    for k in 0..committee.keys(r) {
        append(text, b" ")?;
        put_key_id(text, &committee.key(r, k).key_id)?;
    }
    Ok(())
}

fn put_multikey_replica(
    text: &mut Vec<u8>,
    committee: &CommitteeView,
    r: u16,
) -> Result<(), AllocError>
    requires { r < n_of committee.now }
    ensures { OnOk result (text.new.items ≡ text.old.items
        ++ multikey_replica_line committee.now r) }
{
    put_multikey_front(text, r, committee.weight(r), committee.keys(r))?;
    put_key_ids(text, committee, r)?;
    append(text, b"\n")
}

#[tactic(auto, unfolding(blocks::specs::Committees::keys_of))]
fn put_member(text: &mut Vec<u8>, committee: &CommitteeView, r: u16) -> Result<(), AllocError>
    requires { r < n_of committee.now }
    ensures { OnOk result (text.new.items ≡ text.old.items ++ member_line committee.now r) }
{
    if has_many_keys(committee) {
        return put_multikey_replica(text, committee, r);
    }
    let key = committee.key(r, 0);
    if committee.has_weights() {
        put_weighted_replica(text, r, committee.weight(r), &key.key_id)
    } else {
        put_replica(text, r, &key.key_id)
    }
}

fn put_lines_of_replica(
    text: &mut Vec<u8>,
    committee: &CommitteeView,
    r: u16,
) -> Result<(), AllocError>
    requires { r < n_of committee.now }
    ensures { OnOk result (text.new.items ≡ text.old.items ++ lines_of_replica committee.now r) }
{
    put_member(text, committee, r)?;
    put_votes(text, r, INDICES * u32::from(committee.keys(r)))
}

fn put_replicas(text: &mut Vec<u8>, committee: &CommitteeView) -> Result<(), AllocError>
    ensures { OnOk result (text.new.items ≡ text.old.items
        ++ replica_lines committee.now (n_of committee.now)) }
{
    for r in 0..committee.n() {
        put_lines_of_replica(text, committee, r)?;
    }
    Ok(())
}

/// Adds the line of a public key.
#[tactic(auto, unfolding(crate::specs::Lines::shown_key_line))]
pub(crate) fn put_key(text: &mut Vec<u8>, key: &PublicKey) -> Result<(), AllocError>
    ensures { OnOk result (text.new.items ≡ text.old.items
        ++ shown_key_line key.now.key_id key.now.root) }
{
    append(text, b"key ")?;
    put_key_id(text, &key.key_id)?;
    append(text, b" root ")?;
    put_id(text, &key.root)?;
    append(text, b"\n")
}

/// Adds the line of a seed's 48 bytes: its key's id, which is the first 16 of them. No byte behind these is read.
#[tactic(auto, unfolding(crate::specs::Lines::seed_line))]
pub(crate) fn put_seed(text: &mut Vec<u8>, bytes: &[u8]) -> Result<(), AllocError>
    requires { length bytes.now ≡ 48 }
    ensures { OnOk result (text.new.items ≡ text.old.items ++ seed_line bytes.now) }
{
    append(text, b"seed key ")?;
    put_key_id(text, &array_at(bytes, 0))?;
    append(text, b"\n")
}
