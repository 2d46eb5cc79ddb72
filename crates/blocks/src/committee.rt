//! Committees.

ghost use Rattle.std.specs.Prelude.{ℕ, Bool, true, ◌≡◌, ◌&&◌, ◌+◌, ◌*◌, ◌^◌, ◌++◌, ◌<◌, ◌≤◌, ◌↔◌, IfOk, IfSome, IsTrue, OnOk, MatchResult, length, replicate, slice_get};
ghost use Rattle.std.specs.List.{All, concat};
ghost use Rattle.std.specs.Str.{bytes_eq};
ghost use Rattle.lms_tree.specs.Tree.{key_text};
ghost use Rattle.base_wire.specs.Pieces.{AreBytes};
ghost use Rattle.base_wire.specs.Refusals.{first_of};
ghost use Rattle.blocks.specs.CommitteeReading.{CountsFit, is_key, is_count, unused_at, are_zeros, bad_count, key_number, bad_key, bad_key_of, same_key, same_key_of, twin_of, first_twin_of, no_weight, has_size, committee_in, committee_refusal_number};
ghost use Rattle.blocks.specs.Committees.{IsCommittee, WhereSpelled, HaveOneKey, committee_text, weighted_text, multikey_text, member_text, multikey_member_text, slots_text, has_many_keys, has_weights, n_of, place_of, weight_at, room_of, keys_of, key_place, key_at, key_id_at, root_at};
ghost use Rattle.blocks.specs.Weights.{Decides, total_of, quorum_of, weight_of, is_any};
ghost use Rattle.blocks.specs.Genesis.{genesis_of, chain_id_of};
ghost use Rattle.blocks.specs.Headers.{IsGenesis};

use crate::header::{Header, Id, NamedHeader};
use base_wire::{MOST_KEYS, array_at, u16_at, u32_at};
use lms_tree::{PUBLIC_KEY_LEN, PublicKey};
use sha2::{Digest, Sha256};
use std::alloc::{AllocError, Global};
use std::marker::Model;

/// The length of a weight, in bytes.
const WEIGHT_LEN: usize = 4;

/// The length of a replica's weight and its public key, in bytes.
const WEIGHTED_LEN: usize = WEIGHT_LEN + PUBLIC_KEY_LEN;

/// The length of a replica's weight and of how many keys it has, in bytes.
const MULTIKEY_HEAD_LEN: usize = WEIGHT_LEN + 4;

/// The length of those and of the room for the most keys, in bytes.
const MULTIKEY_LEN: usize = MULTIKEY_HEAD_LEN + MOST_KEYS as usize * PUBLIC_KEY_LEN;

/// Why bytes are no committee, in the order of the tests.
///
/// Where the format has room for several keys, key k of replica r is number 4r + k; where it has room for one, the key
/// of replica r is number r.
#[derive(Clone, Copy, Debug, PartialEq, Eq)]
pub enum CommitteeRefusal {
    /// 1: there are fewer than 8 bytes, or not 8 and for each replica 56, or 60 where they begin with `HSC2`, or 232 where
    /// they begin with `HSC3`.
    Length,
    /// 2: they begin with neither `HSC1`, `HSC2` nor `HSC3`.
    Magic,
    /// 3: f is not 1 to 10, or there are not 3f + 1 replicas; of `HSC2` and `HSC3`, what stands for f is not 0, or there are
    /// not 4 to 31 replicas.
    Size,
    /// 7: this replica has no key or more than four, or there is a byte other than 0 in the room behind its keys, and it is
    /// the least such replica.
    KeyCount(u16),
    /// 4: the 56 bytes of the key of this number are no public key, and it is the least such number.
    Key(u16),
    /// 5: the keys of these two numbers are one. The second is the least number whose key stands earlier
    /// too, and the first is the earliest that has it.
    SameKey(u16, u16),
    /// 6: the weight of this replica is 0, and it is the least such replica.
    Weight(u16),
}

impl CommitteeRefusal {
    /// The number of the refusal, which never changes.
    pub fn number(self) -> u8
        ensures { result ≡ committee_refusal_number self }
    {
        match self {
            CommitteeRefusal::Length => 1,
            CommitteeRefusal::Magic => 2,
            CommitteeRefusal::Size => 3,
            CommitteeRefusal::KeyCount(_) => 7,
            CommitteeRefusal::Key(_) => 4,
            CommitteeRefusal::SameKey(_, _) => 5,
            CommitteeRefusal::Weight(_) => 6,
        }
    }
}

/// A replica of a committee.
#[derive(Drop)]
pub struct Member {
    /// How much it counts.
    pub weight: u32,
    /// Its public keys, as RFC 8554, section 5.3, lays them out.
    pub keys: Vec<[u8; PUBLIC_KEY_LEN]>,
}

impl Model for Member {
    ghost use Rattle.blocks.specs.Committees.{Member as MemberValue};

    ghost Value = { MemberValue };

    ghost view = { λ m. record { weight = m.weight; keys = m.keys.items } };
}

/// A committee, read in place, made by `CommitteeView::parse` alone, which hashes the bytes once.
/// Contracts see the bytes.
#[derive(Drop)]
pub struct CommitteeView<'a> {
    bytes: &'a [u8],
    genesis: NamedHeader,
    // the weight of all replicas
    total: u64,
}

impl<'a> Model for CommitteeView<'a> {
    ghost use Rattle.std.specs.Prelude.{◌≡◌, ℕ, List};
    ghost use Rattle.blocks.specs.Committees.{IsCommittee};
    ghost use Rattle.blocks.specs.Genesis.{genesis_of};
    ghost use Rattle.blocks.specs.Weights.{total_of};

    ghost Value = { List ℕ };

    ghost view = { λ v. v.bytes.now };

    ghost invariant = { λ v. IsCommittee v.bytes.now × (v.genesis ≡ genesis_of v.bytes.now)
        × (v.total ≡ total_of v.bytes.now) };
}

// Whether the format has room for several keys.
fn has_many_keys(bytes: &[u8]) -> bool
    ensures { result ≡ has_many_keys bytes.now }
{
    bytes.starts_with(b"HSC3")
}

fn has_weights(bytes: &[u8]) -> bool
    ensures { result ≡ has_weights bytes.now }
{
    has_many_keys(bytes) || bytes.starts_with(b"HSC2")
}

// Where the bytes of replica r begin.
fn place_of(bytes: &[u8], r: u16) -> usize
    ensures { result ≡ place_of bytes.now r }
{
    let width = if has_many_keys(bytes) {
        MULTIKEY_LEN
    } else if has_weights(bytes) {
        WEIGHTED_LEN
    } else {
        PUBLIC_KEY_LEN
    };
    8 + width * r as usize
}

// For how many keys each replica has room.
fn room_of(bytes: &[u8]) -> u32
    ensures { result ≡ room_of bytes.now }
{
    if has_many_keys(bytes) {
        u32::from(MOST_KEYS)
    } else {
        1
    }
}

// How many keys replica r has.
#[tactic(auto, unfolding(crate::specs::Committees::keys_of))]
fn keys_of(bytes: &[u8], r: u16) -> u32
    requires { place_of bytes.now (r + 1) ≤ length bytes.now }
    ensures { result ≡ keys_of bytes.now r }
{
    if has_many_keys(bytes) {
        u32_at(bytes, place_of(bytes, r) + WEIGHT_LEN)
    } else {
        1
    }
}

// Where key k of replica r stands, for k up to the room.
fn key_place(bytes: &[u8], r: u16, k: u32) -> usize
    requires { k ≤ room_of bytes.now }
    ensures { result ≡ key_place bytes.now r k }
{
    let head = if has_many_keys(bytes) {
        MULTIKEY_HEAD_LEN
    } else if has_weights(bytes) {
        WEIGHT_LEN
    } else {
        0
    };
    place_of(bytes, r) + head + PUBLIC_KEY_LEN * k as usize
}

// The bytes of key k of replica r.
#[tactic(auto, unfolding(crate::specs::Committees::key_at))]
fn key_at(bytes: &[u8], r: u16, k: u32) -> &[u8]
    requires place { place_of bytes.now (r + 1) ≤ length bytes.now }
    requires room { k < room_of bytes.now }
    ensures key { result.now ≡ key_at bytes.now r k }
    ensures len { length result.now ≡ 56 }
    ensures fit { AreBytes result.now }
{
    let at = key_place(bytes, r, k);
    &bytes[at..at + PUBLIC_KEY_LEN]
}

// The number of key k of replica r among all keys.
fn key_number(bytes: &[u8], r: u16, k: u32) -> u16
    requires few { r < 2 ^ 13 }
    requires room { k < room_of bytes.now }
    ensures { result ≡ key_number bytes.now r k }
{
    (room_of(bytes) * r as u32 + k) as u16
}

// The weight of replica r.
#[tactic(auto, unfolding(crate::specs::Committees::weight_at))]
fn weight_at(bytes: &[u8], r: u16) -> u32
    requires { place_of bytes.now (r + 1) ≤ length bytes.now }
    ensures { result ≡ weight_at bytes.now r }
{
    if has_weights(bytes) {
        u32_at(bytes, place_of(bytes, r))
    } else {
        1
    }
}

fn are_zeros(bytes: &[u8]) -> bool
    ensures { IsTrue result ↔ All (λ b. b ≡ 0) bytes.now }
{
    bytes.iter().all(|b| *b == 0)
}

// The room behind the keys of replica r.
#[tactic(auto, unfolding(crate::specs::CommitteeReading::unused_at))]
fn unused_at(bytes: &[u8], r: u16) -> &[u8]
    requires place { place_of bytes.now (r + 1) ≤ length bytes.now }
    requires counted { keys_of bytes.now r ≤ room_of bytes.now }
    ensures { result.now ≡ unused_at bytes.now r }
{
    let keys = keys_of(bytes, r);
    let at = key_place(bytes, r, keys);
    &bytes[at..at + PUBLIC_KEY_LEN * (room_of(bytes) - keys) as usize]
}

// Whether replica r has as many keys as it may, and zeros behind them.
fn has_count(bytes: &[u8], r: u16) -> bool
    requires { place_of bytes.now (r + 1) ≤ length bytes.now }
    ensures { result ≡ (is_count (room_of bytes.now) (keys_of bytes.now r) && are_zeros
        (unused_at bytes.now r)) }
{
    let (room, keys) = (room_of(bytes), keys_of(bytes, r));
    if keys < 1 || room < keys {
        return false;
    }
    are_zeros(unused_at(bytes, r))
}

// The least replica that has not.
#[tactic(auto, using(base_wire::proofs::Firsts::first_none, base_wire::proofs::Firsts::first_more, base_wire::proofs::Firsts::first_at))]
fn bad_count(bytes: &[u8], n: u16) -> Option<CommitteeRefusal>
    requires { place_of bytes.now n ≤ length bytes.now }
    ensures { result ≡ first_of (bad_count bytes.now) n }
{
    for r in 0..n {
        if !has_count(bytes, r) {
            return Some(CommitteeRefusal::KeyCount(r));
        }
    }
    None
}

// Whether 56 bytes are a public key.
fn is_key(key: &[u8]) -> bool
    requires { length key.now ≡ 56 }
    ensures { result ≡ is_key key.now }
{
    PublicKey::parse(key).is_ok()
}

// The first key of replica r that is no public key.
#[tactic(auto, using(base_wire::proofs::Firsts::first_none, base_wire::proofs::Firsts::first_more, base_wire::proofs::Firsts::first_at))]
fn bad_key_of(bytes: &[u8], r: u16) -> Option<CommitteeRefusal>
    requires place { place_of bytes.now (r + 1) ≤ length bytes.now }
    requires few { r < 2 ^ 13 }
    requires counted { keys_of bytes.now r ≤ room_of bytes.now }
    ensures { result ≡ bad_key_of bytes.now r }
{
    for k in 0..keys_of(bytes, r) {
        if !is_key(key_at(bytes, r, k)) {
            return Some(CommitteeRefusal::Key(key_number(bytes, r, k)));
        }
    }
    None
}

// The first key of all that is no public key.
#[tactic(auto, using(base_wire::proofs::Firsts::first_none, base_wire::proofs::Firsts::first_more, base_wire::proofs::Firsts::first_at))]
fn bad_key(bytes: &[u8], n: u16) -> Option<CommitteeRefusal>
    requires place { place_of bytes.now n ≤ length bytes.now }
    requires few { n ≤ 2 ^ 13 }
    requires counted { CountsFit bytes.now n }
    ensures { result ≡ first_of (bad_key_of bytes.now) n }
{
    for r in 0..n {
        if let Some(refusal) = bad_key_of(bytes, r) {
            return Some(refusal);
        }
    }
    None
}

/// A key by its replica and its number there.
#[derive(Clone, Copy)]
struct Slot {
    replica: u16,
    key: u32,
}

// The refusal of a key that is the same as an earlier one, the first of `count` keys of replica r.
#[tactic(auto, using(base_wire::proofs::Firsts::first_none, base_wire::proofs::Firsts::first_more, base_wire::proofs::Firsts::first_at))]
fn same_key(bytes: &[u8], of: Slot, r: u16, count: u32) -> Option<CommitteeRefusal>
    requires place { place_of bytes.now (of.replica + 1) ≤ length bytes.now }
    requires few { of.replica < 2 ^ 13 }
    requires room { of.key < room_of bytes.now }
    requires before { r ≤ of.replica }
    requires counted { count ≤ room_of bytes.now }
    ensures { result ≡ first_of (same_key bytes.now of.replica of.key r) count }
{
    for k in 0..count {
        if key_at(bytes, r, k) == key_at(bytes, of.replica, of.key) {
            let earlier = key_number(bytes, r, k);
            let later = key_number(bytes, of.replica, of.key);
            return Some(CommitteeRefusal::SameKey(earlier, later));
        }
    }
    None
}

// The earliest key before this one that is the same.
#[tactic(auto, using(base_wire::proofs::Firsts::first_none, base_wire::proofs::Firsts::first_more, base_wire::proofs::Firsts::first_at))]
fn twin_of(bytes: &[u8], of: Slot) -> Option<CommitteeRefusal>
    requires place { place_of bytes.now (of.replica + 1) ≤ length bytes.now }
    requires few { of.replica < 2 ^ 13 }
    requires room { of.key < room_of bytes.now }
    requires counted { CountsFit bytes.now of.replica }
    ensures { result ≡ twin_of bytes.now of.replica of.key }
{
    for r in 0..of.replica {
        let count = keys_of(bytes, r);
        if let Some(refusal) = same_key(bytes, of, r, count) {
            return Some(refusal);
        }
    }
    same_key(bytes, of, of.replica, of.key)
}

// The first key of a replica that stands earlier too.
#[tactic(auto, using(base_wire::proofs::Firsts::first_none, base_wire::proofs::Firsts::first_more, base_wire::proofs::Firsts::first_at))]
fn first_twin_of(bytes: &[u8], replica: u16) -> Option<CommitteeRefusal>
    requires place { place_of bytes.now (replica + 1) ≤ length bytes.now }
    requires few { replica < 2 ^ 13 }
    requires counted { CountsFit bytes.now (replica + 1) }
    ensures { result ≡ first_twin_of bytes.now replica }
{
    for key in 0..keys_of(bytes, replica) {
        if let Some(refusal) = twin_of(bytes, Slot { replica, key }) {
            return Some(refusal);
        }
    }
    None
}

// The first key of all that stands earlier too.
#[tactic(auto, using(base_wire::proofs::Firsts::first_none, base_wire::proofs::Firsts::first_more, base_wire::proofs::Firsts::first_at))]
fn first_twin(bytes: &[u8], n: u16) -> Option<CommitteeRefusal>
    requires place { place_of bytes.now n ≤ length bytes.now }
    requires few { n ≤ 2 ^ 13 }
    requires counted { CountsFit bytes.now n }
    ensures { result ≡ first_of (first_twin_of bytes.now) n }
{
    for s in 0..n {
        if let Some(refusal) = first_twin_of(bytes, s) {
            return Some(refusal);
        }
    }
    None
}

// The least replica that has no weight.
#[tactic(auto, using(base_wire::proofs::Firsts::first_none, base_wire::proofs::Firsts::first_more, base_wire::proofs::Firsts::first_at))]
fn first_without_weight(bytes: &[u8], n: u16) -> Option<CommitteeRefusal>
    requires { place_of bytes.now n ≤ length bytes.now }
    ensures { result ≡ first_of (no_weight bytes.now) n }
{
    for k in 0..n {
        if weight_at(bytes, k) == 0 {
            return Some(CommitteeRefusal::Weight(k));
        }
    }
    None
}

// Whether there are as many replicas as the format allows.
fn has_size(bytes: &[u8]) -> bool
    requires { 8 ≤ length bytes.now }
    ensures value { result ≡ has_size bytes.now }
    ensures few { IsTrue result → n_of bytes.now ≤ 31 }
{
    let f = u16_at(bytes, 4);
    let n = u16_at(bytes, 6);
    if has_weights(bytes) {
        f == 0 && 4 <= n && n <= 31
    } else {
        1 <= f && f <= 10 && n == 3 * f + 1
    }
}

// The tests of a committee in their order. A text may name up to 65,535 replicas before their number is
// judged.
#[tactic(auto, unfolding(crate::specs::CommitteeReading::committee_in))]
fn judge(bytes: &[u8]) -> Result<(), CommitteeRefusal>
    ensures { MatchResult result (λ _. committee_in bytes.now ≡ Ok bytes.now) (λ refusal.
        committee_in bytes.now ≡ Err refusal) }
{
    if bytes.len() < 8 || bytes.len() != place_of(bytes, u16_at(bytes, 6)) {
        return Err(CommitteeRefusal::Length);
    }
    if !has_weights(bytes) && !bytes.starts_with(b"HSC1") {
        return Err(CommitteeRefusal::Magic);
    }
    if !has_size(bytes) {
        return Err(CommitteeRefusal::Size);
    }
    let n = u16_at(bytes, 6);
    if let Some(refusal) = bad_count(bytes, n) {
        return Err(refusal);
    }
    if let Some(refusal) = bad_key(bytes, n) {
        return Err(refusal);
    }
    if let Some(refusal) = first_twin(bytes, n) {
        return Err(refusal);
    }
    if let Some(refusal) = first_without_weight(bytes, n) {
        return Err(refusal);
    }
    Ok(())
}

// The weight of those of the first n replicas that pass a test.
fn weight_of<F: Fn(u16) -> bool>(bytes: &[u8], n: u16, test: F) -> u64
    requires place { place_of bytes.now n ≤ length bytes.now }
    requires callable { F.IsAlwaysCallable test }
    ensures { (passes : ℕ → Bool) → Decides F.post test passes n
        → result ≡ weight_of (weight_at bytes.now) passes n }
{
    let mut weight = 0;
    for r in 0..n {
        if test(r) {
            weight += u64::from(weight_at(bytes, r));
        }
    }
    weight
}

// The weight of the first n replicas.
fn total_of(bytes: &[u8], n: u16) -> u64
    requires { place_of bytes.now n ≤ length bytes.now }
    ensures { result ≡ weight_of (weight_at bytes.now) is_any n }
{
    weight_of(
        bytes,
        n,
        |_| -> bool
            ensures { result ≡ true }
        { true },
    )
}

// The header in which each chain of the committee of these bytes ends.
fn genesis_of(bytes: &[u8]) -> Header
    ensures { result ≡ genesis_of bytes.now }
{
    let mut hasher = Sha256::new();
    hasher.update(bytes);
    Header {
        view: 0,
        parent_view: 0,
        parent: [0; 32],
        payload: hasher.finalize(),
    }
}

impl<'a> CommitteeView<'a> {
    /// The committee that the bytes spell, in one of three formats, numbers with the highest byte first. `HSC1`: f (2 bytes at
    /// 4), n (2 at 6), which is 3f + 1, and n public keys of 56 bytes each (from 8); each replica has the weight 1. `HSC2`: 0
    /// (2 bytes at 4), n (2 at 6), which is 4 to 31, and n times a weight of at least 1 (4 bytes) and a public key of 56.
    /// `HSC3`: the same, but n times a weight, the number of the replica's keys, 1 to 4 (4 bytes), and four places for keys of
    /// 56 bytes each, zeros where there is none. Nothing is copied. Refused in this order: Length, Magic, Size, KeyCount, Key,
    /// SameKey, Weight.
    pub fn parse(bytes: &'a [u8]) -> Result<CommitteeView<'a>, CommitteeRefusal>
        // What is read is spelled so.
        ensures found { IfOk result (λ v. (v ≡ bytes.now) × IsCommittee bytes.now) }

        // What is spelled so is read.
        ensures only { WhereSpelled bytes.now (λ members. result ≡ Ok bytes.now) }

        // The first test that fails refuses.
        ensures first_refusal { result ≡ committee_in bytes.now }
    {
        judge(bytes)?;
        Ok(CommitteeView {
            bytes,
            genesis: NamedHeader::of(genesis_of(bytes)),
            total: total_of(bytes, u16_at(bytes, 6)),
        })
    }

    /// The same view again.
    pub fn again(&self) -> CommitteeView<'a>
        ensures same { result ≡ self.now }
        ensures is_committee { IsCommittee self.now }
    {
        CommitteeView {
            bytes: self.bytes,
            genesis: self.genesis,
            total: self.total,
        }
    }

    /// The bytes that were read.
    pub fn bytes(&self) -> &'a [u8]
        ensures text { result.now ≡ self.now }
        ensures is_committee { IsCommittee self.now }
    {
        self.bytes
    }

    /// How many replicas there are, 4 to 31; where the format has no weights, 3f + 1 of which f may be faulty.
    pub fn n(&self) -> u16
        ensures value { result ≡ n_of self.now }
        ensures as_written { WhereSpelled self.now (λ members. result ≡ length members) }
        ensures least { 4 ≤ result }
        ensures most { result ≤ 31 }
    {
        u16_at(self.bytes, 6)
    }

    /// Whether the format has weights, as both formats but the first have. Where it has none, each replica has the weight 1.
    pub fn has_weights(&self) -> bool
        ensures { result ≡ has_weights self.now }
    {
        has_weights(self.bytes)
    }

    /// How much replica `r` counts, which must be below `n`.
    pub fn weight(&self, r: u16) -> u32
        requires { r < n_of self.now }
        ensures value { result ≡ weight_at self.now r }
        ensures as_written { WhereSpelled self.now (λ members.
            IfSome (slice_get members r) (λ m. result ≡ m.weight)) }
        ensures least { 1 ≤ result }
    {
        weight_at(self.bytes, r)
    }

    /// How much all replicas count together, below 2^37.
    pub fn total(&self) -> u64
        ensures value { result ≡ total_of self.now }
        ensures most { result < 2 ^ 37 }
    {
        self.total
    }

    /// How much the replicas that pass a test count together.
    pub fn weight_of<F: Fn(u16) -> bool>(&self, test: F) -> u64
        requires { F.IsAlwaysCallable test }
        ensures { (passes : ℕ → Bool) → Decides F.post test passes (n_of self.now)
            → result ≡ weight_of (weight_at self.now) passes (n_of self.now) }
    {
        weight_of(self.bytes, self.n(), test)
    }

    /// How much a quorum counts: the least above two thirds of the weight of all replicas. Of 3f + 1 replicas of weight 1 it
    /// is 2f + 1.
    pub fn quorum(&self) -> u64
        ensures value { result ≡ quorum_of self.now }
        ensures most { result < 2 ^ 37 }
        ensures is_committee { IsCommittee self.now }
    {
        2 * self.total / 3 + 1
    }

    /// How many keys replica `r` has, 1 to 4; it must be below `n`.
    pub fn keys(&self, r: u16) -> u8
        requires { r < n_of self.now }
        ensures value { result ≡ keys_of self.now r }
        ensures as_written { WhereSpelled self.now (λ members.
            IfSome (slice_get members r) (λ m. result ≡ length m.keys)) }
        ensures least { 1 ≤ result }
        ensures most { result ≤ 4 }
    {
        keys_of(self.bytes, r) as u8
    }

    /// The public key `k` of replica `r`, which must be below `n`, and `k` below `keys(r)`.
    pub fn key(&self, r: u16, k: u8) -> PublicKey
        requires known { r < n_of self.now }
        requires has { k < keys_of self.now r }
        ensures text { key_text result.key_id result.root ≡ key_at self.now r k }
        ensures as_written { WhereSpelled self.now (λ members.
            IfSome (slice_get members r) (λ m.
            IfSome (slice_get m.keys k) (λ key. key ≡ key_text result.key_id result.root))) }
        ensures key_id { result.key_id ≡ key_id_at self.now r k }
        ensures root { result.root ≡ root_at self.now r k }
    {
        let key = key_at(self.bytes, r, k as u32);
        PublicKey {
            key_id: array_at(key, 8),
            root: array_at(key, 24),
        }
    }

    /// The header in which each chain of the committee ends: of view 0, with no parent, and with the
    /// digest of the committee's bytes as its payload.
    pub fn genesis(&self) -> Header
        ensures value { result ≡ genesis_of self.now }
        ensures is_genesis { IsGenesis result }
    {
        *self.genesis.header()
    }

    /// The name of the committee's chain: the id of genesis.
    pub fn chain(&self) -> Id
        ensures { result ≡ chain_id_of self.now }
    {
        *self.genesis.id()
    }
}

/// The bytes of a committee without weights with these public keys, of 56 bytes each, in this order; there must be fewer
/// than 65,536 of them. They are judged where they are read: `CommitteeView::parse` says whether they are a
/// committee. Answers an error where memory was refused.
#[tactic(auto, unfolding(crate::specs::Committees::committee_text))]
pub fn write_committee(
    alloc: Global,
    f: u16,
    keys: &[[u8; PUBLIC_KEY_LEN]],
) -> Result<Vec<u8>, AllocError>
    requires { length keys.now < 2 ^ 16 }
    ensures { IfOk result (λ text. text.items ≡ committee_text f keys.now) }
{
    let mut text = Vec::with_capacity(alloc, 8 + PUBLIC_KEY_LEN * keys.len())?;
    text.extend_from_slice(b"HSC1")?;
    text.extend_from_slice(&f.to_be_bytes())?;
    text.extend_from_slice(&(keys.len() as u16).to_be_bytes())?;
    for key in keys {
        text.extend_from_slice(key)?;
    }
    Ok(text)
}

// Adds keys one after the other.
fn put_keys(text: &mut Vec<u8>, keys: &[[u8; PUBLIC_KEY_LEN]]) -> Result<(), AllocError>
    ensures { OnOk result (text.new.items ≡ text.old.items ++ concat keys.now) }
{
    for key in keys {
        text.extend_from_slice(key)?;
    }
    Ok(())
}

// Adds the bytes of a replica with its weight.
fn put_member(text: &mut Vec<u8>, member: &Member) -> Result<(), AllocError>
    ensures { OnOk result (text.new.items ≡ text.old.items ++ member_text member.now) }
{
    text.extend_from_slice(&member.weight.to_be_bytes())?;
    put_keys(text, &member.keys)
}

/// The bytes of a committee with weights, of these replicas in this order; there must be fewer than 65,536 of them, each
/// with one key. They are judged where they are read: `CommitteeView::parse` says whether they are a committee. Answers an
/// error where memory was refused.
#[tactic(auto, unfolding(crate::specs::Committees::weighted_text))]
pub fn write_weighted_committee(alloc: Global, members: &[Member]) -> Result<Vec<u8>, AllocError>
    requires count { length members.now < 2 ^ 16 }
    requires one_key { HaveOneKey members.now }
    ensures { IfOk result (λ text. text.items ≡ weighted_text members.now) }
{
    let mut text = Vec::with_capacity(alloc, 8 + WEIGHTED_LEN * members.len())?;
    text.extend_from_slice(b"HSC2\0\0")?;
    text.extend_from_slice(&(members.len() as u16).to_be_bytes())?;
    for member in members {
        put_member(&mut text, member)?;
    }
    Ok(text)
}

// Adds so many zeros.
fn put_zeros(text: &mut Vec<u8>, count: usize) -> Result<(), AllocError>
    ensures { OnOk result (text.new.items ≡ text.old.items ++ replicate count 0) }
{
    for _k in 0..count {
        text.push(0)?;
    }
    Ok(())
}

// Adds the bytes of a replica with its weight and its number of keys.
fn put_multikey_member(text: &mut Vec<u8>, member: &Member) -> Result<(), AllocError>
    requires { length member.now.keys ≤ 4 }
    ensures { OnOk result (text.new.items ≡ text.old.items ++ multikey_member_text member.now) }
{
    text.extend_from_slice(&member.weight.to_be_bytes())?;
    text.extend_from_slice(&(member.keys.len() as u32).to_be_bytes())?;
    put_keys(text, &member.keys)?;
    put_zeros(
        text,
        PUBLIC_KEY_LEN * (MOST_KEYS as usize - member.keys.len()),
    )
}

/// The bytes of a committee with weights and several keys a replica, of these replicas in this order; there must be fewer
/// than 65,536 of them, each with four keys at the most. They are judged where they are read: `CommitteeView::parse` says
/// whether they are a committee. Answers an error where memory was refused.
#[tactic(auto, unfolding(crate::specs::Committees::multikey_text))]
pub fn write_multikey_committee(alloc: Global, members: &[Member]) -> Result<Vec<u8>, AllocError>
    requires count { length members.now < 2 ^ 16 }
    requires few { All (λ m. length m.keys ≤ 4) members.now }
    ensures { IfOk result (λ text. text.items ≡ multikey_text members.now) }
{
    let mut text = Vec::with_capacity(alloc, 8 + MULTIKEY_LEN * members.len())?;
    text.extend_from_slice(b"HSC3\0\0")?;
    text.extend_from_slice(&(members.len() as u16).to_be_bytes())?;
    for member in members {
        put_multikey_member(&mut text, member)?;
    }
    Ok(text)
}
