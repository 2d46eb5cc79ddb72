//! Statements of next keys.

ghost use Rattle.std.specs.Prelude.{◌≡◌, ◌↔◌, ◌+◌, ◌*◌, ◌<◌, ◌≤◌, ◌++◌, Ok, IfErr, IfOk, IfSome, IsTrue, OnOk, length, map, slice_get};
ghost use Rattle.std.specs.List.{All, concat};
ghost use Rattle.lms_tree.specs.Keys.{IsPublicKey};
ghost use Rattle.lms_tree.specs.Tree.{key_text};
ghost use Rattle.base_wire.specs.Pieces.{AreBytes};
ghost use Rattle.handover_keys.specs.NextKeys.{NextKeys as NextKeysValue, IsNextKeysOf, chain_in, count_in, key_id_in, key_in, next_keys_in, next_keys_text, public_key_text, replica_in, root_in, stated};
ghost use Rattle.handover_keys.specs.NextKeysReading.{ArePublicKeys, IsCount, IsNextKeysRefusal, IsStatement, next_keys_refusal_number};

use base_wire::{MOST_KEYS, append, array_at, u16_at};
use blocks::Id;
use lms_tree::{PUBLIC_KEY_LEN, PublicKey};
use std::alloc::{AllocError, Global};
use std::marker::Model;

/// The length in bytes of what stands before the keys: the magic, the chain id, the replica and the number of keys.
pub const NEXT_KEYS_HEAD_LEN: usize = 4 + 32 + 2 + 1;

// Where each part of it stands.
const CHAIN_AT: usize = 4;

const REPLICA_AT: usize = 36;

const COUNT_AT: usize = 38;

/// Why bytes are no statement of next keys, in the order of the tests.
#[derive(Clone, Copy, Debug, PartialEq, Eq)]
pub enum NextKeysRefusal {
    /// There are fewer than 39 bytes.
    Short = 1,
    /// They do not begin with `HSE1`.
    Magic = 2,
    /// The number of keys, at 38, is not 1 to 4.
    Count = 3,
    /// They are not 39 and 56 for each key.
    Length = 4,
    /// The 56 bytes of one of the keys are no public key.
    Key = 5,
}

impl NextKeysRefusal {
    /// The number of the refusal, which never changes.
    pub fn number(self) -> u8
        ensures { result ≡ next_keys_refusal_number self }
    {
        self as u8
    }
}

/// A replica's statement of its next keys, made by `NextKeysView::parse` alone. Contracts see its bytes.
#[derive(Drop)]
pub struct NextKeysView<'a> {
    bytes: &'a [u8],
}

impl<'a> Model for NextKeysView<'a> {
    ghost use Rattle.std.specs.Prelude.{ℕ, List};
    ghost use Rattle.handover_keys.specs.NextKeysReading.{IsStatement};

    ghost Value = { List ℕ };

    ghost view = { λ v. v.bytes.now };

    ghost invariant = { λ v. IsStatement v.bytes.now };
}

// The bytes of the key of this number.
#[tactic(auto, unfolding(crate::specs::NextKeys::key_in))]
fn key_in(bytes: &[u8], k: u8) -> &[u8]
    requires { 39 + 56 * (k + 1) ≤ length bytes.now }
    ensures text { result.now ≡ key_in bytes.now k }
    ensures len { length result.now ≡ 56 }
    ensures fit { AreBytes result.now }
{
    let at = NEXT_KEYS_HEAD_LEN + PUBLIC_KEY_LEN * k as usize;
    &bytes[at..at + PUBLIC_KEY_LEN]
}

// Whether the first `count` keys are public keys.
fn are_public_keys(bytes: &[u8], count: u8) -> bool
    requires { length bytes.now ≡ 39 + 56 * count }
    ensures { IsTrue result ↔ ArePublicKeys bytes.now count }
{
    for k in 0..count {
        if PublicKey::parse(key_in(bytes, k)).is_err() {
            return false;
        }
    }
    true
}

// Whether there may be so many keys.
fn is_count(count: u8) -> bool
    ensures { IsTrue result ↔ IsCount count }
{
    1 <= count && count <= MOST_KEYS
}

// The tests of a statement in their order.
fn judge(bytes: &[u8]) -> Result<(), NextKeysRefusal>
    ensures ok { OnOk result (IsStatement bytes.now) }
    ensures first_refusal { IfErr result (IsNextKeysRefusal bytes.now) }
{
    if bytes.len() < NEXT_KEYS_HEAD_LEN {
        return Err(NextKeysRefusal::Short);
    }
    if !bytes.starts_with(b"HSE1") {
        return Err(NextKeysRefusal::Magic);
    }
    let count = bytes[COUNT_AT];
    if !is_count(count) {
        return Err(NextKeysRefusal::Count);
    }
    if bytes.len() != NEXT_KEYS_HEAD_LEN + PUBLIC_KEY_LEN * count as usize {
        return Err(NextKeysRefusal::Length);
    }
    if !are_public_keys(bytes, count) {
        return Err(NextKeysRefusal::Key);
    }
    Ok(())
}

impl<'a> NextKeysView<'a> {
    /// The statement that the bytes spell: `HSE1`, the chain id of the committee before (32 bytes at 4), the replica (2 at 36), the
    /// number of its next keys, 1 to 4 (1 at 38), and as many public keys (56 bytes each, from 39 on), numbers with the highest
    /// byte first. Nothing is copied. Refused in this order: Short, Magic, Count, Length, Key.
    pub fn parse(bytes: &'a [u8]) -> Result<NextKeysView<'a>, NextKeysRefusal>
        // What is read is spelled so.
        ensures found { IfOk result (λ v. (v ≡ bytes.now) × IsNextKeysOf bytes.now
            (next_keys_in bytes.now)) }

        // What is spelled so is read, with the same parts.
        ensures only { (v : NextKeysValue) → IsNextKeysOf bytes.now v → (result ≡ Ok bytes.now)
            × (next_keys_in bytes.now ≡ v) }

        // The first test that fails refuses.
        ensures first_refusal { IfErr result (IsNextKeysRefusal bytes.now) }
    {
        judge(bytes)?;
        Ok(NextKeysView { bytes })
    }

    // The statement of bytes that were read before.
    pub(crate) fn of(bytes: &'a [u8]) -> NextKeysView<'a>
        requires { IsStatement bytes.now }
        ensures { result ≡ bytes.now }
    {
        NextKeysView { bytes }
    }

    /// The bytes of the statement, which are what is signed.
    pub fn bytes(&self) -> &'a [u8]
        ensures text { result.now ≡ self.now }
        ensures is_statement { IsStatement self.now }
    {
        self.bytes
    }

    /// The chain id of the committee before.
    pub fn chain(&self) -> Id
        ensures { result ≡ chain_in self.now }
    {
        array_at(self.bytes, CHAIN_AT)
    }

    /// The number of the replica.
    pub fn replica(&self) -> u16
        ensures { result ≡ replica_in self.now }
    {
        u16_at(self.bytes, REPLICA_AT)
    }

    /// How many keys it names, 1 to 4.
    pub fn count(&self) -> u8
        ensures value { result ≡ count_in self.now }
        ensures is_count { IsCount result }
    {
        self.bytes[COUNT_AT]
    }

    /// The next key of this number, which must be below `count`.
    pub fn key(&self, k: u8) -> PublicKey
        requires { k < count_in self.now }
        ensures text { key_text result.key_id result.root ≡ key_in self.now k }
        ensures as_written { IfSome (slice_get (next_keys_in self.now).keys k) (λ key.
            key ≡ key_text result.key_id result.root) }
        ensures key_id { result.key_id ≡ key_id_in self.now k }
        ensures root { result.root ≡ root_in self.now k }
    {
        let key = key_in(self.bytes, k);
        PublicKey {
            key_id: array_at(key, 8),
            root: array_at(key, 24),
        }
    }
}

// Adds a key.
fn put_key(text: &mut Vec<u8>, key: &PublicKey) -> Result<(), AllocError>
    ensures text { OnOk result (text.new.items ≡ text.old.items ++ public_key_text key.now) }
    ensures public_key { IsPublicKey (public_key_text key.now) }
{
    append(text, &key.to_bytes())
}

// Adds keys one after the other.
fn put_keys(text: &mut Vec<u8>, keys: &[PublicKey]) -> Result<(), AllocError>
    ensures text { OnOk result (text.new.items ≡ text.old.items
        ++ concat (map public_key_text keys.now)) }
    ensures public_keys { OnOk result (All (λ key. IsPublicKey (public_key_text key)) keys.now) }
{
    for key in keys {
        put_key(text, key)?;
    }
    Ok(())
}

/// The bytes of the statement by which this replica of the committee whose chain id this is names these keys, 1 to 4 of them, as its
/// next ones, laid out as `NextKeysView::parse` reads them. Answers an error where memory for them is refused.
#[tactic(auto, unfolding(crate::specs::NextKeys::next_keys_text))]
pub fn write_next_keys(
    alloc: Global,
    chain: &Id,
    replica: u16,
    keys: &[PublicKey],
) -> Result<Vec<u8>, AllocError>
    requires { IsCount (length keys.now) }
    ensures text { IfOk result (λ text. text.items
        ≡ next_keys_text (stated chain.now replica keys.now)) }
    // So what is written is read, with the same parts.
    ensures spells { IfOk result (λ text. IsNextKeysOf text.items
        (stated chain.now replica keys.now)) }
{
    let mut text = Vec::with_capacity(alloc, NEXT_KEYS_HEAD_LEN + PUBLIC_KEY_LEN * keys.len())?;
    append(&mut text, b"HSE1")?;
    append(&mut text, chain)?;
    append(&mut text, &replica.to_be_bytes())?;
    append(&mut text, &[keys.len() as u8])?;
    put_keys(&mut text, keys)?;
    Ok(text)
}
