//! Verdicts, read in place.

ghost use Rattle.std.specs.Prelude.{◌≡◌, ◌+◌, ◌≤◌, Ok, IfOk, IfErr, OnOk, MatchOption, length};
ghost use Rattle.verdict_format.specs.Verdicts.{chain_in, replica_in, verdict_kind_in, earlier_in, later_in, earlier_key_in, later_key_in, earlier_signature_in, later_signature_in, all_read, headers_in, verdict_length, IsKind};
ghost use Rattle.verdict_format.specs.RuleNumbers.{rule_number};
ghost use Rattle.blocks.specs.HeaderReading.{header_in};
ghost use Rattle.base_wire.specs.Pieces.{piece};
ghost use Rattle.verdict_format.specs.VerdictText.{HeadersAreReadable, IsShownIn, IsVerdictOf, parts_in};
ghost use Rattle.verdict_format.specs.declared.parts.VerdictParts.{VerdictParts};
ghost use Rattle.verdict_format.specs.VerdictReading.{IsReadableVerdict, IsFormRefusal, verdict_refusal_number};

use crate::parts::{Shown, VotedHeaders};
use base_wire::{array_at, u16_at, u64_at};
use blocks::{Ballot, HEADER_LEN, Header, HeaderRefusal, Id};
use certificates::BOUND_VOTE_LEN;
use std::marker::Model;

// Where each part of a verdict stands, in bytes.
pub(crate) const CHAIN_AT: usize = 4;

pub(crate) const REPLICA_AT: usize = 36;

pub(crate) const KIND_AT: usize = 38;

pub(crate) const EARLIER_AT: usize = 39;

pub(crate) const LATER_AT: usize = EARLIER_AT + BOUND_VOTE_LEN;

pub(crate) const HEADERS_AT: usize = LATER_AT + BOUND_VOTE_LEN;

// Where its view, its id and its signature stand in a vote that leaves its replica to the head, behind its key.
pub(crate) const VIEW_IN_VOTE: usize = 1;

pub(crate) const ID_IN_VOTE: usize = 9;

pub(crate) const SIGNATURE_IN_VOTE: usize = 41;

/// Where the signature of the first vote begins.
pub const EARLIER_SIGNATURE_AT: usize = EARLIER_AT + SIGNATURE_IN_VOTE;

/// Where the signature of the second vote begins.
pub const LATER_SIGNATURE_AT: usize = LATER_AT + SIGNATURE_IN_VOTE;

/// The length in bytes of a verdict of kind 1: the head and two votes.
const DOUBLE_VOTE_LEN: usize = HEADERS_AT;

/// The length in bytes of a verdict of kind 2: the same and three headers.
const LOCK_VIOLATION_LEN: usize = DOUBLE_VOTE_LEN + 3 * HEADER_LEN;

/// Why bytes are no verdict, in the order of the tests.
#[derive(Clone, Copy, Debug, PartialEq, Eq)]
pub enum VerdictRefusal {
    /// There are fewer than 39 bytes.
    Short = 1,
    /// They do not begin with `HSX2`.
    Magic = 2,
    /// The byte at 38 is neither 1 nor 2.
    Kind = 3,
    /// They are not as many as the kind asks for: the head and two votes, and of kind 2 three headers.
    Length = 4,
}

impl VerdictRefusal {
    /// The number of the refusal, which never changes.
    pub fn number(self) -> u8
        ensures { result ≡ verdict_refusal_number self }
    {
        self as u8
    }
}

/// A voting rule that two votes of one replica can break.
#[derive(Clone, Copy, Debug, PartialEq, Eq)]
pub enum Rule {
    /// Never vote for two blocks of one view.
    DoubleVote = 1,
    /// Never vote against the lock that an earlier vote took.
    LockViolation = 2,
}

impl Rule {
    /// The number of the rule, which is also the kind of a verdict that says it was broken.
    pub fn number(self) -> u8
        ensures { result ≡ rule_number self }
    {
        self as u8
    }

    // The rule of a kind, if there is one.
    fn of_kind(kind: u8) -> Option<Rule>
        ensures { MatchOption result (IsKind kind → ⊥) (λ rule. rule_number rule ≡ kind) }
    {
        match kind {
            1 => Some(Rule::DoubleVote),
            2 => Some(Rule::LockViolation),
            _ => None,
        }
    }

    /// The length in bytes of a verdict that says it was broken.
    pub(crate) fn verdict_len(self) -> usize
        ensures { result ≡ verdict_length (rule_number self) }
    {
        match self {
            Rule::DoubleVote => DOUBLE_VOTE_LEN,
            Rule::LockViolation => LOCK_VIOLATION_LEN,
        }
    }
}

/// A vote in a verdict. The signature is lent by the verdict's bytes.
#[derive(Clone, Copy)]
pub struct VoteView<'a> {
    /// The number of the replica's key that signed, from 0. Any number is read.
    pub key: u8,
    pub view: u64,
    pub id: Id,
    pub signature: &'a [u8],
}

impl<'a> VoteView<'a> {
    /// What the vote is on.
    pub fn ballot(&self) -> Ballot
        ensures { result ≡ record { view = self.now.view; id = self.now.id } }
    {
        Ballot {
            view: self.view,
            id: self.id,
        }
    }
}

/// A verdict, made by `VerdictView::parse` alone. Contracts see its bytes.
#[derive(Drop)]
pub struct VerdictView<'a> {
    bytes: &'a [u8],
}

impl<'a> Model for VerdictView<'a> {
    ghost use Rattle.std.specs.Prelude.{ℕ, List};
    ghost use Rattle.verdict_format.specs.RuleNumbers.{rule_number};
    ghost use Rattle.verdict_format.specs.VerdictReading.{IsReadableVerdict};

    ghost Value = { List ℕ };

    ghost view = { λ v. v.bytes.now };

    ghost invariant = { λ v. IsReadableVerdict v.bytes.now };
}

impl<'a> VerdictView<'a> {
    /// The verdict that the bytes spell: `HSX2`, the chain id (32 bytes at 4), the accused replica (2 at
    /// 36), the kind (1 at 38), two votes (from 39 on), each the number of a key (1), a view (8), an id
    /// (32) and a signature, and of kind 2 three headers (84 each), numbers with the
    /// highest byte first. Nothing is copied, any number of a key is read, no signature is checked, and the
    /// headers may be unreadable. Refused in this order: Short, Magic, Kind, Length.
    pub fn parse(bytes: &'a [u8]) -> Result<VerdictView<'a>, VerdictRefusal>
        ensures ok { IfOk result (λ v. (v ≡ bytes.now) × IsReadableVerdict bytes.now) }

        // What is read is spelled so, where the headers are readable.
        ensures found { OnOk result (HeadersAreReadable bytes.now
            → IsVerdictOf bytes.now (parts_in bytes.now)) }

        // What is spelled so is read, with the same parts.
        ensures only { (v : VerdictParts) → IsVerdictOf bytes.now v → (result ≡ Ok bytes.now)
            × (parts_in bytes.now ≡ v) }

        // The first test that fails refuses.
        ensures first_refusal { IfErr result (IsFormRefusal bytes.now) }
    {
        if bytes.len() < EARLIER_AT {
            return Err(VerdictRefusal::Short);
        }
        if !bytes.starts_with(b"HSX2") {
            return Err(VerdictRefusal::Magic);
        }
        let Some(rule) = Rule::of_kind(bytes[KIND_AT]) else {
            return Err(VerdictRefusal::Kind);
        };
        if bytes.len() != rule.verdict_len() {
            return Err(VerdictRefusal::Length);
        }
        Ok(VerdictView { bytes })
    }

    /// The rule that the verdict says was broken.
    pub fn rule(&self) -> Rule
        ensures { rule_number result ≡ verdict_kind_in self.now }
    {
        match self.bytes[KIND_AT] {
            1 => Rule::DoubleVote,
            _ => Rule::LockViolation,
        }
    }

    /// The id of the chain that the votes are on.
    pub fn chain(&self) -> Id
        ensures { result ≡ chain_in self.now }
    {
        array_at(self.bytes, CHAIN_AT)
    }

    /// The number of the accused replica.
    pub fn replica(&self) -> u16
        ensures { result ≡ replica_in self.now }
    {
        u16_at(self.bytes, REPLICA_AT)
    }

    /// The first of the two votes.
    pub fn earlier(&self) -> VoteView<'a>
        ensures key { result.key ≡ earlier_key_in self.now }
        ensures view { result.view ≡ (earlier_in self.now).view }
        ensures id { result.id ≡ (earlier_in self.now).id }
        ensures signature { result.signature.now ≡ earlier_signature_in self.now }
    {
        VoteView {
            key: self.bytes[EARLIER_AT],
            view: u64_at(self.bytes, EARLIER_AT + VIEW_IN_VOTE),
            id: array_at(self.bytes, EARLIER_AT + ID_IN_VOTE),
            signature: &self.bytes[EARLIER_AT + SIGNATURE_IN_VOTE..LATER_AT],
        }
    }

    /// The second of the two votes.
    pub fn later(&self) -> VoteView<'a>
        ensures key { result.key ≡ later_key_in self.now }
        ensures view { result.view ≡ (later_in self.now).view }
        ensures id { result.id ≡ (later_in self.now).id }
        ensures signature { result.signature.now ≡ later_signature_in self.now }
    {
        VoteView {
            key: self.bytes[LATER_AT],
            view: u64_at(self.bytes, LATER_AT + VIEW_IN_VOTE),
            id: array_at(self.bytes, LATER_AT + ID_IN_VOTE),
            signature: &self.bytes[LATER_AT + SIGNATURE_IN_VOTE..HEADERS_AT],
        }
    }

    /// What the verdict says to show that its votes break its rule: of a lock violation the headers of the earlier
    /// vote's block, of the parent that it names, and of the later vote's block, 84 bytes each behind the votes. None
    /// where one of them is unreadable.
    #[tactic(auto, unfolding(crate::specs::Verdicts::headers_in))]
    pub fn shown(&self) -> Option<Shown>
        ensures { IsShownIn self.now result }
    {
        match self.rule() {
            Rule::DoubleVote => Some(Shown::DoubleVote),
            Rule::LockViolation => {
                let headers = all_read(
                    header_at(self.bytes, HEADERS_AT),
                    header_at(self.bytes, HEADERS_AT + HEADER_LEN),
                    header_at(self.bytes, HEADERS_AT + 2 * HEADER_LEN),
                )?;
                Some(Shown::LockViolation(headers))
            }
        }
    }
}

// The header in the 84 bytes from `at` on.
fn header_at(bytes: &[u8], at: usize) -> Result<Header, HeaderRefusal>
    requires { at + 84 ≤ length bytes.now }
    ensures { result ≡ header_in (piece 84 bytes.now at) }
{
    Header::from_bytes(&bytes[at..at + HEADER_LEN])
}

// The three headers, if each was read.
fn all_read(
    earlier: Result<Header, HeaderRefusal>,
    parent: Result<Header, HeaderRefusal>,
    later: Result<Header, HeaderRefusal>,
) -> Option<VotedHeaders>
    ensures { result ≡ all_read earlier parent later }
{
    Some(VotedHeaders {
        earlier: earlier.ok()?,
        parent: parent.ok()?,
        later: later.ok()?,
    })
}
