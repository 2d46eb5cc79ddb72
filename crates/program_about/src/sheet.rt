//! A verdict as a sheet to read.

ghost use Rattle.std.specs.Prelude.{◌≡◌, ◌<◌, ◌≤◌, ◌+◌, ◌++◌, IfOk, OnOk, length};
ghost use Rattle.hex.specs.Hex.{encode_lower};
ghost use Rattle.sha2.specs.Sha256.{sha256};
ghost use Rattle.blocks.specs.Committees.{IsCommittee, keys_of, n_of};
ghost use Rattle.verdict_format.specs.Proofs.{IsProof};
ghost use Rattle.verdict_format.specs.VerdictReading.{IsReadableVerdict};
ghost use Rattle.verdict_format.specs.RuleNumbers.{rule_number};
ghost use Rattle.verdict_format.specs.declared.verdict.TheConstants.{EARLIER_SIGNATURE_AT, LATER_SIGNATURE_AT};
ghost use Rattle.program_help.specs.Helps.{version_text};
ghost use Rattle.program_about.specs.Sheets.{accused_line, accused_part, ballot_lines, breach_line, digest_lines, double_vote_text, files_part, IsSheet, judge_line, limits_part, lock_violation_text, one_time_part, refused_text, rule_part, sheet_text, signer_line, vote_part, votes_part};

use base_text::{put_id, put_number, put_spoken};
use base_wire::{append, u32_at};
use blocks::{Ballot, Id};
use certificates::CommitteeView;
use program_help::VERSION;
use sha2::{Digest, Sha256};
use std::alloc::{AllocError, Global};
use verdict_checker::{Refusal, check};
use verdict_format::{EARLIER_SIGNATURE_AT, LATER_SIGNATURE_AT, Rule, VerdictView};

/// A verdict that is accepted was shown.
pub(crate) const SHOWN: u8 = 0;

/// The verdict is refused, and why was shown.
pub(crate) const REFUSED: u8 = 1;

/// A text and the exit status that goes with it.
#[derive(Drop)]
pub(crate) struct Sheet {
    pub text: Vec<u8>,
    pub status: u8,
}

/// The sheet of a verdict under a committee that was read: who is accused, of what, by which votes and keys, and what that does
/// not say. Where the verdict is refused it is a line that says why. Memory is all that can fail.
pub(crate) fn sheet_of(
    alloc: Global,
    committee: &CommitteeView,
    verdict: &[u8],
) -> Result<Sheet, AllocError>
    ensures { IfOk result (λ s. IsSheet committee.now verdict.now s.status s.text.items) }
{
    let mut text = Vec::new(alloc);
    match check(committee, verdict) {
        Ok(_) => {
            put_sheet(&mut text, committee, verdict)?;
            Ok(Sheet {
                text,
                status: SHOWN,
            })
        }
        Err(refusal) => {
            put_refused(&mut text, refusal)?;
            Ok(Sheet {
                text,
                status: REFUSED,
            })
        }
    }
}

#[tactic(auto, unfolding(crate::specs::Sheets::refused_text))]
fn put_refused(text: &mut Vec<u8>, refusal: Refusal) -> Result<(), AllocError>
    ensures { OnOk result (text.new.items ≡ text.old.items ++ refused_text refusal) }
{
    append(text, b"refused ")?;
    put_number(text, refusal.number())?;
    append(text, b" ")?;
    append(text, refusal.name().as_bytes())?;
    append(text, b"\n")
}

// Adds the sheet of a verdict that is a proof.
fn put_sheet(text: &mut Vec<u8>, committee: &CommitteeView, bytes: &[u8]) -> Result<(), AllocError>
    requires { IsProof committee.now bytes.now }
    ensures { OnOk result (text.new.items ≡ text.old.items ++ sheet_text committee.now bytes.now) }
{
    let Ok(verdict) = VerdictView::parse(bytes) else {
        unreachable!();
    };
    put_accused(text, verdict.replica(), &committee.chain())?;
    put_rule(text, verdict.rule())?;
    put_votes(text, committee, bytes, &verdict)?;
    put_files(text, committee.bytes(), bytes)?;
    put_limits(text)
}

fn put_accused(text: &mut Vec<u8>, replica: u16, chain: &Id) -> Result<(), AllocError>
    ensures { OnOk result (text.new.items ≡ text.old.items ++ accused_part replica chain.now) }
{
    put_accused_line(text, replica)?;
    put_spoken(text, chain)?;
    put_breach_line(text)
}

#[tactic(auto, unfolding(crate::specs::Sheets::accused_line))]
fn put_accused_line(text: &mut Vec<u8>, replica: u16) -> Result<(), AllocError>
    ensures { OnOk result (text.new.items ≡ text.old.items ++ accused_line replica) }
{
    append(text, b"STATEMENT ON A VERDICT\n\nReplica ")?;
    put_number(text, replica)?;
    append(text, b" of the committee whose chain id is\n\n")
}

#[tactic(auto, unfolding(crate::specs::Sheets::breach_line))]
fn put_breach_line(text: &mut Vec<u8>) -> Result<(), AllocError>
    ensures { OnOk result (text.new.items ≡ text.old.items ++ breach_line) }
{
    append(
        text,
        b"\n\nbroke a voting rule that no correct replica breaks.\n\n",
    )
}

#[tactic(auto, unfolding(crate::specs::Sheets::double_vote_text))]
fn double_vote_text() -> &'static str
    ensures { result.now ≡ double_vote_text }
{
    "Rule 1, double vote: it signed votes for two different blocks in one view.\n\n"
}

#[tactic(auto, unfolding(crate::specs::Sheets::lock_violation_text))]
fn lock_violation_text() -> &'static str
    ensures { result.now ≡ lock_violation_text }
{
    "Rule 2, lock violation: once it had cast its first vote, its lock was the grandparent of\nthat vote's block or a block of a later view, whatever had put it there. Its second vote,\nin a later view, is for a block that does not build on that lock: the parent of that block\nis in an earlier view than the grandparent of the first vote's block.\n\n"
}

fn put_rule(text: &mut Vec<u8>, rule: Rule) -> Result<(), AllocError>
    ensures { OnOk result (text.new.items ≡ text.old.items ++ rule_part (rule_number rule)) }
{
    let broken = match rule {
        Rule::DoubleVote => double_vote_text(),
        Rule::LockViolation => lock_violation_text(),
    };
    append(text, broken.as_bytes())
}

fn put_votes(
    text: &mut Vec<u8>,
    committee: &CommitteeView,
    bytes: &[u8],
    verdict: &VerdictView,
) -> Result<(), AllocError>
    requires same { verdict.now ≡ bytes.now }
    requires proof { IsProof committee.now bytes.now }
    ensures { OnOk result (text.new.items ≡ text.old.items
        ++ votes_part committee.now bytes.now) }
{
    let replica = verdict.replica();
    let (earlier, later) = (verdict.earlier(), verdict.later());
    put_vote(
        text,
        b"First",
        &earlier.ballot(),
        earlier.key,
        &committee.key(replica, earlier.key).key_id,
        u32_at(bytes, EARLIER_SIGNATURE_AT),
    )?;
    put_vote(
        text,
        b"Second",
        &later.ballot(),
        later.key,
        &committee.key(replica, later.key).key_id,
        u32_at(bytes, LATER_SIGNATURE_AT),
    )
}

fn put_vote(
    text: &mut Vec<u8>,
    place: &[u8],
    vote: &Ballot,
    key: u8,
    key_id: &[u8; 16],
    index: u32,
) -> Result<(), AllocError>
    ensures { OnOk result (text.new.items ≡ text.old.items
        ++ vote_part place.now vote.now key key_id.now index) }
{
    put_ballot(text, place, vote)?;
    put_signer(text, key, key_id)?;
    put_one_time(text, index)
}

#[tactic(auto, unfolding(crate::specs::Sheets::ballot_lines))]
fn put_ballot(text: &mut Vec<u8>, place: &[u8], vote: &Ballot) -> Result<(), AllocError>
    ensures { OnOk result (text.new.items ≡ text.old.items ++ ballot_lines place.now vote.now) }
{
    append(text, place)?;
    append(text, b" vote: view ")?;
    put_number(text, vote.view)?;
    append(text, b"\n  block ")?;
    put_id(text, &vote.id)
}

#[tactic(auto, unfolding(crate::specs::Sheets::signer_line))]
fn put_signer(text: &mut Vec<u8>, key: u8, key_id: &[u8; 16]) -> Result<(), AllocError>
    ensures { OnOk result (text.new.items ≡ text.old.items ++ signer_line key key_id.now) }
{
    append(text, b"\n  key ")?;
    put_number(text, key)?;
    append(text, b", id ")?;
    put_key_id(text, key_id)
}

#[tactic(auto, unfolding(crate::specs::Sheets::one_time_part))]
fn put_one_time(text: &mut Vec<u8>, index: u32) -> Result<(), AllocError>
    ensures { OnOk result (text.new.items ≡ text.old.items ++ one_time_part index) }
{
    append(text, b", one-time key ")?;
    put_number(text, index)?;
    append(text, b"\n\n")
}

fn put_key_id(text: &mut Vec<u8>, id: &[u8; 16]) -> Result<(), AllocError>
    ensures { OnOk result (text.new.items ≡ text.old.items ++ encode_lower id.now) }
{
    let mut digits = [0; 32];
    let _ = hex::encode_to_slice(&id[..], &mut digits);
    append(text, &digits)
}

fn put_files(text: &mut Vec<u8>, committee: &[u8], verdict: &[u8]) -> Result<(), AllocError>
    ensures { OnOk result (text.new.items ≡ text.old.items ++ files_part committee.now verdict.now) }
{
    put_digests(text, &digest_of(committee), &digest_of(verdict))?;
    put_judge(text)
}

#[tactic(auto, unfolding(crate::specs::Sheets::digest_lines))]
fn put_digests(
    text: &mut Vec<u8>,
    committee: &[u8; 32],
    verdict: &[u8; 32],
) -> Result<(), AllocError>
    ensures { OnOk result (text.new.items ≡ text.old.items
        ++ digest_lines committee.now verdict.now) }
{
    append(
        text,
        b"Both signatures verify under these keys of the replica.\n\nSHA-256 of the verdict\n  ",
    )?;
    put_id(text, verdict)?;
    append(text, b"\nSHA-256 of the committee's file\n  ")?;
    put_id(text, committee)
}

#[tactic(auto, unfolding(crate::specs::Sheets::judge_line))]
fn put_judge(text: &mut Vec<u8>) -> Result<(), AllocError>
    ensures { OnOk result (text.new.items ≡ text.old.items ++ judge_line) }
{
    append(text, b"\nJudged by Wezhgula ")?;
    append(text, VERSION.as_bytes())?;
    append(text, b".\n\n")
}

fn digest_of(bytes: &[u8]) -> [u8; 32]
    ensures { result ≡ sha256 bytes.now }
{
    let mut hasher = Sha256::new();
    hasher.update(bytes);
    hasher.finalize()
}

#[tactic(auto, unfolding(crate::specs::Sheets::limits_part))]
fn put_limits(text: &mut Vec<u8>) -> Result<(), AllocError>
    ensures { OnOk result (text.new.items ≡ text.old.items ++ limits_part) }
{
    append(
        text,
        b"It says nothing of intent, and nothing of when. A key that was stolen, a backup that was\nput back and a faulty program look the same. It holds under this committee's file alone:\ncompare the chain id with the one that you were told by another way.\n",
    )
}
