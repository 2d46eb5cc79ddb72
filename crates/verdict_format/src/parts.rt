//! Writing verdicts.

ghost use Rattle.std.specs.Prelude.{◌≡◌, ◌<◌, ◌^◌, ◌++◌, IfOk, OnOk, length};
ghost use Rattle.verdict_format.specs.RuleNumbers.{rule_number};
ghost use Rattle.verdict_format.specs.VerdictText.{HasBytes, IsBoundVote, IsVerdictOf, bound_text, head_text, shown_text, verdict_kind, verdict_text};

use crate::verdict::Rule;
use base_wire::append;
use blocks::{Header, Id};
use lms_tree::Signature;
use std::alloc::{AllocError, Global};
use std::marker::Model;

/// A vote of the accused replica.
#[derive(Clone, Copy, Debug)]
pub struct BoundVote {
    /// The number of the replica's key that signed, from 0.
    pub key: u8,
    /// The block's view.
    pub view: u64,
    /// The block's id.
    pub id: Id,
    /// The LMS signature of the statement under that key (RFC 8554, section 5.4).
    pub signature: Signature,
}

/// The headers behind the votes of a lock violation.
#[derive(Clone, Copy, Debug)]
pub struct VotedHeaders {
    /// The header of the earlier vote's block.
    pub earlier: Header,
    /// The header of the parent that it names.
    pub parent: Header,
    /// The header of the later vote's block.
    pub later: Header,
}

impl Model for VotedHeaders {
    ghost use Rattle.verdict_format.specs.Verdicts.{VotedHeaders as VotedHeadersValue};

    ghost Value = { VotedHeadersValue };

    ghost view = { λ h. record { earlier = h.earlier; parent = h.parent; later = h.later } };

    ghost inverse = { λ h. record { earlier = h.earlier; parent = h.parent; later = h.later } };
}

/// What shows that the two votes of a verdict break a rule.
#[derive(Clone, Copy, Debug)]
pub enum Shown {
    /// The votes themselves: they are for two blocks of one view.
    DoubleVote,
    /// The headers behind the votes, which are a lock violation.
    LockViolation(VotedHeaders),
}

impl Shown {
    /// The rule that is broken.
    pub fn rule(&self) -> Rule
        ensures { rule_number result ≡ verdict_kind self.now }
    {
        match self {
            Shown::DoubleVote => Rule::DoubleVote,
            Shown::LockViolation(_) => Rule::LockViolation,
        }
    }
}

/// What a verdict says.
#[derive(Clone, Copy, Debug)]
pub struct VerdictParts {
    /// The id of the chain that the votes are on.
    pub chain: Id,
    /// The number of the accused replica.
    pub replica: u16,
    /// Its first vote; of a lock violation the earlier one, of a double vote either one.
    pub earlier: BoundVote,
    /// Its second vote.
    pub later: BoundVote,
    /// What shows that the votes break a rule.
    pub shown: Shown,
}

// Adds what stands before the votes.
#[tactic(auto, unfolding(crate::specs::VerdictText::head_text))]
fn put_head(text: &mut Vec<u8>, parts: &VerdictParts) -> Result<(), AllocError>
    ensures text { OnOk result (text.new.items ≡ text.old.items ++ head_text parts.now) }
    ensures chain { length parts.now.chain ≡ 32 }
    ensures replica { OnOk result (parts.now.replica < 2 ^ 16) }
{
    append(text, b"HSX2")?;
    append(text, &parts.chain)?;
    append(text, &parts.replica.to_be_bytes())?;
    append(text, &[parts.shown.rule().number()])?;
    Ok(())
}

fn put_vote(text: &mut Vec<u8>, vote: &BoundVote) -> Result<(), AllocError>
    ensures text { OnOk result (text.new.items ≡ text.old.items ++ bound_text vote.now) }
    ensures is_vote { IsBoundVote vote.now }
{
    let view = vote.view.to_be_bytes();
    append(text, &vote.key.to_be_bytes())?;
    append(text, &view)?;
    append(text, &vote.id)?;
    append(text, &vote.signature)?;
    Ok(())
}

// Adds the headers of a lock violation.
fn put_shown(text: &mut Vec<u8>, shown: &Shown) -> Result<(), AllocError>
    ensures text { OnOk result (text.new.items ≡ text.old.items ++ shown_text shown.now) }
    ensures has_bytes { OnOk result (HasBytes shown.now) }
{
    let Shown::LockViolation(headers) = shown else {
        return Ok(());
    };
    append(text, &headers.earlier.to_bytes())?;
    append(text, &headers.parent.to_bytes())?;
    append(text, &headers.later.to_bytes())?;
    Ok(())
}

/// The bytes of a verdict, as many as its rule asks for, laid out as
/// `VerdictView::parse` reads them. Answers an error where memory for them is refused.
#[tactic(auto, unfolding(crate::specs::VerdictText::verdict_text))]
pub fn write_verdict(alloc: Global, parts: &VerdictParts) -> Result<Vec<u8>, AllocError>
    ensures text { IfOk result (λ text. text.items ≡ verdict_text parts.now) }
    // So what is written is read, with the same parts.
    ensures spells { IfOk result (λ text. IsVerdictOf text.items parts.now) }
{
    let mut text = Vec::with_capacity(alloc, parts.shown.rule().verdict_len())?;
    put_head(&mut text, parts)?;
    put_vote(&mut text, &parts.earlier)?;
    put_vote(&mut text, &parts.later)?;
    put_shown(&mut text, &parts.shown)?;
    Ok(text)
}
