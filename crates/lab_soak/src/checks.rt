//! What must hold at the end of a round.

use crate::counts::Counts;
use crate::failure::{Failure, same};
use crate::keys::MOST_KEYS;
use crate::model::{Kept, is_marked, known_blocks, linked};
use crate::round::Round;
use crate::tree::BlockTree;
use blocks::CommitteeView;
use certificates::{SignedVote, check_vote};
use culprit_search::{Report, audit};
use key_index_store::INDICES;
use parallel_verify::{Evidence, SourceReport, SourceText, evidence_of};
use stable_log::MemoryDisk;
use std::alloc::{AllocError, Global};
use vote_desk::Receipt;
use vote_log::{MemorySink, Status, VoteLog};

// The own vote in an entry of the log, if it has one.
fn vote_in(log: &mut VoteLog<MemoryDisk>, number: usize) -> Result<Option<SignedVote>, Failure> {
    match log.entry(number) {
        Ok(entry) => Ok(entry.vote(0)),
        Err(_) => Err(Failure::Refused("an entry is read")),
    }
}

// Each released vote stands in the log, in the entry of its receipt.
fn nothing_is_lost(log: &mut VoteLog<MemoryDisk>, released: &[Receipt]) -> Result<(), Failure> {
    for receipt in released {
        if vote_in(log, receipt.number as usize)? != Some(receipt.vote) {
            return Err(Failure::Refused("a released vote is stored"));
        }
    }
    Ok(())
}

// Notes the key index of a vote, which has to be a new one.
fn note_index(given: &mut [bool], vote: &SignedVote) -> Result<(), Failure> {
    let [a, b, c, d, ..] = vote.signature;
    let index = u32::from_be_bytes([a, b, c, d]);
    let place = u32::from(vote.key)
        .saturating_mul(INDICES)
        .saturating_add(index);
    match given.get_mut(place as usize) {
        Some(is_given) if index < INDICES && !*is_given => {
            *is_given = true;
            Ok(())
        }
        _ => Err(Failure::Refused("a key index comes once")),
    }
}

// Each stored vote is good, and no two of them have one key index. Answers how many there are.
fn no_index_comes_twice(
    alloc: Global,
    committee: &CommitteeView,
    log: &mut VoteLog<MemoryDisk>,
) -> Result<u64, Failure> {
    let mut given = vec![in alloc; false; INDICES as usize * MOST_KEYS as usize]?;
    let mut votes = 0u64;
    for number in 0..log.count() {
        let Some(vote) = vote_in(log, number)? else {
            continue;
        };
        if check_vote(committee, &vote).is_err() {
            return Err(Failure::Refused("a stored vote is good"));
        }
        note_index(&mut given, &vote)?;
        votes = votes.saturating_add(1);
    }
    Ok(votes)
}

// The log as it is sent.
fn exported(alloc: Global, log: &mut VoteLog<MemoryDisk>) -> Result<SourceText, Failure> {
    let mut sink = MemorySink::new(alloc);
    if log.export(0, u32::MAX, &mut sink).is_err() {
        return Err(Failure::Refused("a log is exported"));
    }
    Ok(SourceText {
        replica: 0,
        text: sink.bytes().to_vec(alloc)?,
    })
}

/// What an audit of a stored list is to find: the signers' votes, and the chains that they make.
#[derive(Drop)]
struct Findings<'a> {
    tree: &'a BlockTree,
    // the blocks whose headers are in evidence
    known: Vec<bool>,
    // those of them that have the signers' certificate
    certified: Vec<bool>,
    // genesis, and those whose whole chains are certified
    linked: Vec<bool>,
}

// Those of the marked blocks that are the parent of a stored one, genesis aside.
fn parents(alloc: Global, tree: &BlockTree, stored: &[Kept]) -> Result<Vec<bool>, AllocError> {
    let mut parents = vec![in alloc; false; tree.count()]?;
    for entry in stored {
        let parent = tree.parent(entry.block).unwrap_or(0);
        if let Some(place) = parents.get_mut(parent) {
            *place = parent != 0;
        }
    }
    Ok(parents)
}

impl<'a> Findings<'a> {
    fn of(alloc: Global, tree: &'a BlockTree, stored: &[Kept]) -> Result<Findings<'a>, AllocError> {
        let certified = parents(alloc, tree, stored)?;
        Ok(Findings {
            tree,
            known: known_blocks(alloc, tree, stored)?,
            linked: linked(alloc, tree, &certified)?,
            certified,
        })
    }

    // The block that is committed by a certified one: its parent's parent, where views follow one another.
    fn committed_by(&self, last: usize) -> Option<usize> {
        let middle = self.tree.parent(last)?;
        let first = self.tree.parent(middle)?;
        let view = self.tree.view(first);
        let follow = view.checked_add(1) == Some(self.tree.view(middle))
            && view.checked_add(2) == Some(self.tree.view(last));
        let stand = is_marked(&self.certified, last)
            && is_marked(&self.certified, middle)
            && is_marked(&self.linked, first);
        (follow && stand && first != 0).then_some(first)
    }

    // How many blocks are proved to be committed.
    fn commits(&self, alloc: Global) -> Result<usize, AllocError> {
        let mut committed = vec![in alloc; false; self.tree.count()]?;
        let mut count = 0usize;
        for last in 1..self.tree.count() {
            let Some(first) = self.committed_by(last) else {
                continue;
            };
            if let Some(is_counted) = committed.get_mut(first) {
                if !*is_counted {
                    *is_counted = true;
                    count = count.saturating_add(1);
                }
            }
        }
        Ok(count)
    }

    // Whether who votes for both blocks breaks a rule, as the known headers show.
    fn break_a_rule(&self, earlier: usize, later: usize) -> bool {
        let tree = self.tree;
        if tree.view(earlier) == tree.view(later) {
            return earlier != later;
        }
        let Some(parent) = tree.parent(earlier) else {
            return false;
        };
        is_marked(&self.known, parent)
            && tree.view(earlier) < tree.view(later)
            && tree.block(later).header.parent_view < tree.block(parent).header.parent_view
    }

    // Whether the signers, who voted for each certified block, broke a rule.
    fn signers_broke_a_rule(&self) -> bool {
        for earlier in 1..self.tree.count() {
            for later in 1..self.tree.count() {
                if is_marked(&self.certified, earlier)
                    && is_marked(&self.certified, later)
                    && self.break_a_rule(earlier, later)
                {
                    return true;
                }
            }
        }
        false
    }
}

// Whether the report names the three signers, or nobody.
fn names_signers(report: &Report, broke: bool) -> bool {
    let named: &[u16] = if broke { &[1, 2, 3] } else { &[] };
    if report.verdicts().len() != named.len() {
        return false;
    }
    for (verdict, replica) in report.verdicts().iter().zip(named) {
        if verdict.replica() != *replica {
            return false;
        }
    }
    true
}

// An audit of the evidence accuses just those signers that broke a rule, and proves just the commits of the model.
fn nobody_honest_is_accused(
    alloc: Global,
    evidence: &Evidence,
    round: &Round,
    counts: &mut Counts,
) -> Result<(), Failure> {
    let report = audit(alloc, evidence)?;
    let findings = Findings::of(alloc, &round.tree, &round.desk.replica.stored)?;
    if !names_signers(&report, findings.signers_broke_a_rule()) {
        return Err(Failure::Refused("an audit names those who broke a rule"));
    }
    let commits = report.commits().len();
    same(alloc, "commits", &findings.commits(alloc)?, &commits)?;
    counts.commits = counts.commits.saturating_add(commits as u64);
    counts.culprits = counts
        .culprits
        .saturating_add(report.verdicts().len() as u64);
    Ok(())
}

// The log is audited as it is sent. It comes whole, with all entries.
fn audit_is_right(
    alloc: Global,
    committee: &CommitteeView,
    log: &mut VoteLog<MemoryDisk>,
    round: &Round,
    counts: &mut Counts,
) -> Result<(), Failure> {
    let texts = [exported(alloc, log)?];
    let Ok(evidence) = evidence_of(alloc, committee, &texts) else {
        return Err(Failure::Refused("evidence is gathered"));
    };
    let whole = SourceReport {
        replica: 0,
        status: Status::Whole,
        frames: log.count(),
        entries: log.count(),
    };
    if evidence.sources() != [whole].as_slice() {
        return Err(Failure::Refused("an export is whole"));
    }
    nobody_honest_is_accused(alloc, &evidence, round, counts)
}

/// Checks what is found in the log at the end of a round.
pub(crate) fn check_log(
    alloc: Global,
    committee: &CommitteeView,
    log: &mut VoteLog<MemoryDisk>,
    round: &Round,
    counts: &mut Counts,
) -> Result<(), Failure> {
    nothing_is_lost(log, &round.released)?;
    let votes = no_index_comes_twice(alloc, committee, log)?;
    counts.stored_votes = counts.stored_votes.saturating_add(votes);
    counts.beyond = counts.beyond.saturating_add(u64::from(round.beyond));
    audit_is_right(alloc, committee, log, round, counts)
}
