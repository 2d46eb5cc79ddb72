//! The proof, and that it shows what it is for.

ghost use Rattle.std.specs.Prelude.{◌≡◌, ◌↔◌, IfErr, IfOk, IfSome, IsTrue};
ghost use Rattle.std.specs.List.{All, AllPairs, AllZip, Contains};
ghost use Rattle.blocks.specs.Weights.{committee_of};
ghost use Rattle.ancestry.specs.Known.{all_of};
ghost use Rattle.audit_evidence.specs.Evidence.{Evidence as EvidenceValue};
ghost use Rattle.audit_commits.specs.Commits.{HasNoConflict, IsLowerBlock};
ghost use Rattle.handover_blocks.specs.Handovers.{IsFirstCommitted, IsHandover};
ghost use Rattle.handover_search.specs.Searches.{AreCommitsOf};
ghost use Rattle.handover_proof.specs.Proofs.{IsHandedOverBy, IsLogOf, IsProofRefusal, ProveHandover};

use crate::chain::proving_blocks;
use crate::texts::exports_of;
use ancestry::Ancestry;
use audit_commits::{certified_chains, first_conflict, proved_commits};
use audit_evidence::{Evidence, EvidenceRefusal, SourceLog, evidence_of_logs};
use blocks::{CommitteeView, NamedHeader};
use handover_search::first_handover;
use log_format::Frames;
use std::alloc::{AllocError, Global};
use std::marker::Model;

/// One file of a proof: an export of at most 4,096 entries. Contracts see its text.
#[derive(Drop)]
pub struct ProofFile {
    text: Vec<u8>,
}

impl Model for ProofFile {
    ghost use Rattle.std.specs.Prelude.{ℕ, List};

    ghost Value = { List ℕ };

    ghost view = { λ f. f.text.items };
}

impl ProofFile {
    /// Its text.
    pub fn as_bytes(&self) -> &[u8]
        ensures { result.now ≡ self.now }
    {
        &self.text
    }
}

// The log that a file is, as replica 0's: an entry without an own vote is anybody's.
fn log_of<'a>(alloc: Global, file: &'a ProofFile) -> Result<SourceLog<'a>, AllocError>
    ensures { IfOk result (IsLogOf file.now) }
{
    Ok(SourceLog {
        replica: 0,
        frames: Frames::of(alloc, file.as_bytes())?,
    })
}

fn logs_of<'a>(alloc: Global, files: &'a [ProofFile]) -> Result<Vec<SourceLog<'a>>, AllocError>
    ensures { IfOk result (λ logs. AllZip IsLogOf files.now logs.items) }
{
    let mut logs = Vec::new(alloc);
    for file in files {
        logs.push(log_of(alloc, file)?)?;
    }
    Ok(logs)
}

// Whether they are one header.
fn are_same(a: &NamedHeader, b: &NamedHeader) -> bool
    ensures { IsTrue result ↔ (a.now ≡ b.now) }
{
    a == b
}

// Whether no two of the commits conflict, which are all that evidence proves.
fn agree(chains: &Ancestry, commits: &[NamedHeader]) -> bool
    requires known { All (Contains (all_of chains.now)) commits.now }
    requires rising { AllPairs IsLowerBlock commits.now }
    ensures { (e : EvidenceValue) → AreCommitsOf e chains.now commits.now → IsTrue result
        → HasNoConflict (committee_of e.committee) e }
{
    match first_conflict(chains, commits) {
        Some(_) => false,
        None => true,
    }
}

// Whether the first handover on their chain is this block.
fn hand_over_first(chains: &Ancestry, commits: &[NamedHeader], block: &NamedHeader) -> bool
    requires known { All (Contains (all_of chains.now)) commits.now }
    ensures { (e : EvidenceValue) → AreCommitsOf e chains.now commits.now → IsTrue result
        → IsFirstCommitted (committee_of e.committee) e IsHandover block.now }
{
    match first_handover(chains, commits) {
        Some(first) => are_same(&first, block),
        None => false,
    }
}

// Whether evidence has no conflict, and its first handover is this block.
fn hands_over_by(
    alloc: Global,
    evidence: &Evidence,
    block: &NamedHeader,
) -> Result<bool, AllocError>
    ensures { IfOk result (λ is. IsTrue is → IsHandedOverBy evidence.now block.now) }
{
    let chains = certified_chains(alloc, evidence)?;
    let commits = proved_commits(alloc, &chains)?;
    if !agree(&chains, &commits) {
        return Ok(false);
    }
    Ok(hand_over_first(&chains, &commits, block))
}

// The files, not judged yet.
fn files_of(
    alloc: Global,
    evidence: &Evidence,
    block: &NamedHeader,
) -> Result<Option<Vec<ProofFile>>, AllocError> {
    let chains = certified_chains(alloc, evidence)?;
    let commits = proved_commits(alloc, &chains)?;
    let blocks = proving_blocks(alloc, &chains, &commits, block)?;
    let Some(texts) = exports_of(alloc, evidence, &blocks)? else {
        return Ok(None);
    };
    let mut files = Vec::new(alloc);
    for text in texts {
        files.push(ProofFile { text })?;
    }
    Ok(Some(files))
}

// Whether the files prove the handover by themselves.
fn are_proof(
    alloc: Global,
    committee: &CommitteeView,
    files: &[ProofFile],
    block: &NamedHeader,
) -> Result<bool, EvidenceRefusal>
    ensures proves { IfOk result (λ are. IsTrue are
        → ProveHandover committee.now files.now block.now) }
    ensures refused { IfErr result (IsProofRefusal committee.now) }
{
    let logs = logs_of(alloc, files)?;
    let shown = evidence_of_logs(alloc, committee, &logs)?;
    Ok(hands_over_by(alloc, &shown, block)?)
}

/// Exports that prove by themselves that the block is the first that hands over, where the evidence does: whoever audits them
/// under the same committee, each as replica 0's log, sees no conflict and this handover. They have an entry for each block of the
/// chain, with a quorum's certificate of its parent, and no own votes; where no header of the evidence names the last certified block, a
/// header is made up for it. They are read and judged here before they are given out. None where the evidence proves no such
/// handover. Refused as Memory where memory was refused, and as Collision where two headers of them have one id.
pub fn prove_handover(
    alloc: Global,
    evidence: &Evidence,
    block: &NamedHeader,
) -> Result<Option<Vec<ProofFile>>, EvidenceRefusal>
    ensures proves { IfOk result (λ files. IfSome files (λ files.
        ProveHandover evidence.now.committee files.items block.now)) }
    ensures refused { IfErr result (IsProofRefusal evidence.now.committee) }
{
    let Some(files) = files_of(alloc, evidence, block)? else {
        return Ok(None);
    };
    if are_proof(alloc, &evidence.committee(), &files, block)? {
        Ok(Some(files))
    } else {
        Ok(None)
    }
}
