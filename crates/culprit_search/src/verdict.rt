//! Verdicts with their bytes.

ghost use Rattle.std.specs.Prelude.{◌≡◌, IfOk};
ghost use Rattle.audit_commits.specs.Culprits.{IsNamedPair, Shows};
ghost use Rattle.culprit_search.specs.Verdicts.{Accuses};
ghost use Rattle.verdict_format.specs.Proofs.{IsProof};
ghost use Rattle.verdict_format.specs.RuleNumbers.{rule_number};
ghost use Rattle.verdict_format.specs.VerdictText.{IsVerdictOf};
ghost use Rattle.verdict_format.specs.Verdicts.{earlier_in, verdict_kind_in, later_in, replica_in};

use crate::pairs::Offence;
use audit_evidence::Evidence;
use std::alloc::{AllocError, Global};
use std::marker::Model;
use verdict_format::{Rule, VerdictParts, write_verdict};

/// A verdict that was written, with its bytes. Contracts see the bytes, which spell its parts.
#[derive(Drop)]
pub struct Verdict {
    parts: VerdictParts,
    bytes: Vec<u8>,
}

impl Model for Verdict {
    ghost use Rattle.std.specs.Prelude.{ℕ, List};
    ghost use Rattle.verdict_format.specs.VerdictText.{IsVerdictOf};

    ghost Value = { List ℕ };

    ghost view = { λ v. v.bytes.items };

    ghost invariant = { λ v. IsVerdictOf v.bytes.items v.parts };
}

impl Verdict {
    /// The bytes, as `write_verdict` lays them out.
    pub fn as_bytes(&self) -> &[u8]
        ensures { result.now ≡ self.now }
    {
        self.bytes.as_slice()
    }

    /// What the bytes say.
    pub fn parts(&self) -> &VerdictParts
        ensures { IsVerdictOf self.now result.now }
    {
        &self.parts
    }

    /// The number of the accused replica.
    pub fn replica(&self) -> u16
        ensures { result ≡ replica_in self.now }
    {
        self.parts.replica
    }

    /// The rule that the replica broke.
    pub fn rule(&self) -> Rule
        ensures { rule_number result ≡ verdict_kind_in self.now }
    {
        self.parts.shown.rule()
    }

    /// The view of the earlier vote.
    pub fn earlier_view(&self) -> u64
        ensures { result ≡ (earlier_in self.now).view }
    {
        self.parts.earlier.view
    }

    /// The view of the later vote, which is that of the earlier one in a double vote.
    pub fn later_view(&self) -> u64
        ensures { result ≡ (later_in self.now).view }
    {
        self.parts.later.view
    }
}

/// The verdict on a replica's named pair. Memory is refused where its bytes could not be held.
pub fn verdict_on(
    alloc: Global,
    evidence: &Evidence,
    replica: u16,
    offence: &Offence,
) -> Result<Verdict, AllocError>
    requires named { IsNamedPair evidence.now replica offence.now.earlier offence.now.later }
    requires shown { Shows evidence.now offence.now.earlier offence.now.later offence.now.shown }
    ensures accuses { IfOk result (Accuses evidence.now replica) }
    ensures accepted { IfOk result (IsProof evidence.now.committee) }
{
    let parts = offence.parts(evidence.committee().chain(), replica);
    let bytes = write_verdict(alloc, &parts)?;
    Ok(Verdict { parts, bytes })
}
