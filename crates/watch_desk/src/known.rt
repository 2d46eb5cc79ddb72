//! The verdicts that a watch knows.

ghost use Rattle.std.specs.Prelude.{◌≡◌, IfOk, MatchOption};
ghost use Rattle.verdict_format.specs.Verdicts.{earlier_in, later_in, replica_in, verdict_kind_in};
ghost use Rattle.watch_report.specs.Proved.{pair_in};
ghost use Rattle.watch_desk.specs.Verdicts.{IsVerdictOn, is_named, unnamed};

use base_shared::Shared;
use blocks::{Ballot, CommitteeView};
use culprit_search::Verdict;
use std::alloc::{AllocError, Global};
use std::marker::Model;
use verdict_checker::check;
use verdict_format::VerdictView;
use watch_report::Pair;

/// A verdict that a watch knows, of an audit or of a file that was there at the start. Contracts see its bytes.
#[derive(Drop)]
pub struct KnownVerdict {
    replica: u16,
    pair: Pair,
    bytes: Vec<u8>,
}

impl Model for KnownVerdict {
    ghost use Rattle.std.specs.Prelude.{◌≡◌, ℕ, List};
    ghost use Rattle.verdict_format.specs.Verdicts.{replica_in};
    ghost use Rattle.watch_report.specs.Proved.{pair_in};

    ghost Value = { List ℕ };

    ghost view = { λ v. v.bytes.items };

    ghost invariant = { λ v. (v.replica ≡ replica_in v.bytes.items)
        × (v.pair ≡ pair_in v.bytes.items) };
}

// The two votes that a verdict is of.
#[tactic(auto, using(crate::proofs::Pairs::pair_of))]
fn pair_of(verdict: &Verdict) -> Pair
    ensures { result ≡ pair_in verdict.now }
{
    let parts = verdict.parts();
    let rule = verdict.rule();
    Pair {
        rule: rule.number(),
        earlier: Ballot {
            view: parts.earlier.view,
            id: parts.earlier.id,
        },
        later: Ballot {
            view: parts.later.view,
            id: parts.later.id,
        },
    }
}

// .. and those that bytes are of.
fn pair_read(view: &VerdictView) -> Pair
    ensures { result ≡ pair_in view.now }
{
    let rule = view.rule();
    Pair {
        rule: rule.number(),
        earlier: view.earlier().ballot(),
        later: view.later().ballot(),
    }
}

impl KnownVerdict {
    /// A verdict of an audit.
    pub fn of(alloc: Global, verdict: &Verdict) -> Result<KnownVerdict, AllocError>
        ensures { IfOk result (λ v. v ≡ verdict.now) }
    {
        Ok(KnownVerdict {
            replica: verdict.replica(),
            pair: pair_of(verdict),
            bytes: verdict.as_bytes().to_vec(alloc)?,
        })
    }

    /// The number of the accused replica.
    pub fn replica(&self) -> u16
        ensures { result ≡ replica_in self.now }
    {
        self.replica
    }

    /// Which rule it broke, and by which votes.
    pub fn pair(&self) -> Pair
        ensures { result ≡ pair_in self.now }
    {
        self.pair
    }

    /// The number of the rule that it broke.
    pub fn rule(&self) -> u8
        ensures { result ≡ verdict_kind_in self.now }
    {
        self.pair.rule
    }

    /// The view of the earlier vote.
    pub fn earlier_view(&self) -> u64
        ensures { result ≡ (earlier_in self.now).view }
    {
        self.pair.earlier.view
    }

    /// The view of the later vote.
    pub fn later_view(&self) -> u64
        ensures { result ≡ (later_in self.now).view }
    {
        self.pair.later.view
    }

    /// The bytes.
    pub fn as_bytes(&self) -> &[u8]
        ensures { result.now ≡ self.now }
    {
        self.bytes.as_slice()
    }
}

/// The verdict that these bytes of a file are, where they are one on this replica that the checker accepts.
pub fn judge_kept(committee: &CommitteeView, replica: u16, bytes: Vec<u8>) -> Option<KnownVerdict>
    ensures { MatchOption result (IsVerdictOn committee.now replica bytes.items → ⊥)
        (λ v. (v ≡ bytes.items) × IsVerdictOn committee.now replica v) }
{
    let pair = match VerdictView::parse(&bytes) {
        Ok(view) => pair_read(&view),
        Err(_) => return None,
    };
    match check(committee, &bytes) {
        Ok(finding) if finding.replica == replica => Some(KnownVerdict {
            replica,
            pair,
            bytes,
        }),
        _ => None,
    }
}

/// Whether one of the verdicts is on the replica.
pub(crate) fn is_named(known: &[Shared<KnownVerdict>], replica: u16) -> bool
    ensures { result ≡ is_named known.now replica }
{
    known.iter().any(|v| v.get().replica() == replica)
}

/// Those of an audit's verdicts that are on replicas which none of the known ones is on, in their order.
pub(crate) fn unnamed(
    alloc: Global,
    known: &[Shared<KnownVerdict>],
    verdicts: &[Verdict],
) -> Result<Vec<Shared<KnownVerdict>>, AllocError>
    ensures { IfOk result (λ found. found.items ≡ unnamed known.now verdicts.now) }
{
    let mut found = Vec::new(alloc);
    for verdict in verdicts {
        if !is_named(known, verdict.replica()) {
            let new = KnownVerdict::of(alloc, verdict)?;
            found.push(Shared::new(alloc, new)?)?;
        }
    }
    Ok(found)
}
