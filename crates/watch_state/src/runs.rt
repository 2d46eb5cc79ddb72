//! Which parts of a source are joined into one.

ghost use Rattle.std.specs.List.{All};
ghost use Rattle.std.specs.Prelude.{◌≡◌, ◌↔◌, ◌+◌, ◌-◌, ◌^◌, ◌≤◌, ℕ, IsTrue, MatchOption, length, min};
ghost use Rattle.watch_state.specs.Joins.{IsRun, IsShortestRun, bytes_of, joined, most_of_a_part};
ghost use Rattle.watch_state.specs.Runs.{IsCost};

use crate::name::PartFile;

/// How many parts are joined into one.
pub const JOINED: usize = 8;

/// How many bytes the file of a part has at most, in which one or more are joined.
pub const MOST_OF_A_PART: u64 = 67_108_864;

// More than the bytes of any run.
const NO_RUN: u64 = u64::MAX;

// How many bytes they have together, at most so many as a number of 64 bits can be.
fn bytes_of(run: &[PartFile]) -> u64
    ensures { result ≡ min (bytes_of run.now) (2 ^ 64 - 1) }
{
    let mut bytes: u64 = 0;
    for part in run {
        bytes = bytes.saturating_add(part.bytes);
    }
    bytes
}

// Whether all are of this log.
fn are_of(run: &[PartFile], log: u16) -> bool
    ensures { IsTrue result ↔ All (λ p. p.name.log ≡ log) run.now }
{
    run.iter().all(|part| part.name.log == log)
}

// How many bytes the run has that begins there, or `NO_RUN`.
fn cost_of(parts: &[PartFile], i: usize) -> u64
    requires { i + joined ≤ length parts.now }
    ensures { IsCost parts.now i result }
{
    let run = &parts[i..i + JOINED];
    let bytes = bytes_of(run);
    if bytes > MOST_OF_A_PART || !are_of(run, parts[i].name.log) {
        return NO_RUN;
    }
    bytes
}

/// Of the parts of a source, in the order of their names, the first of the eight that are joined next: they follow one another, all
/// of one log, one file may have their bytes, and no other eight have fewer; the first such eight. None where there are none.
pub fn shortest_run(parts: &[PartFile]) -> Option<usize>
    ensures { MatchOption result ((k : ℕ) → IsRun parts.now k → ⊥) (IsShortestRun parts.now) }
{
    let mut least = NO_RUN;
    let mut place = None;
    for i in 0..parts.len().saturating_sub(JOINED - 1) {
        let cost = cost_of(parts, i);
        if cost < least {
            least = cost;
            place = Some(i);
        }
    }
    place
}
