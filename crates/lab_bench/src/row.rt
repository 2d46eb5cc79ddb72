//! What is printed.

use crate::measuring::{Found, Measured};
use crate::plan::Plan;
use std::io;

/// The head of the table.
pub(crate) const HEAD: &str =
    "| Ledger | Replicas | Blocks | Different votes | Floor, ms | Evidence on one thread, ms | Evidence, a thread for each log, ms | Reading | Joining | Checks | Judged, ms | Search, ms | Beside the checks |
|---|---|---|---|---|---|---|---|---|---|---|---|---|";

/// Prints what was found.
pub(crate) fn print_counts<R: Print>(rt: &R, plan: Plan, found: &Found) -> io::Result<()> {
    let Plan {
        kind,
        replicas,
        blocks,
    } = plan;
    let Found {
        entries,
        votes,
        commits,
        culprits,
    } = *found;
    println!(rt;
        "{} {replicas} {blocks}: entries {entries} votes {votes} commits {commits} culprits {culprits}",
        kind.name()
    )
}

// How much of the time on one thread is above the floor, in percent.
fn beside(found: &Measured) -> u64 {
    let whole = found.one_thread.saturating_add(found.audit);
    let beside = whole.saturating_sub(found.floor).saturating_mul(100);
    beside.checked_div(whole).unwrap_or(0)
}

/// Prints a row of the table.
pub(crate) fn print_row<R: Print>(rt: &R, plan: Plan, found: &Measured) -> io::Result<()> {
    let Plan {
        kind,
        replicas,
        blocks,
    } = plan;
    let name = kind.name();
    let votes = found.found.votes;
    let floor = found.floor / 1_000;
    let one_thread = found.one_thread / 1_000;
    let threads = found.threads.whole() / 1_000;
    let reading = found.threads.reading / 1_000;
    let joining = found.threads.joining / 1_000;
    let checks = found.threads.checks / 1_000;
    let judged = found.judged.whole() / 1_000;
    let audit = found.audit / 1_000;
    let beside = beside(found);
    println!(rt;
        "| {name} | {replicas} | {blocks} | {votes} | {floor} | {one_thread} | {threads} | {reading} | {joining} | {checks} | {judged} | {audit} | {beside} % |"
    )
}
