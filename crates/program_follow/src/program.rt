//! The program over handed-in words and streams, so that tests run it whole.

ghost use Rattle.std.specs.Prelude.{◌≡◌, ◌≢◌, ◌⊎◌, ◌++◌, ℕ, List, IfErr, IfOk, OnErr, OnOk, length};
ghost use Rattle.base_streams.specs.Streams.{Wrote, WrotePart};
ghost use Rattle.base_text.specs.Printed.{Told};
ghost use Rattle.blocks.specs.Committees.{IsCommittee};
ghost use Rattle.log_request.specs.HeardLines.{TellsHeard};
ghost use Rattle.program_parts.specs.Writes.{CountsWrites};
ghost use Rattle.program_parts.specs.declared.program_fault.ProgramFault.{ProgramFault as FaultValue};
ghost use Rattle.program_follow.specs.FaultLines.{follow_fault_line};
ghost use Rattle.program_follow.specs.Faults.{GivesUp, GivesUpOver, GivesUpStep, IsFollowFault, IsNextFault};
ghost use Rattle.program_follow.specs.Outputs.{ComesTo, IsOutput, MayComeNext, step_text};
ghost use Rattle.program_follow.specs.RenewalLines.{IsReadAt};
ghost use Rattle.program_follow.specs.Words.{IsUsage, outs_in, path_in, usage_fault_line, wrong_word};
ghost use Rattle.program_follow.specs.declared.fault.FollowFault.{FollowFault as OwnFaultValue};

use crate::fault::{Fault, FollowFault};
use crate::following::{Following, follow};
use crate::host::FollowHost;
use crate::lines::lines_text;
use crate::proving::{see_all_new, write_proofs};
use crate::reading::read_evidence;
use crate::renewing::{read_renewal, renewal_text};
use crate::words::{Step, Words, read_words};
use audit_evidence::Evidence;
use base_streams::Sink;
use blocks::CommitteeView;
use culprit_search::{Report, ReportError, audit, write_report};
use handover_renewals::Renewal;
use handover_steps::{SuccessorRefusal, successor_payload};
use log_request::ChainSource;
use log_transfer::Connector;
use program_parts::{ProgramFault, exit_status, parse_committee, read_committee, write_out};
use std::alloc::Global;
use std::fs::{File, Files};
use std::net::{Net, TcpListener, TcpStream};
use std::sync::Wait;
use std::thread::Threads;
use std::time::Clock;

/// The ledger was handed over to the new committee, or how the program is called was printed.
pub const FOLLOWS: u8 = 0;

/// It was handed over to another committee, or that it was is not proved.
pub const FOLLOWS_NOT: u8 = 1;

/// Commits conflict.
pub const CONFLICT: u8 = 3;

/// How the program is called.
const USAGE: &[u8] = b"hs_follow OLD NEW SOURCE.. [--renewal FILE] [--proof OUT] [--light OUT]\n\
hs_follow C0 --lineage DIR [--fetch SOURCE..]\n";

/// Audits the logs of the old committee, and says whether it handed the ledger over to the new one, as the words ask, or with
/// no words prints how the program is called. Where a proof is asked for and a handover is proved, its files are written. Where a renewal
/// is named, what it says of the new committee is printed too, and changes nothing else.
/// Answers the exit status: `FOLLOWS`, `FOLLOWS_NOT`, `CONFLICT`, else 2. The lines go to `out`, and with status 2 a fault's
/// line to `faults`, which is else left alone. Nothing is printed before all else is done; but `notes` is told before what was heard
/// of the servers.
pub fn run_follow<
    'a,
    F: Files<File = File> + Sync,
    T: Threads + Wait + Clock + Net<Listener = TcpListener, Stream = TcpStream> + Sync,
    W: Sink,
    E: Sink,
    N: Sink,
>(
    files: &'a F,
    rt: &'a T,
    alloc: Global,
    words: &'a [String],
    out: &mut W,
    faults: &mut E,
    notes: &mut N,
) -> u8
where
    F::Dir: Send,
    ensures status { (result ≡ 0) ⊎ (result ≡ 1) ⊎ (result ≡ 2) ⊎ (result ≡ 3) }
    ensures printed { result ≢ 2 → (text : List ℕ)
        × IsOutput ⟦<ChainSource<'a, T, F> as Connector>⟧ words.now result text
        × Wrote (W.text out.old) (W.text out.new) text }
    ensures silent { result ≢ 2 → faults.new ≡ faults.old }
    ensures no_failure { result ≢ 2 → W.failed out.new ≡ W.failed out.old }
    ensures usage { IsUsage words.now → (result ≡ 2)
        × Told (E.text faults.old) (E.text faults.new) (E.failed faults.old) (E.failed faults.new)
        (usage_fault_line (wrong_word words.now)) }
    ensures told { result ≡ 2 → (fault : FaultValue OwnFaultValue)
        × GivesUp ⟦<ChainSource<'a, T, F> as Connector>⟧ words.now fault
        W.text W.failed out.old out.new
        × Told (E.text faults.old) (E.text faults.new) (E.failed faults.old) (E.failed faults.new)
        (follow_fault_line fault) }
    ensures noted { (notes.new ≡ notes.old)
        ⊎ ((count : ℕ) × TellsHeard count (N.text notes.old) (N.text notes.new)) }
{
    let host = FollowHost { files, rt, alloc };
    exit_status(run(&host, words, out, notes), faults)
}

fn run<
    'a,
    F: Files<File = File> + Sync,
    T: Threads + Wait + Clock + Net<Listener = TcpListener, Stream = TcpStream> + Sync,
    W: Sink,
    N: Sink,
>(
    host: &FollowHost<'a, F, T>,
    words: &'a [String],
    out: &mut W,
    notes: &mut N,
) -> Result<u8, Fault<'a>>
where
    F::Dir: Send,
    ensures printed { IfOk result (λ status. (status ≢ 2) × ((text : List ℕ)
        × IsOutput ⟦<ChainSource<'a, T, F> as Connector>⟧ words.now status text
        × Wrote (W.text out.old) (W.text out.new) text)) }
    ensures no_failure { IfOk result (λ status. W.failed out.new ≡ W.failed out.old) }
    ensures given_up { IfErr result (λ fault.
        GivesUp ⟦<ChainSource<'a, T, F> as Connector>⟧ words.now fault
        W.text W.failed out.old out.new) }
    ensures noted { (notes.new ≡ notes.old)
        ⊎ ((count : ℕ) × TellsHeard count (N.text notes.old) (N.text notes.new)) }
{
    match read_words(host.alloc, words)? {
        Words::Usage => {
            write_out(out, USAGE)?;
            Ok(FOLLOWS)
        }
        Words::Step(step) => take_step(host, &step, out, notes),
    }
}

// One step: reads both committees, and then the logs.
fn take_step<
    'a,
    F: Files<File = File> + Sync,
    T: Threads + Wait + Clock + Net<Listener = TcpListener, Stream = TcpStream> + Sync,
    W: Sink,
    N: Sink,
>(host: &FollowHost<'a, F, T>, step: &Step<'a>, out: &mut W, notes: &mut N) -> Result<u8, Fault<'a>>
where
    F::Dir: Send,
    ensures printed { IfOk result (λ status. (text : List ℕ)
        × ComesTo ⟦<ChainSource<'a, T, F> as Connector>⟧ (path_in step.now.renewal)
        step.now.sources.items status text
        × Wrote (W.text out.old) (W.text out.new) text) }
    ensures no_failure { IfOk result (λ status. W.failed out.new ≡ W.failed out.old) }
    ensures given_up { IfErr result (λ fault.
        GivesUpStep ⟦<ChainSource<'a, T, F> as Connector>⟧ step.now.old.now step.now.new.now
        (path_in step.now.renewal) (outs_in step.now.proof step.now.light) step.now.sources.items fault
        W.text W.failed out.old out.new) }
    ensures noted { (notes.new ≡ notes.old) ⊎ TellsHeard (length step.now.sources.items)
        (N.text notes.old) (N.text notes.new) }
{
    let old_bytes = read_committee(host.files, host.alloc, step.old)?;
    let new_bytes = read_committee(host.files, host.alloc, step.new)?;
    let old = parse_committee(&old_bytes)?;
    let new = next_committee(&old, &new_bytes)?;
    let renewal = read_renewal(host.files, host.alloc, step.renewal)?;
    see_all_new(host.files, step.proof, step.light)?;
    follow_sources(host, &old, &new, step, &renewal, out, notes)
}

// The committee of this file, if it may come after the old one. A key of the old one, but in a slot that may keep it, would sign twice
// under one one-time key, from a new folder.
fn next_committee<'a, 'b>(
    old: &CommitteeView,
    file: &'b [u8],
) -> Result<CommitteeView<'b>, Fault<'a>>
    ensures found { IfOk result (λ new. (new ≡ file.now) × MayComeNext old.now file.now) }
    ensures refused { IfErr result (IsNextFault old.now file.now) }
    // What the type keeps.
    ensures committee { IsCommittee old.now }
{
    // For the proof: it is a committee.
    let _old = old.bytes();
    match successor_payload(&[], old, file) {
        Ok(_payload) => parse_committee(file),
        Err(SuccessorRefusal::Committee(refusal)) => Err(ProgramFault::Committee(refusal)),
        Err(SuccessorRefusal::OldKey(key)) => Err(ProgramFault::Own(FollowFault::OldKey(key))),
        // Of a file that was read this never comes.
        Err(SuccessorRefusal::NotRead) => Err(ProgramFault::Usage),
    }
}

// Audits the sources under the old committee, writes the proof if one is asked for, and prints what they say of the new one, and what the
// renewal does, if there is one.
fn follow_sources<
    'a,
    F: Files<File = File> + Sync,
    T: Threads + Wait + Clock + Net<Listener = TcpListener, Stream = TcpStream> + Sync,
    W: Sink,
    N: Sink,
>(
    host: &FollowHost<'a, F, T>,
    old: &CommitteeView,
    new: &CommitteeView,
    step: &Step<'a>,
    renewal: &Option<Renewal>,
    out: &mut W,
    notes: &mut N,
) -> Result<u8, Fault<'a>>
where
    F::Dir: Send,
    requires next { MayComeNext old.now new.now }
    requires read { IsReadAt (path_in step.now.renewal) renewal.now }
    ensures printed { IfOk result (λ status. (text : List ℕ)
        × ComesTo ⟦<ChainSource<'a, T, F> as Connector>⟧ (path_in step.now.renewal)
        step.now.sources.items status text
        × Wrote (W.text out.old) (W.text out.new) text) }
    ensures no_failure { IfOk result (λ status. W.failed out.new ≡ W.failed out.old) }
    ensures given_up { IfErr result (λ fault.
        GivesUpOver (IsFollowFault ⟦<ChainSource<'a, T, F> as Connector>⟧
        (outs_in step.now.proof step.now.light) step.now.sources.items)
        (ComesTo ⟦<ChainSource<'a, T, F> as Connector>⟧ (path_in step.now.renewal)
        step.now.sources.items)
        fault W.text W.failed out.old out.new) }
    ensures noted { (notes.new ≡ notes.old) ⊎ TellsHeard (length step.now.sources.items)
        (N.text notes.old) (N.text notes.new) }
{
    let (files, alloc) = (host.files, host.alloc);
    let evidence = read_evidence(host, old, &step.sources, notes)?;
    let report = audit(alloc, &evidence)?;
    let following = follow(alloc, &evidence, &report, new.bytes())?;
    let judged = renewal_text(alloc, old, new, renewal)?;
    write_proofs(files, alloc, &evidence, &following, step.proof, step.light)?;
    print(alloc, &evidence, &report, &following, &judged, out)?;
    Ok(following.status())
}

// Prints the report, what follows, and the lines on a renewal.
fn print<'a, W: Sink>(
    alloc: Global,
    evidence: &Evidence,
    report: &Report,
    following: &Following,
    renewal: &[u8],
    out: &mut W,
) -> Result<(), Fault<'a>>
    ensures ok { OnOk result (Wrote (W.text out.old) (W.text out.new)
        (step_text evidence.now.sources report.now following.now renewal.now)) }
    ensures refused { IfErr result (λ fault. ((fault ≡ ProgramFault.Memory) × (out.new ≡ out.old))
        ⊎ ((fault ≡ ProgramFault.Output) × WrotePart (W.text out.old) (W.text out.new)
        (step_text evidence.now.sources report.now following.now renewal.now))) }
    ensures counted { CountsWrites result (W.failed out.old) (W.failed out.new) }
{
    let lines = lines_text(alloc, following, report.commits(), renewal)?;
    match write_report(alloc, evidence, report, out) {
        Ok(()) => write_out(out, &lines),
        Err(ReportError::Memory) => Err(ProgramFault::Memory),
        Err(ReportError::Sink) => Err(ProgramFault::Output),
    }
}
