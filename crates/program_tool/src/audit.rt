//! `hs_tool audit COMMITTEE OUTDIR SOURCE.. [--tries T] [--strict] [--strict-all] [--why] [--keep KEPT]
//! [--json FILE] [--time N]`: what logs prove, and whom they accuse.

ghost use Rattle.std.specs.Prelude.{◌≡◌, ◌≢◌, ◌⊎◌, ◌++◌, [], List, false, true, IfErr, IfOk, OnOk, length, map, string_bytes};
ghost use Rattle.std.specs.List.{All};
ghost use Rattle.parallel_verify.specs.Collections.{MayBeTried};
ghost use Rattle.program_parts.specs.Writes.{CountsWrites};
ghost use Rattle.audit_run.specs.Data.{verdict_path};
ghost use Rattle.program_tool.specs.AuditFiles.{AreReportsOn, AreTried, HasStored, IsTried, fault_in, first_of, verdict_files};
ghost use Rattle.program_tool.specs.Audits.{AreCulpritsPrinted, Both, EndsAs, IsAuditPrinted, IsEndOf, IsEnoughPrinted, IsTooLittlePrinted, Of, status_of};
ghost use Rattle.program_tool.specs.HandedOver.{TellsHandover};
ghost use Rattle.program_tool.specs.Keeping.{AreKept};
ghost use Rattle.program_tool.specs.Notes.{TellsNotes};
ghost use Rattle.program_tool.specs.OpenedSources.{SpellSources};
ghost use Rattle.program_tool.specs.StoredFiles.{Stored, StoredFile};
ghost use Rattle.program_tool.specs.Strict.{AreFound, AreJudgedFor};
ghost use Rattle.parallel_verify.specs.Readings.{MayBeTriedIn, sources_of};
ghost use Rattle.parallel_verify.specs.declared.judging.Judging.{Judging as JudgingValue};

use crate::fault::{Fault, FolderFile, ToolFault, fault_of_run};
use crate::handed_over::tell_handover;
use crate::host::ToolHost;
use crate::keep::{KeepOne, Keeper};
use crate::progress::Progress;
use crate::report_file::{clear_report, store_report};
use crate::sources::{open_sources, read_source_words, servers_of};
use crate::stored::{Extras, StoreFault, StoreFiles};
use crate::strict::falls_short;
use crate::tool::{CULPRITS, DONE, TOO_FEW_SOUND};
use crate::why::{tell_sound, tell_why};
use audit_run::{Findings, audit_judged, what_is_kept_is_the_log};
use base_streams::Sink;
use blocks::CommitteeView;
use certificates::Verifier;
use culprit_search::{Report, Verdict};
use log_request::{ChainServer, ChainSource, tell_heard};
use log_transfer::{Connector, TcpDialer};
use parallel_verify::{Judging, Observed, Source};
use program_parts::{ProgramFault, SourceWord, parse_committee, read_committee};
use program_words::{AuditWishes, Strictness, Tries};
use std::alloc::{AllocError, Global};
use std::fs;
use std::fs::{File, Files};
use std::net::{Net, TcpListener, TcpStream};
use std::sync::Wait;
use std::thread::Threads;
use std::time::Clock;

/// How an audit ended.
#[derive(Clone, Copy, Debug, PartialEq, Eq)]
pub(crate) enum AuditEnd {
    /// No culprit was found, in as many sound sources as are asked for.
    NoCulprit,
    /// No culprit was found, and the sources that are sound are fewer.
    TooFewSound,
    /// There are culprits.
    Culprits,
}

impl AuditEnd {
    /// The exit status of the program.
    pub fn status(self) -> u8
        ensures { result ≡ status_of self }
    {
        match self {
            AuditEnd::NoCulprit => DONE,
            AuditEnd::TooFewSound => TOO_FEW_SOUND,
            AuditEnd::Culprits => CULPRITS,
        }
    }
}

/// Audits the logs of the sources that the words name, under the committee of the file, as `audit_run::audit_judged` does, which
/// prints the report. Then the verdict on each culprit is stored in `folder`, new or in place of what was there. If `folder` is no
/// folder, no source is read and nothing printed. `extras.whys` is told of a handover, and last, also after a fault, what was heard of the
/// servers. If it is asked for, the logs are kept as they are read, `extras.whys` is told why sources are not sound, and where the verdicts
/// are, and a report for programs is stored, of which an older one is removed first. Answers how it ended.
pub(crate) fn audit_sources<
    'a,
    F: Files<File = File> + Sync,
    T: Threads + Wait + Clock + Net<Listener = TcpListener, Stream = TcpStream> + Sync,
    W: Sink,
    Y: Sink,
    D: StoreFiles,
>(
    host: &ToolHost<'a, F, T>,
    committee: &'a str,
    folder: &'a str,
    words: &[&'a str],
    tries: Tries,
    wishes: AuditWishes<'a>,
    out: &mut W,
    extras: &mut Extras<Y, D>,
) -> Result<AuditEnd, Fault<'a>>
where
    F::Dir: Send,
    ensures culprits { IfOk result (λ end. end ≡ AuditEnd.Culprits
        → AreCulpritsPrinted ⟦<ChainSource<'a, T, F> as Connector>⟧ words.now tries.count
        (W.text out.old) (W.text out.new) (HasStored (Stored (D.stored extras.old.files)
        (D.stored extras.new.files)) folder.now words.now wishes.entry.json)) }
    ensures none { IfOk result (λ end. end ≡ AuditEnd.NoCulprit
        → IsEnoughPrinted ⟦<ChainSource<'a, T, F> as Connector>⟧ wishes.entry.strictness
        words.now tries.count (W.text out.old) (W.text out.new)
        (HasStored (Stored (D.stored extras.old.files) (D.stored extras.new.files))
        folder.now words.now wishes.entry.json)) }
    ensures too_few { IfOk result (λ end. end ≡ AuditEnd.TooFewSound
        → IsTooLittlePrinted ⟦<ChainSource<'a, T, F> as Connector>⟧ wishes.entry.strictness
        words.now tries.count (W.text out.old) (W.text out.new)
        (HasStored (Stored (D.stored extras.old.files) (D.stored extras.new.files))
        folder.now words.now wishes.entry.json)) }
    ensures counted { CountsWrites result (W.failed out.old) (W.failed out.new) }
    ensures reasons { (extras.new.whys ≡ extras.old.whys) ⊎ ((wishes.entry.tells_why ≡ true)
        ⊎ TellsNotes (length words.now) (Y.text extras.old.whys) (Y.text extras.new.whys)) }
{
    if let Some(path) = wishes.json {
        clear_report(host.files, host.alloc, path, committee, words)?;
    }
    let named = read_source_words(host.alloc, words)?;
    let bytes = read_committee(host.files, host.alloc, committee)?;
    let committee = parse_committee(&bytes)?;
    see_folder(host.files, folder)?;
    let servers = servers_of(host, committee.chain(), &named)?;
    let end = audit_servers(
        host, &committee, &named, &servers, words, folder, tries, wishes, out, extras,
    );
    tell_heard(host.alloc, &servers, &mut extras.whys);
    end
}

// The same of sources with these servers, which the words name.
fn audit_servers<
    'a,
    's,
    F: Files<File = File> + Sync,
    T: Threads + Wait + Clock + Net<Listener = TcpListener, Stream = TcpStream> + Sync,
    W: Sink,
    Y: Sink,
    D: StoreFiles,
>(
    host: &ToolHost<'a, F, T>,
    committee: &CommitteeView,
    named: &[SourceWord<'a>],
    servers: &'s [ChainServer<TcpDialer<'a, T>>],
    words: &[&'a str],
    folder: &'a str,
    tries: Tries,
    wishes: AuditWishes<'a>,
    out: &mut W,
    extras: &mut Extras<Y, D>,
) -> Result<AuditEnd, Fault<'a>>
where
    F::Dir: Send,
    requires spelled { SpellSources words.now named.now }
    requires each { length servers.now ≡ length named.now }
    ensures culprits { IfOk result (λ end. end ≡ AuditEnd.Culprits
        → AreCulpritsPrinted ⟦<ChainSource<'a, T, F> as Connector>⟧ words.now tries.count
        (W.text out.old) (W.text out.new) (HasStored (Stored (D.stored extras.old.files)
        (D.stored extras.new.files)) folder.now words.now wishes.entry.json)) }
    ensures none { IfOk result (λ end. end ≡ AuditEnd.NoCulprit
        → IsEnoughPrinted ⟦<ChainSource<'a, T, F> as Connector>⟧ wishes.entry.strictness
        words.now tries.count (W.text out.old) (W.text out.new)
        (HasStored (Stored (D.stored extras.old.files) (D.stored extras.new.files))
        folder.now words.now wishes.entry.json)) }
    ensures too_few { IfOk result (λ end. end ≡ AuditEnd.TooFewSound
        → IsTooLittlePrinted ⟦<ChainSource<'a, T, F> as Connector>⟧ wishes.entry.strictness
        words.now tries.count (W.text out.old) (W.text out.new)
        (HasStored (Stored (D.stored extras.old.files) (D.stored extras.new.files))
        folder.now words.now wishes.entry.json)) }
    ensures counted { CountsWrites result (W.failed out.old) (W.failed out.new) }
    ensures reasons { (extras.new.whys ≡ extras.old.whys) ⊎ ((wishes.entry.tells_why ≡ true)
        ⊎ TellsHandover (Y.text extras.old.whys) (Y.text extras.new.whys)) }
{
    let keeper = Keeper::begin(host.files, host.alloc, wishes.keep)?;
    let progress = Progress::new(host.alloc, host.rt, host.console, named.len())?;
    let sources = open_sources(host, named, servers, tries, &progress)?;
    audit_opened(
        host, committee, &progress, sources, words, folder, wishes, keeper, out, extras,
    )
}

// The same of sources that were opened.
fn audit_opened<
    'a,
    F: Files<File = File> + Sync,
    T: Threads + Wait + Clock + Sync,
    C: Connector + Send,
    V: Verifier + Sync,
    W: Sink,
    Y: Sink,
    D: StoreFiles,
>(
    host: &ToolHost<'a, F, T>,
    committee: &CommitteeView,
    verifier: &V,
    sources: Vec<Source<C>>,
    words: &[&'a str],
    folder: &'a str,
    wishes: AuditWishes<'a>,
    keeper: Keeper<'a, F>,
    out: &mut W,
    extras: &mut Extras<Y, D>,
) -> Result<AuditEnd, Fault<'a>>
    requires tries { All (MayBeTried C.allowed) sources.items }
    ensures ended { IfOk result (EndsAs C.Connector wishes.entry.strictness committee.now sources.items
        (W.text out.old) (W.text out.new) (HasStored (Stored (D.stored extras.old.files)
        (D.stored extras.new.files)) folder.now words.now wishes.entry.json)) }
    ensures counted { CountsWrites result (W.failed out.old) (W.failed out.new) }
    ensures reasons { (extras.new.whys ≡ extras.old.whys) ⊎ ((wishes.entry.tells_why ≡ true)
        ⊎ TellsHandover (Y.text extras.old.whys) (Y.text extras.new.whys)) }
{
    let mut keeper = keeper;
    let found = audit_kept(host, committee, verifier, sources, wishes, &mut keeper, out)?;
    let end = end_of(wishes.strictness, committee, &found);
    finish(
        host, committee, words, folder, wishes, &keeper, &found, end, extras,
    )?;
    Ok(end)
}

// What the sources are found to show, once it is printed and their logs are kept.
fn audit_kept<
    'a,
    'c,
    F: Files<File = File> + Sync,
    T: Threads + Wait + Sync,
    C: Connector + Send,
    V: Verifier + Sync,
    W: Sink,
>(
    host: &ToolHost<'a, F, T>,
    committee: &CommitteeView<'c>,
    verifier: &V,
    sources: Vec<Source<C>>,
    wishes: AuditWishes<'a>,
    keeper: &mut Keeper<'a, F>,
    out: &mut W,
) -> Result<Findings<'c>, Fault<'a>>
    requires tries { All (MayBeTried C.allowed) sources.items }
    ensures printed { IfOk result (λ found. (judging : JudgingValue)
        × AreJudgedFor wishes.entry.strictness wishes.entry.json judging
        × IsAuditPrinted C.Connector (AreFound judging found.judged.items found.report)
        committee.now sources.items (W.text out.old) (W.text out.new) found.report.verdicts) }
    ensures counted { CountsWrites result (W.failed out.old) (W.failed out.new) }
{
    keeper.prepare(&sources)?;
    let observed = keeper.observe(sources)?;
    let judging = judging_for(wishes);
    let judged = print_found(
        host.rt, host.alloc, committee, verifier, observed, judging, out,
    );
    keeper.name_all();
    judged
}

// Whether the sources are judged: if someone asks what was found of them.
fn judging_for(wishes: AuditWishes) -> Judging
    ensures { AreJudgedFor wishes.entry.strictness wishes.entry.json result }
{
    if wishes.strictness == Strictness::Lax && !wishes.tells_why && wishes.json.is_none() {
        return Judging::No;
    }
    Judging::Each
}

// What comes after the report: the verdicts, and what else is asked for. All verdicts are tried before it is told that one could not
// be stored.
fn finish<'a, F: Files<File = File>, T: Clock, Y: Sink, D: StoreFiles>(
    host: &ToolHost<'a, F, T>,
    committee: &CommitteeView,
    words: &[&'a str],
    folder: &'a str,
    wishes: AuditWishes<'a>,
    keeper: &Keeper<'a, F>,
    found: &Findings,
    end: AuditEnd,
    extras: &mut Extras<Y, D>,
) -> Result<(), Fault<'a>>
    ensures stored { OnOk result ((reports : List StoredFile)
        × Stored (D.stored extras.old.files) (D.stored extras.new.files)
        (verdict_files folder.now found.now.report.verdicts ++ reports)
        × AreReportsOn folder.now words.now wishes.entry.json (status_of end) committee.now
        found.now.judged.items found.now.report reports) }
    ensures fault { IfErr result (λ fault. fault ≢ ProgramFault.Output) }
    ensures reasons { (extras.new.whys ≡ extras.old.whys) ⊎ ((wishes.entry.tells_why ≡ true)
        ⊎ TellsHandover (Y.text extras.old.whys) (Y.text extras.new.whys)) }
{
    store_verdicts(&mut extras.files, host.alloc, folder, &found.report)?;
    tell_whys(
        host,
        committee,
        words,
        folder,
        wishes,
        found,
        end,
        &mut extras.whys,
    );
    keeper.ended()?;
    store_report(
        host,
        committee,
        words,
        folder,
        wishes,
        found,
        end.status(),
        &mut extras.files,
    )
}

// Tells of a handover, and why, if it is asked for.
fn tell_whys<'a, F: Files<File = File>, T, Y: Sink>(
    host: &ToolHost<'a, F, T>,
    committee: &CommitteeView,
    words: &[&'a str],
    folder: &'a str,
    wishes: AuditWishes<'a>,
    found: &Findings,
    end: AuditEnd,
    whys: &mut Y,
)
    ensures { (whys.new ≡ whys.old) ⊎ ((wishes.entry.tells_why ≡ true)
        ⊎ TellsHandover (Y.text whys.old) (Y.text whys.new)) }
{
    // What can't be told is lost.
    let _ = tell_handover(host.alloc, found, whys);
    if !wishes.tells_why {
        return;
    }
    tell_why(host.files, host.alloc, words, folder, found, whys);
    if end == AuditEnd::TooFewSound {
        tell_sound(host.alloc, committee, &found.judged, whys);
    }
}

// How an audit ends of which this was found.
fn end_of(strictness: Strictness, committee: &CommitteeView, found: &Findings) -> AuditEnd
    ensures { IsEndOf strictness committee.now found.now.judged.items found.now.report.verdicts result }
{
    if has_culprits(&found.report) {
        return AuditEnd::Culprits;
    }
    if falls_short(strictness, committee, &found.judged) {
        return AuditEnd::TooFewSound;
    }
    AuditEnd::NoCulprit
}

// The same, and those who kept the logs go.
fn print_found<
    'a,
    'c,
    T: Threads + Wait + Sync,
    C: Connector + Send,
    K: Sink + Send,
    V: Verifier + Sync,
    W: Sink,
>(
    rt: &T,
    alloc: Global,
    committee: &CommitteeView<'c>,
    verifier: &V,
    sources: Vec<Observed<C, KeepOne<'_, K>>>,
    judging: Judging,
    out: &mut W,
) -> Result<Findings<'c>, Fault<'a>>
    requires tries { All (MayBeTriedIn C.allowed) sources.items }
    ensures printed { IfOk result (λ found.
        IsAuditPrinted C.Connector (AreFound judging found.judged.items found.report) committee.now
        (sources_of sources.entry.items) (W.text out.old) (W.text out.new) found.report.verdicts) }
    ensures counted { CountsWrites result (W.failed out.old) (W.failed out.new) }
{
    match print_judged(rt, alloc, committee, verifier, sources, judging, out) {
        Ok((found, _)) => Ok(found),
        Err(fault) => Err(fault),
    }
}

// Audits the sources, and prints the report. Who kept their logs comes back, in the order of the sources.
fn print_judged<
    'a,
    'c,
    'k,
    T: Threads + Wait + Sync,
    C: Connector + Send,
    K: Sink + Send,
    V: Verifier + Sync,
    W: Sink,
>(
    rt: &T,
    alloc: Global,
    committee: &CommitteeView<'c>,
    verifier: &V,
    sources: Vec<Observed<C, KeepOne<'k, K>>>,
    judging: Judging,
    out: &mut W,
) -> Result<(Findings<'c>, Vec<KeepOne<'k, K>>), Fault<'a>>
    requires tries { All (MayBeTriedIn C.allowed) sources.items }
    ensures printed { IfOk result (λ done. IsAuditPrinted C.Connector
        (Both (AreFound judging done.0.judged.items done.0.report)
        (Of (λ _. AreKept (map (λ s. s.observer.writer) sources.entry.items)
        (map (λ k. k.writer) done.1.items)))) committee.now
        (sources_of sources.entry.items) (W.text out.old) (W.text out.new) done.0.report.verdicts) }
    ensures counted { CountsWrites result (W.failed out.old) (W.failed out.new) }
{
    // For the proof: what was told of a log to its end is what is kept of it.
    what_is_kept_is_the_log();
    match audit_judged(rt, alloc, committee, verifier, sources, judging, out) {
        Ok(done) => Ok(done),
        Err(error) => Err(fault_of_run(error)),
    }
}

// Whether the report names culprits.
fn has_culprits(report: &Report) -> bool
    ensures culprits { result ≡ true → report.now.verdicts ≢ [] }
    ensures none { result ≡ false → report.now.verdicts ≡ [] }
{
    !report.verdicts().is_empty()
}

fn see_folder<'a, F: Files<File = File>>(files: &F, folder: &'a str) -> Result<(), Fault<'a>>
    ensures { IfErr result (λ fault. fault ≢ ProgramFault.Output) }
{
    let fault = Fault::File(folder);
    match fs::metadata(files, folder) {
        Ok(found) if found.is_dir() => Ok(()),
        Ok(_) => Err(fault),
        Err(error) => Err(Fault::unless_memory(&error, fault)),
    }
}

// Stores the verdicts, each in its file of the folder. All are tried, and the first fault is told.
fn store_verdicts<'a, D: StoreFiles>(
    files: &mut D,
    alloc: Global,
    folder: &'a str,
    report: &Report,
) -> Result<(), Fault<'a>>
    ensures stored { OnOk result (Stored (D.stored files.old) (D.stored files.new)
        (verdict_files folder.now report.now.verdicts)) }
    ensures tried { AreTried folder.now report.now.verdicts (D.stored files.old) (D.stored files.new)
        (fault_in result) }
    ensures fault { IfErr result (λ fault. fault ≢ ProgramFault.Output) }
{
    let verdicts = report.verdicts();
    let mut stored = Ok(());
    for verdict in verdicts {
        stored = first_fault(stored, store_verdict(files, alloc, folder, verdict));
    }
    stored
}

// The first fault of two.
fn first_fault<'a>(
    first: Result<(), Fault<'a>>,
    second: Result<(), Fault<'a>>,
) -> Result<(), Fault<'a>>
    ensures { fault_in result ≡ first_of (fault_in first.entry) (fault_in second.entry) }
{
    match first {
        Ok(()) => second,
        Err(fault) => Err(fault),
    }
}

// Stores a verdict.
fn store_verdict<'a, D: StoreFiles>(
    files: &mut D,
    alloc: Global,
    folder: &'a str,
    verdict: &Verdict,
) -> Result<(), Fault<'a>>
    ensures tried { IsTried folder.now verdict.now (D.stored files.old) (D.stored files.new)
        (fault_in result) }
    ensures fault { IfErr result (λ fault. fault ≢ ProgramFault.Output) }
{
    let replica = verdict.replica();
    let path = verdict_path(alloc, folder, replica)?;
    let file = match files.store(&path, verdict.as_bytes()) {
        Ok(()) => return Ok(()),
        Err(StoreFault::Memory) => return Err(Fault::Memory),
        Err(StoreFault::Occupied) => FolderFile::NewVerdict(replica),
        Err(StoreFault::Failed) => FolderFile::Verdict(replica),
    };
    Err(Fault::Own(ToolFault::FileIn(folder, file)))
}

// Where the verdict on a replica is stored.
fn verdict_path(alloc: Global, folder: &str, replica: u16) -> Result<String, AllocError>
    ensures { IfOk result (λ path. string_bytes path ≡ verdict_path folder.now replica) }
{
    format!(in alloc; "{folder}/verdict-{replica}.hsx")
}
