//! The tool over handed-in words and streams, so that tests run it whole.

ghost use Rattle.std.specs.Prelude.{◌≡◌, ◌≢◌, ◌⊎◌, ◌↔◌, IfOk};
ghost use Rattle.program_parts.specs.Writes.{CountsWrites};
ghost use Rattle.program_words.specs.Commands.{IsAskedBy};
ghost use Rattle.program_words.specs.declared.command.Command.{Command as CommandValue};
ghost use Rattle.program_tool.specs.Commands.{AreCulpritsFound, AreTooFewSound, IsDone, IsStopped, TellsBeside, lend};
ghost use Rattle.program_tool.specs.StoredFiles.{Stored};
ghost use Rattle.program_tool.specs.Writes.{TellsFault};

use crate::audit::{AuditEnd, audit_sources};
use crate::committee::{committee, weighted};
use crate::export::export_log;
use crate::fault::Fault;
use crate::host::ToolHost;
use crate::keygen::keygen;
use crate::keys_behind::next_keys;
use crate::migrate::migrate_log;
use crate::renewal::renewal;
use crate::replica::replica;
use crate::stored::{Extras, StoreFiles};
use base_streams::{Feed, Sink, write_all};
use log_request::ChainSource;
use log_transfer::Connector;
use program_parts::FAULT;
use program_words::{Command, WordsFault, read_words};
use replica_command::Ending;
use replica_files::DrawSeed;
use stable_log::{Disk, FileDisk};
use std::fs::{File, Files};
use std::net::{Net, TcpListener, TcpStream};
use std::sync::Wait;
use std::thread::Threads;
use std::time::Clock;

/// The work was done.
pub const DONE: u8 = 0;

/// An audit was done, and there are culprits.
pub const CULPRITS: u8 = 3;

/// An audit that was to be strict found no culprit, in too few sound sources.
pub const TOO_FEW_SOUND: u8 = 4;

/// How the tool is called: a line for each command.
const USAGE: &[u8] = b"hs_tool keygen SEED DIR
hs_tool committee F OUT KEY..
hs_tool replica COMMITTEE R DIR
hs_tool audit COMMITTEE OUTDIR SOURCE..
hs_tool weighted OUT WEIGHT=PATH..
hs_tool migrate OLD NEW COMMITTEE
";

/// Does what the words ask for, and answers the exit status: `DONE`, `CULPRITS`, `TOO_FEW_SOUND` or `FAULT`. Facts go to `out`, what
/// an audit tells of a handover and of the servers of its sources, and with `--why`, and the files that it stores to `extras`, and with `FAULT` a fault's line to `faults`, which is else left
/// alone: `fault output` exactly if a write of facts failed. If a disk failed under a replica, the facts say it, and there is no fault's
/// line with `FAULT`. The words stand without the program's name; only `replica` and `keygen --stdin` read `lines`, and only
/// `keygen --random` draws of `seeds`.
pub fn run_tool<
    'a,
    F: Files<File = File> + Sync,
    T: Threads + Wait + Clock + Net<Listener = TcpListener, Stream = TcpStream> + Sync,
    S: DrawSeed,
    R: Feed,
    W: Sink,
    E: Sink,
    Y: Sink,
    D: StoreFiles,
>(
    host: &ToolHost<'a, F, T>,
    seeds: &S,
    words: &[String],
    lines: &mut R,
    out: &mut W,
    faults: &mut E,
    extras: &mut Extras<Y, D>,
) -> u8
where
    F::Dir: Send,
    ensures status { (result ≡ 0) ⊎ (result ≡ 2) ⊎ (result ≡ 3) ⊎ (result ≡ 4) }
    ensures done { result ≡ 0 → (command : CommandValue) × IsAskedBy words.now command
        × IsDone (lend ⟦<FileDisk as Disk>⟧ ⟦<ChainSource<'a, T, F> as Connector>⟧
        (S.draws seeds.now) R.Feed lines.old lines.new
        (Stored (D.stored extras.old.files) (D.stored extras.new.files))) command (W.text out.old) (W.text out.new) }
    ensures culprits { result ≡ 3 → (command : CommandValue) × IsAskedBy words.now command
        × AreCulpritsFound (lend ⟦<FileDisk as Disk>⟧ ⟦<ChainSource<'a, T, F> as Connector>⟧
        (S.draws seeds.now) R.Feed lines.old lines.new
        (Stored (D.stored extras.old.files) (D.stored extras.new.files))) command (W.text out.old) (W.text out.new) }
    ensures too_few { result ≡ 4 → (command : CommandValue) × IsAskedBy words.now command
        × AreTooFewSound (lend ⟦<FileDisk as Disk>⟧ ⟦<ChainSource<'a, T, F> as Connector>⟧
        (S.draws seeds.now) R.Feed lines.old lines.new
        (Stored (D.stored extras.old.files) (D.stored extras.new.files))) command (W.text out.old) (W.text out.new) }
    ensures quiet { result ≢ 2 → (faults.new ≡ faults.old) × (W.failed out.new ≡ W.failed out.old) }
    ensures reasons { (extras.new.whys ≡ extras.old.whys) ⊎ ((command : CommandValue)
        × IsAskedBy words.now command
        × TellsBeside command (Y.text extras.old.whys) (Y.text extras.new.whys)) }
    ensures told { result ≡ 2 → ((faults.new ≡ faults.old) × (W.failed out.new ≡ W.failed out.old)
        × (command : CommandValue) × IsAskedBy words.now command
        × IsStopped (lend ⟦<FileDisk as Disk>⟧ ⟦<ChainSource<'a, T, F> as Connector>⟧
        (S.draws seeds.now) R.Feed lines.old lines.new
        (Stored (D.stored extras.old.files) (D.stored extras.new.files))) command (W.text out.old) (W.text out.new))
        ⊎ TellsFault (E.text faults.old) (E.text faults.new) (E.failed faults.old)
        (E.failed faults.new) (W.failed out.old) (W.failed out.new) }
{
    match run(host, seeds, words, lines, out, extras) {
        Ok(ended) => ended.status(),
        Err(fault) => {
            fault.tell(faults);
            FAULT
        }
    }
}

// How a command ended.
#[derive(Clone, Copy, Debug, PartialEq, Eq)]
enum Ended {
    Done,
    Culprits,
    TooFewSound,
    Stopped,
}

impl Ended {
    fn of(ending: Ending) -> Ended
        ensures done { ending ≡ Ending.Done → result ≡ Ended.Done }
        ensures stopped { ending ≡ Ending.Stopped → result ≡ Ended.Stopped }
    {
        match ending {
            Ending::Done => Ended::Done,
            Ending::Stopped => Ended::Stopped,
        }
    }

    fn of_audit(end: AuditEnd) -> Ended
        ensures done { result ≡ Ended.Done → end ≡ AuditEnd.NoCulprit }
        ensures culprits { result ≡ Ended.Culprits → end ≡ AuditEnd.Culprits }
        ensures too_few { result ≡ Ended.TooFewSound → end ≡ AuditEnd.TooFewSound }
        ensures stopped { result ≢ Ended.Stopped }
    {
        match end {
            AuditEnd::NoCulprit => Ended::Done,
            AuditEnd::TooFewSound => Ended::TooFewSound,
            AuditEnd::Culprits => Ended::Culprits,
        }
    }

    fn status(self) -> u8
        ensures done { result ≡ 0 ↔ self ≡ Ended.Done }
        ensures stopped { result ≡ 2 ↔ self ≡ Ended.Stopped }
        ensures culprits { result ≡ 3 ↔ self ≡ Ended.Culprits }
        ensures too_few { result ≡ 4 ↔ self ≡ Ended.TooFewSound }
        ensures status { (result ≡ 0) ⊎ (result ≡ 2) ⊎ (result ≡ 3) ⊎ (result ≡ 4) }
    {
        match self {
            Ended::Done => DONE,
            Ended::Culprits => CULPRITS,
            Ended::TooFewSound => TOO_FEW_SOUND,
            Ended::Stopped => FAULT,
        }
    }
}

fn run<
    'a,
    F: Files<File = File> + Sync,
    T: Threads + Wait + Clock + Net<Listener = TcpListener, Stream = TcpStream> + Sync,
    S: DrawSeed,
    R: Feed,
    W: Sink,
    Y: Sink,
    D: StoreFiles,
>(
    host: &ToolHost<'a, F, T>,
    seeds: &S,
    words: &'a [String],
    lines: &mut R,
    out: &mut W,
    extras: &mut Extras<Y, D>,
) -> Result<Ended, Fault<'a>>
where
    F::Dir: Send,
    ensures done { IfOk result (λ ended. ended ≡ Ended.Done → (command : CommandValue)
        × IsAskedBy words.now command
        × IsDone (lend ⟦<FileDisk as Disk>⟧ ⟦<ChainSource<'a, T, F> as Connector>⟧
        (S.draws seeds.now) R.Feed lines.old lines.new
        (Stored (D.stored extras.old.files) (D.stored extras.new.files))) command (W.text out.old) (W.text out.new)) }
    ensures culprits { IfOk result (λ ended. ended ≡ Ended.Culprits → (command : CommandValue)
        × IsAskedBy words.now command
        × AreCulpritsFound (lend ⟦<FileDisk as Disk>⟧ ⟦<ChainSource<'a, T, F> as Connector>⟧
        (S.draws seeds.now) R.Feed lines.old lines.new
        (Stored (D.stored extras.old.files) (D.stored extras.new.files))) command (W.text out.old) (W.text out.new)) }
    ensures too_few { IfOk result (λ ended. ended ≡ Ended.TooFewSound → (command : CommandValue)
        × IsAskedBy words.now command
        × AreTooFewSound (lend ⟦<FileDisk as Disk>⟧ ⟦<ChainSource<'a, T, F> as Connector>⟧
        (S.draws seeds.now) R.Feed lines.old lines.new
        (Stored (D.stored extras.old.files) (D.stored extras.new.files))) command (W.text out.old) (W.text out.new)) }
    ensures stopped { IfOk result (λ ended. ended ≡ Ended.Stopped → (command : CommandValue)
        × IsAskedBy words.now command
        × IsStopped (lend ⟦<FileDisk as Disk>⟧ ⟦<ChainSource<'a, T, F> as Connector>⟧
        (S.draws seeds.now) R.Feed lines.old lines.new
        (Stored (D.stored extras.old.files) (D.stored extras.new.files))) command (W.text out.old) (W.text out.new)) }
    ensures reasons { (extras.new.whys ≡ extras.old.whys) ⊎ ((command : CommandValue)
        × IsAskedBy words.now command
        × TellsBeside command (Y.text extras.old.whys) (Y.text extras.new.whys)) }
    ensures counted { CountsWrites result (W.failed out.old) (W.failed out.new) }
{
    match read_words(host.alloc, words) {
        Ok(command) => done(host, seeds, &command, lines, out, extras),
        Err(WordsFault::Usage) => Err(Fault::Usage),
        Err(WordsFault::Memory) => Err(Fault::Memory),
    }
}

fn done<
    'a,
    F: Files<File = File> + Sync,
    T: Threads + Wait + Clock + Net<Listener = TcpListener, Stream = TcpStream> + Sync,
    S: DrawSeed,
    R: Feed,
    W: Sink,
    Y: Sink,
    D: StoreFiles,
>(
    host: &ToolHost<'a, F, T>,
    seeds: &S,
    command: &Command<'a>,
    lines: &mut R,
    out: &mut W,
    extras: &mut Extras<Y, D>,
) -> Result<Ended, Fault<'a>>
where
    F::Dir: Send,
    ensures done { IfOk result (λ ended. ended ≡ Ended.Done
        → IsDone (lend ⟦<FileDisk as Disk>⟧ ⟦<ChainSource<'a, T, F> as Connector>⟧
        (S.draws seeds.now) R.Feed lines.old lines.new
        (Stored (D.stored extras.old.files) (D.stored extras.new.files)))
        command.now (W.text out.old) (W.text out.new)) }
    ensures culprits { IfOk result (λ ended. ended ≡ Ended.Culprits
        → AreCulpritsFound (lend ⟦<FileDisk as Disk>⟧ ⟦<ChainSource<'a, T, F> as Connector>⟧
        (S.draws seeds.now) R.Feed lines.old lines.new
        (Stored (D.stored extras.old.files) (D.stored extras.new.files)))
        command.now (W.text out.old) (W.text out.new)) }
    ensures too_few { IfOk result (λ ended. ended ≡ Ended.TooFewSound
        → AreTooFewSound (lend ⟦<FileDisk as Disk>⟧ ⟦<ChainSource<'a, T, F> as Connector>⟧
        (S.draws seeds.now) R.Feed lines.old lines.new
        (Stored (D.stored extras.old.files) (D.stored extras.new.files)))
        command.now (W.text out.old) (W.text out.new)) }
    ensures stopped { IfOk result (λ ended. ended ≡ Ended.Stopped
        → IsStopped (lend ⟦<FileDisk as Disk>⟧ ⟦<ChainSource<'a, T, F> as Connector>⟧
        (S.draws seeds.now) R.Feed lines.old lines.new
        (Stored (D.stored extras.old.files) (D.stored extras.new.files)))
        command.now (W.text out.old) (W.text out.new)) }
    ensures reasons { (extras.new.whys ≡ extras.old.whys)
        ⊎ TellsBeside command.now (Y.text extras.old.whys) (Y.text extras.new.whys) }
    ensures counted { CountsWrites result (W.failed out.old) (W.failed out.new) }
{
    let (files, alloc) = (host.files, host.alloc);
    match command {
        Command::Usage => {
            write_all(out, USAGE).map_err(|_| Fault::Output)?;
            Ok(Ended::Done)
        }
        Command::Keygen { seed, folder, key } => {
            keygen(host, seeds, *seed, folder, *key, lines, out)?;
            Ok(Ended::Done)
        }
        Command::NextKeys {
            folder,
            committee,
            replica: number,
            count,
        } => {
            next_keys(host, seeds, folder, committee, *number, *count, out)?;
            Ok(Ended::Done)
        }
        Command::Committee { f, out: path, keys } => {
            committee(files, alloc, *f, path, keys, out)?;
            Ok(Ended::Done)
        }
        Command::Weighted {
            out: path,
            replicas,
        } => {
            weighted(files, alloc, path, replicas, out)?;
            Ok(Ended::Done)
        }
        Command::Replica {
            committee,
            replica: number,
            folder,
            workers,
            service,
        } => {
            let ending = replica(
                host, committee, *number, folder, *workers, *service, lines, out,
            )?;
            Ok(Ended::of(ending))
        }
        Command::Audit {
            committee,
            folder,
            sources,
            tries,
            wishes,
        } => {
            let end = audit_sources(
                host, committee, folder, sources, *tries, *wishes, out, extras,
            )?;
            Ok(Ended::of_audit(end))
        }
        Command::Migrate {
            old,
            new,
            committee,
        } => {
            migrate_log(files, alloc, old, new, committee, out)?;
            Ok(Ended::Done)
        }
        Command::Export { log, out: path } => {
            export_log(files, alloc, log, path, out)?;
            Ok(Ended::Done)
        }
        Command::Renewal {
            committee,
            file,
            renewal: path,
            endorsements,
        } => {
            renewal(files, alloc, committee, file, path, endorsements, out)?;
            Ok(Ended::Done)
        }
    }
}
