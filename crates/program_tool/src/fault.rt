//! Why the tool gives up, and the line that it prints then.

ghost use Rattle.std.specs.Prelude.{◌≡◌, ◌≢◌, ◌≤◌, ◌↔◌, ◌++◌, codes, OnOk, OnErr, length};
ghost use Rattle.blocks.specs.Headers.{Header as HeaderValue};
ghost use Rattle.blocks.specs.declared.committee.CommitteeRefusal.{CommitteeRefusal as CommitteeRefusalValue};
ghost use Rattle.program_tool.specs.FaultLines.{endorsement_fault_line, endorsement_refusal_name, name_behind, own_line, store_fault_line, twice_fault_line};
ghost use Rattle.program_tool.specs.Renewals.{making_fault};

use audit_run::RunError;
use base_streams::{Sink, write_all};
use base_text::{Line, write_file_fault};
use handover_keys::EndorsementRefusal;
use handover_renewals::MakingRefusal;
use itoa::Buffer;
use log_server::ServiceFault;
use program_parts::{FaultLine, ProgramFault, SourceFault};
use replica_command::ReplicaFile;

/// Why the tool gives up. Each has exit status 2.
pub type Fault<'a> = ProgramFault<'a, ToolFault<'a>>;

/// What this tool alone gives up for.
#[derive(Clone, Copy, Debug)]
pub enum ToolFault<'a> {
    /// SEED is not 96 hex digits.
    Hex,
    /// This file of the folder at this path can't be read, made, written or synced, or is not as it must be.
    FileIn(&'a str, FolderFile),
    /// The sources of an audit give no evidence.
    Sources(SourceFault),
    /// A replica's index store, log or desk is refused, under this number of its own table.
    Store(u8),
    /// The receipts of a desk are not those of its log, or an answer is missing.
    Receipts,
    /// The address can't be listened on.
    Listen,
    /// The endorsement at this place, counted from 0, is refused so.
    Endorsement(usize, EndorsementRefusal),
    /// The endorsements at these places are of one replica.
    Twice(usize, usize),
    /// The replicas that endorsed weigh too little to renew the committee.
    TooFew,
}

/// A file of a folder that a word gave.
#[derive(Clone, Copy, Debug, PartialEq, Eq)]
pub enum FolderFile {
    /// One of a replica's.
    Replica(ReplicaFile),
    /// The verdict on this replica.
    Verdict(u16),
    /// The one that has the bytes of that verdict until they are whole, and is there already.
    NewVerdict(u16),
    /// What is kept of the log of this replica that came of this source, counted from 0.
    Kept(u16, usize),
}

impl FolderFile {
    // Its name behind the folder's path.
    pub(crate) fn behind(self) -> Line
        ensures { result ≡ name_behind self }
    {
        let mut name = Line::new();
        match self {
            FolderFile::Replica(file) => {
                name.push(b"/");
                name.push(file.name().as_bytes());
            }
            FolderFile::Verdict(replica) => {
                name.push(b"/verdict-");
                name.push(Buffer::new().format(replica).as_bytes());
                name.push(b".hsx");
            }
            FolderFile::NewVerdict(whom) => {
                name.push(b"/verdict-");
                name.push(Buffer::new().format(whom).as_bytes());
                name.push(b".hsx.new");
            }
            FolderFile::Kept(whose, source) => {
                name.push(b"/");
                name.push(Buffer::new().format(whose).as_bytes());
                name.push(b"-");
                name.push(Buffer::new().format(source).as_bytes());
                name.push(b".hsl");
            }
        }
        name
    }
}

impl FaultLine for ToolFault<'_> {
    ghost line = { own_line };

    fn write_line<W: Sink>(&self, out: &mut W) -> Result<(), base_streams::Fault> {
        match self {
            ToolFault::Hex => write_all(out, b"fault hex\n"),
            ToolFault::FileIn(folder, file) => {
                write_file_fault(out, folder, file.behind().as_bytes())
            }
            ToolFault::Sources(fault) => fault.write_line(out),
            ToolFault::Store(number) => write_all(out, store_fault(*number).as_bytes()),
            ToolFault::Receipts => write_all(out, b"fault receipts\n"),
            ToolFault::Listen => write_all(out, b"fault listen\n"),
            ToolFault::Endorsement(place, refusal) => {
                write_all(out, endorsement_fault(*place, *refusal).as_bytes())
            }
            ToolFault::Twice(earlier, later) => {
                write_all(out, twice_fault(*earlier, *later).as_bytes())
            }
            ToolFault::TooFew => write_all(out, b"fault renewal 5 TooFew\n"),
        }
    }
}

fn store_fault(number: u8) -> Line
    ensures { result ≡ store_fault_line number }
{
    let mut line = Line::new();
    line.push(b"fault store ");
    line.push(Buffer::new().format(number).as_bytes());
    line.push(b"\n");
    line
}

// The name of a refusal, as it is printed.
fn refusal_name(refusal: EndorsementRefusal) -> &'static str
    ensures name { result.now ≡ endorsement_refusal_name refusal }
    ensures short { length result.now ≤ 9 }
{
    match refusal {
        EndorsementRefusal::Short => "Short",
        EndorsementRefusal::Magic => "Magic",
        EndorsementRefusal::Count => "Count",
        EndorsementRefusal::Length => "Length",
        EndorsementRefusal::Key => "Key",
        EndorsementRefusal::Chain => "Chain",
        EndorsementRefusal::Replica => "Replica",
        EndorsementRefusal::KeyCount => "KeyCount",
        EndorsementRefusal::KeyId => "KeyId",
        EndorsementRefusal::KeyNumber => "KeyNumber",
        EndorsementRefusal::Signature => "Signature",
    }
}

fn endorsement_fault(place: usize, refusal: EndorsementRefusal) -> Line
    ensures { result ≡ endorsement_fault_line place refusal }
{
    let mut line = Line::new();
    line.push(b"fault endorsement ");
    line.push(Buffer::new().format(place).as_bytes());
    line.push(b" ");
    line.push(Buffer::new().format(refusal.number()).as_bytes());
    line.push(b" ");
    line.push(refusal_name(refusal).as_bytes());
    line.push(b"\n");
    line
}

fn twice_fault(earlier: usize, later: usize) -> Line
    ensures { result ≡ twice_fault_line earlier later }
{
    let mut line = Line::new();
    line.push(b"fault renewal 3 Twice ");
    line.push(Buffer::new().format(earlier).as_bytes());
    line.push(b" ");
    line.push(Buffer::new().format(later).as_bytes());
    line.push(b"\n");
    line
}

/// Why no renewal was made.
pub(crate) fn fault_of_making<'a>(refusal: MakingRefusal) -> Fault<'a>
    ensures exact { result ≡ making_fault refusal }
    ensures fault { result ≢ ProgramFault.Output }
{
    match refusal {
        MakingRefusal::Memory => ProgramFault::Memory,
        MakingRefusal::Endorsement(place, why) => {
            ProgramFault::Own(ToolFault::Endorsement(place, why))
        }
        MakingRefusal::Twice(earlier, later) => {
            ProgramFault::Own(ToolFault::Twice(earlier, later))
        }
        MakingRefusal::Committee(why) => ProgramFault::Committee(why),
        MakingRefusal::TooFew => ProgramFault::Own(ToolFault::TooFew),
    }
}

/// Why an audit gave no report.
pub(crate) fn fault_of_run<'a>(error: RunError) -> Fault<'a>
    ensures memory { error ≡ RunError.Memory → result ≡ ProgramFault.Memory }
    ensures committee { (refusal : CommitteeRefusalValue) → error ≡ RunError.Committee refusal
        → result ≡ ProgramFault.Committee refusal }
    ensures collision { (h : HeaderValue) (k : HeaderValue) → error ≡ RunError.Collision h k
        → result ≡ ProgramFault.Own (ToolFault.Sources SourceFault.Collision) }
    ensures output { error ≡ RunError.Sink ↔ result ≡ ProgramFault.Output }
{
    match error {
        RunError::Memory => ProgramFault::Memory,
        RunError::Committee(refusal) => ProgramFault::Committee(refusal),
        RunError::Collision(_, _) => {
            ProgramFault::Own(ToolFault::Sources(SourceFault::Collision))
        }
        RunError::Sink => ProgramFault::Output,
    }
}

/// Why a replica's log was not handed out, or not as often as asked for.
pub(crate) fn fault_of_service<'a>(fault: ServiceFault) -> Fault<'a>
    ensures listen { fault ≡ ServiceFault.Listen → result ≡ ProgramFault.Own ToolFault.Listen }
    ensures output { fault ≡ ServiceFault.Output ↔ result ≡ ProgramFault.Output }
{
    match fault {
        ServiceFault::Listen => ProgramFault::Own(ToolFault::Listen),
        ServiceFault::Output => ProgramFault::Output,
    }
}
