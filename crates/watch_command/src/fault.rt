//! Why a watch gives up, and the line that it prints then.

ghost use Rattle.std.specs.Prelude.{◌≡◌, ◌≢◌, ◌≤◌, ◌++◌, [], length};
ghost use Rattle.blocks.specs.Headers.{Header as HeaderValue};
ghost use Rattle.watch_command.specs.FaultLines.{log_behind, name_behind, number_behind, own_line};

use audit_evidence::EvidenceRefusal;
use base_streams::{Sink, write_all};
use base_text::{Line, write_file_fault};
use itoa::Buffer;
use program_parts::{FaultLine, ProgramFault, SourceFault, write_wrong_word};

/// Why the watch gives up. Each has exit status 2.
pub type Fault<'a> = ProgramFault<'a, WatchFault<'a>>;

/// What this program alone gives up for.
#[derive(Clone, Copy, Debug)]
pub enum WatchFault<'a> {
    /// A word of a source is not as written, or two headers in evidence have one id.
    Sources(SourceFault),
    /// This file of the folder at this path can't be made, read or locked.
    FileIn(&'a str, FolderFile),
    /// The folder of what is kept is of another chain, or has nothing of the source that is to be given out.
    State,
    /// The place for HTTP can't be listened at.
    Listen,
    /// A thread can't be made.
    Threads,
    /// This word is not as the program is called.
    Word(&'a str),
}

/// A file of the folder of verdicts, of that of what is kept, or of that of what is given out.
#[derive(Clone, Copy, Debug, PartialEq, Eq)]
pub enum FolderFile {
    /// Its lock.
    Lock,
    /// What says of which chain the logs are that are kept.
    Chain,
    /// What is given out of a log: the replica, which of its sources, and which log of that.
    Export(u16, u16, u16),
    /// The part of a log that stands behind so many frames: all but its end, which tells what those digest to.
    Part(u16, u16, u16, u16),
    /// The file of the committee of this number to which the ledger was handed over.
    Committee(u64),
    /// The renewal by which it followed.
    Renewal(u64),
    /// The folder with what is kept of its chain.
    Stay(u64),
}

impl FolderFile {
    // Its name behind the folder's path.
    fn behind(self) -> Line
        ensures { result ≡ name_behind self }
    {
        let mut name = Line::new();
        match self {
            FolderFile::Lock => name.push(b"/lock"),
            FolderFile::Chain => name.push(b"/chain"),
            FolderFile::Export(replica, source, log) => {
                push_log(&mut name, replica, source, log);
                name.push(b".hsl");
            }
            FolderFile::Part(replica, source, log, place) => {
                push_log(&mut name, replica, source, log);
                name.push(b"-");
                name.push(Buffer::new().format(place).as_bytes());
            }
            FolderFile::Committee(number) => push_number(&mut name, number, b".hsc"),
            FolderFile::Renewal(number) => push_number(&mut name, number, b".hsr"),
            FolderFile::Stay(number) => push_number(&mut name, number, b""),
        }
        name
    }
}

// `/N`, and this behind it.
fn push_number(name: &mut Line, number: u64, behind: &[u8])
    requires empty { name.old ≡ [] }
    requires short { length behind.now ≤ 4 }
    ensures { name.new ≡ number_behind number ++ behind.now }
{
    name.push(b"/");
    name.push(Buffer::new().format(number).as_bytes());
    name.push(behind);
}

// `/R-I-K`, of at most 18 bytes.
fn push_log(name: &mut Line, replica: u16, source: u16, log: u16)
    requires { name.old ≡ [] }
    ensures value { name.new ≡ log_behind replica source log }
    ensures short { length name.new ≤ 18 }
{
    name.push(b"/");
    name.push(Buffer::new().format(replica).as_bytes());
    name.push(b"-");
    name.push(Buffer::new().format(source).as_bytes());
    name.push(b"-");
    name.push(Buffer::new().format(log).as_bytes());
}

impl FaultLine for WatchFault<'_> {
    ghost line = { own_line };

    fn write_line<W: Sink>(&self, out: &mut W) -> Result<(), base_streams::Fault> {
        match self {
            WatchFault::Sources(fault) => fault.write_line(out),
            WatchFault::FileIn(folder, file) => {
                write_file_fault(out, folder, file.behind().as_bytes())
            }
            WatchFault::State => write_all(out, b"fault state\n"),
            WatchFault::Listen => write_all(out, b"fault listen\n"),
            WatchFault::Threads => write_all(out, b"fault threads\n"),
            WatchFault::Word(word) => write_wrong_word(out, word),
        }
    }
}

/// Why there is no evidence.
pub(crate) fn fault_of_evidence<'a>(refusal: EvidenceRefusal) -> Fault<'a>
    ensures memory { refusal ≡ EvidenceRefusal.Memory → result ≡ ProgramFault.Memory }
    ensures collision { (h : HeaderValue) (k : HeaderValue)
        → refusal ≡ EvidenceRefusal.Collision h k
        → result ≡ ProgramFault.Own (WatchFault.Sources SourceFault.Collision) }
    ensures output { result ≢ ProgramFault.Output }
{
    match refusal {
        EvidenceRefusal::Memory => ProgramFault::Memory,
        EvidenceRefusal::Collision(_, _) => {
            ProgramFault::Own(WatchFault::Sources(SourceFault::Collision))
        }
    }
}
