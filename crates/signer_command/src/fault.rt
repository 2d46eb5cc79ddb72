//! Why a signer gives up, and the line that it prints then.

ghost use Rattle.std.specs.Prelude.{◌≡◌, ◌≢◌, ◌↔◌, ◌≤◌, ◌+◌, ◌++◌, length};
ghost use Rattle.arrayvec.specs.ArrayVec.{array_vec_len};
ghost use Rattle.std.specs.Prelude.{OnErr, OnOk};
ghost use Rattle.base_streams.specs.Counting.{Counts};
ghost use Rattle.base_streams.specs.Streams.{Wrote, WrotePart};
ghost use Rattle.signer_command.specs.FaultLines.{disk_line, fault_in_folder, file_in_folder_line, fault_of_lineage, lineage_line, name_behind, own_line, store_fault_line};
ghost use Rattle.signer_command.specs.declared.fault.TheConstants.{LINEAGE_LINE};

use arrayvec::ArrayVec;
use base_streams::{Sink, write_all};
use base_text::{Line, id_digits, write_file_fault, write_printed};
use blocks::Id;
use handover_folder::LineageFault;
use itoa::Buffer;
use program_parts::{FaultLine, ProgramFault, write_wrong_word};
use replica_command::{ReplicaFault, ReplicaFile};

/// How many bytes the line of a fault of a chain's folder has room for.
const LINEAGE_LINE: usize = 80;

/// Why the signer gives up. Each has exit status 2, but for what is written down: by an earlier run that the log was put back, or that
/// a disk failed, or by this start, under which a disk failed. Those have 4.
pub type Fault<'a> = ProgramFault<'a, SignerFault<'a>>;

/// What this program alone gives up for.
#[derive(Clone, Copy, Debug)]
pub enum SignerFault<'a> {
    /// This file of the folder at this path can't be read or locked, is not as it must be, or says that a disk failed.
    FileIn(&'a str, ReplicaFile),
    /// The replica's index store, log or desk is refused, under this number of its own table.
    Store(u8),
    /// The receipts of the desk are not those of its log.
    Receipts,
    /// Beside the socket of this path there is a file that says that a disk failed.
    DiskFailed(&'a str),
    /// In the folder at this path there is something else under the socket's name, or somebody listens there.
    Socket(&'a str),
    /// A place can't be listened at.
    Listen,
    /// A thread can't be made.
    Threads,
    /// What lies in the folder of the chain of this id is not what the folder's words say.
    Lineage(Id),
    /// The folder's words lead through too many committees.
    Endless,
    /// This word is not as the program is called.
    Word(&'a str),
}

impl FaultLine for SignerFault<'_> {
    ghost line = { own_line };

    fn write_line<W: Sink>(&self, out: &mut W) -> Result<(), base_streams::Fault> {
        match self {
            SignerFault::FileIn(folder, file) => write_file_in_folder(out, folder, *file),
            SignerFault::Store(number) => write_all(out, store_fault(*number).as_bytes()),
            SignerFault::Receipts => write_all(out, b"fault receipts\n"),
            SignerFault::DiskFailed(socket) => write_disk_fault(out, socket, b".disk-failed\n"),
            SignerFault::Socket(folder) => write_file_fault(out, folder, b"/signer.sock"),
            SignerFault::Listen => write_all(out, b"fault listen\n"),
            SignerFault::Threads => write_all(out, b"fault threads\n"),
            SignerFault::Lineage(chain) => write_all(out, &lineage_fault(chain)),
            SignerFault::Endless => write_all(out, b"fault lineage\n"),
            SignerFault::Word(word) => write_wrong_word(out, word),
        }
    }
}

// Of the file that says that a disk failed its own line, of all others that of a file.
fn write_file_in_folder<W: Sink>(
    out: &mut W,
    folder: &str,
    file: ReplicaFile,
) -> Result<(), base_streams::Fault>
    ensures ok { OnOk result (Wrote (W.text out.old) (W.text out.new)
        (file_in_folder_line folder.now file)) }
    ensures err { OnErr result (WrotePart (W.text out.old) (W.text out.new)
        (file_in_folder_line folder.now file)) }
    ensures counted { Counts (W.failed out.old) (W.failed out.new) result }
{
    match file {
        ReplicaFile::DiskFailed => write_disk_fault(out, folder, b"/disk-failed\n"),
        _ => write_file_fault(out, folder, behind(file).as_bytes()),
    }
}

// "fault disk PATH", with what stands behind the path and the line feed.
fn write_disk_fault<W: Sink>(
    out: &mut W,
    path: &str,
    behind: &[u8],
) -> Result<(), base_streams::Fault>
    ensures ok { OnOk result (Wrote (W.text out.old) (W.text out.new)
        (disk_line path.now behind.now)) }
    ensures err { OnErr result (WrotePart (W.text out.old) (W.text out.new)
        (disk_line path.now behind.now)) }
    ensures counted { Counts (W.failed out.old) (W.failed out.new) result }
{
    write_all(out, b"fault disk ")?;
    write_printed(out, path.as_bytes())?;
    write_all(out, behind)
}

// A file's name behind its folder's path.
fn behind(file: ReplicaFile) -> Line
    ensures { result ≡ name_behind file }
{
    let mut name = Line::new();
    name.push(b"/");
    name.push(file.name().as_bytes());
    name
}

// "fault lineage CHAIN"
fn lineage_fault(chain: &Id) -> ArrayVec<u8, LINEAGE_LINE>
    ensures { result.items ≡ lineage_line chain.now }
{
    let mut line = ArrayVec::new();
    add(&mut line, b"fault lineage ");
    add(&mut line, &id_digits(chain));
    add(&mut line, b"\n");
    line
}

// Adds a piece, for which there is room.
fn add(line: &mut ArrayVec<u8, LINEAGE_LINE>, piece: &[u8])
    requires { array_vec_len line.old + length piece.now ≤ LINEAGE_LINE }
    ensures items { line.new.items ≡ line.old.items ++ piece.now }
    ensures len { array_vec_len line.new ≡ array_vec_len line.old + length piece.now }
{
    // There is room, so it is never refused.
    let _ = line.try_extend_from_slice(piece);
}

fn store_fault(number: u8) -> Line
    ensures { result ≡ store_fault_line number }
{
    let mut line = Line::new();
    line.push(b"fault store ");
    line.push(Buffer::new().format(number).as_bytes());
    line.push(b"\n");
    line
}

/// The fault of the folder of chains at `path`.
pub(crate) fn of_lineage<'a>(path: &'a str, fault: LineageFault) -> Fault<'a>
    ensures { result ≡ fault_of_lineage path.entry fault }
{
    match fault {
        LineageFault::Memory => Fault::Memory,
        LineageFault::Device => Fault::Own(SignerFault::FileIn(path, ReplicaFile::DiskFailed)),
        LineageFault::Chain(chain) => Fault::Own(SignerFault::Lineage(chain)),
        LineageFault::Endless => Fault::Own(SignerFault::Endless),
    }
}

/// The fault of a replica on the folder at `path`.
pub(crate) fn in_folder<'a>(path: &'a str, fault: ReplicaFault) -> Fault<'a>
    ensures value { result ≡ fault_in_folder path.entry fault }
    ensures output { fault ≡ ReplicaFault.Output ↔ result ≡ ProgramFault.Output }
{
    match fault {
        ReplicaFault::Memory => Fault::Memory,
        ReplicaFault::File(file) => Fault::Own(SignerFault::FileIn(path, file)),
        ReplicaFault::Store(number) => Fault::Own(SignerFault::Store(number)),
        ReplicaFault::Device => Fault::Own(SignerFault::FileIn(path, ReplicaFile::DiskFailed)),
        ReplicaFault::Receipts => Fault::Own(SignerFault::Receipts),
        ReplicaFault::Output => Fault::Output,
    }
}
