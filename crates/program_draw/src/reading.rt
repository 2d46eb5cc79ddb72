//! What the files of a picture show.

ghost use Rattle.std.specs.Prelude.{◌≡◌, ◌≢◌, IfErr, IfOk, IfSome, IsNone, length};
ghost use Rattle.std.specs.List.{All, AllZip};
ghost use Rattle.blocks.specs.Committees.{IsCommittee};
ghost use Rattle.parallel_verify.specs.Collections.{MayBeTried};
ghost use Rattle.program_draw.specs.Faults.{IsFirstUnread, IsSourcesFault};
ghost use Rattle.program_draw.specs.Outputs.{IsShown};

use crate::fault::{DrawFault, Fault};
use crate::words::SourceFile;
use audit_evidence::{Evidence, EvidenceRefusal, SourceReport};
use blocks::CommitteeView;
use log_format::Status;
use log_transfer::FileConnector;
use parallel_verify::{Source, collect};
use program_parts::{ProgramFault, SourceFault};
use std::alloc::{AllocError, Global};
use std::fs::{File, Files};
use std::sync::Wait;
use std::thread::Threads;

// The source of a file, which has one try: a file can't go on in its middle.
fn source_of<'a, F: Files<File = File>>(
    files: &'a F,
    word: &SourceFile<'a>,
) -> Source<FileConnector<'a, F>>
    ensures tried { MayBeTried (λ c. 1) result }
    ensures replica { result.replica ≡ word.now.replica }
{
    Source {
        replica: word.replica,
        connector: FileConnector::new(files, word.path),
        tries: 1,
    }
}

// The sources, none of them opened yet.
fn sources_of<'a, F: Files<File = File>>(
    files: &'a F,
    alloc: Global,
    words: &[SourceFile<'a>],
) -> Result<Vec<Source<FileConnector<'a, F>>>, AllocError>
    ensures tried { IfOk result (λ sources. All (MayBeTried (λ c. 1)) sources.items) }
    ensures replicas { IfOk result (λ sources.
        AllZip (λ w s. s.replica ≡ w.replica) words.now sources.items) }
{
    let mut sources = Vec::new(alloc);
    for word in words {
        sources.push(source_of(files, word))?;
    }
    Ok(sources)
}

// The path of the first source that could not be read to its end. There is a report of each.
fn first_failed<'a>(words: &[SourceFile<'a>], reports: &[SourceReport]) -> Option<&'a str>
    requires { length reports.now ≡ length words.now }
    ensures found { IfSome result (λ path. IsFirstUnread words.now reports.now path.now) }
    ensures none { IsNone result → All (λ r. r.status ≢ Status.Failed) reports.now }
{
    for (i, report) in reports.iter().enumerate() {
        if report.status == Status::Failed {
            return Some(words[i].path);
        }
    }
    None
}

/// What the logs in these files show together under the committee. A file that can't be read is a fault, the first of
/// them.
pub(crate) fn read_evidence<'a, 'c, F: Files<File = File> + Sync, T: Threads + Wait + Sync>(
    files: &'a F,
    rt: &T,
    alloc: Global,
    committee: &CommitteeView<'c>,
    words: &[SourceFile<'a>],
) -> Result<Evidence<'c>, Fault<'a>>
where
    F::Dir: Send,
    requires { IsCommittee committee.now }
    ensures shown { IfOk result (IsShown committee.now words.now) }
    ensures refused { IfErr result (IsSourcesFault committee.now words.now) }
{
    let sources = sources_of(files, alloc, words)?;
    match collect(rt, alloc, committee, sources) {
        Ok(evidence) => match first_failed(words, evidence.sources()) {
            Some(path) => Err(ProgramFault::File(path)),
            None => Ok(evidence),
        },
        Err(EvidenceRefusal::Memory) => Err(ProgramFault::Memory),
        Err(EvidenceRefusal::Collision(_, _)) => {
            Err(ProgramFault::Own(DrawFault::Sources(SourceFault::Collision)))
        }
    }
}
