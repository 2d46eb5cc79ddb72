//! `--export`: what was kept of a source is given out.

ghost use Rattle.std.specs.Prelude.{◌≡◌, ◌≢◌, IfOk};

use crate::fault::{Fault, FolderFile, WatchFault};
use crate::program::{DONE, WatchHost, fault_of_state};
use crate::words::ExportWords;
use base_streams::Sink;
use program_parts::ProgramFault;
use std::fs::{File, Files};
use watch_state::{ExportFault, export_kept, open_kept};

/// Writes an export of each log that is kept of the source, and prints a line for it. No watch may run on the folder meanwhile.
pub(crate) fn give_out<'a, T: Files<File = File> + AllocGlobal + Clone + Drop, W: Sink>(
    host: &WatchHost<'_, T>,
    words: &ExportWords<'a>,
    out: &mut W,
) -> Result<u8, Fault<'a>>
    ensures { IfOk result (λ status. status ≡ 0) }
{
    let (state, lock) = match open_kept(host.rt, host.alloc, words.state) {
        Ok(opened) => opened,
        Err(fault) => return Err(fault_of_state(words.state, fault)),
    };
    let given = export_kept(
        &state,
        host.rt,
        host.alloc,
        words.replica,
        words.source,
        words.folder,
        out,
    );
    drop(lock);
    match given {
        Ok(()) => Ok(DONE),
        Err(fault) => Err(fault_of_export(words, fault)),
    }
}

fn fault_of_export<'a>(words: &ExportWords<'a>, fault: ExportFault) -> Fault<'a> {
    let (replica, source) = (words.replica, words.source);
    match fault {
        ExportFault::Memory => Fault::Memory,
        ExportFault::Nothing => Fault::Own(WatchFault::State),
        ExportFault::Folder => Fault::File(words.folder),
        ExportFault::Log(log) => {
            let file = FolderFile::Export(replica, source, log);
            Fault::Own(WatchFault::FileIn(words.folder, file))
        }
        ExportFault::Part(log, place) => {
            let file = FolderFile::Part(replica, source, log, place);
            Fault::Own(WatchFault::FileIn(words.state, file))
        }
        ExportFault::Output => Fault::Output,
    }
}
