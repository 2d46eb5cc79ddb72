//! The logs of a source, each written to a file.

use crate::folder::StateFolder;
use crate::log_text::LogText;
use crate::logs::KeptLogs;
use crate::name::{PartFile, PartName};
use crate::walk::{Found, PartVisitor, visit_parts};
use base_streams::{Sink, write_all};
use base_text::put_number;
use log_format::Frames;
use log_reading::{FrameDigest, digest_of};
use log_transfer::MOST_OF_A_STREAM;
use program_parts::{InputFault, read_file, store_new};
use std::alloc::{AllocError, Global};
use std::fs::{File, Files};
use std::io::ErrorKind;
use std::{fs, io};

/// The mode of the file of a log: everyone may read it.
const EXPORT_MODE: u32 = 0o644;

/// Why logs are not given out, or not all of them.
#[derive(Clone, Copy, Debug, PartialEq, Eq)]
pub enum ExportFault {
    /// Memory was refused.
    Memory,
    /// Nothing is kept of the source.
    Nothing,
    /// The folder is none, or can't be made.
    Folder,
    /// The file of this log can't be written, or is there.
    Log(u16),
    /// The part of this log that stands behind so many frames is damaged, or does not go on where its log ends. All else was
    /// written.
    Part(u16, u16),
    /// A line can't be written.
    Output,
}

impl From<AllocError> for ExportFault {
    fn from(_refused: AllocError) -> ExportFault {
        ExportFault::Memory
    }
}

// What a failed call of the system is.
fn fault_of(error: &io::Error, fault: ExportFault) -> ExportFault {
    match error.kind() {
        ErrorKind::OutOfMemory => ExportFault::Memory,
        _ => fault,
    }
}

/// Writes each log that is kept of source `source` of this replica to `FOLDER/R-I-K.hsl`, a new file, and prints
/// `exported R-I-K frames F` for it. The folder is made where it is not there. A log of which a part is missing or damaged has
/// the frames in front of it, and no end mark; the first such part is the fault then, once all logs were written.
pub fn export_kept<F: Files<File = File>, W: Sink>(
    state: &StateFolder<'_, '_, F>,
    files: &F,
    alloc: Global,
    replica: u16,
    source: u16,
    folder: &str,
    out: &mut W,
) -> Result<(), ExportFault> {
    if !state
        .parts()
        .iter()
        .any(|part| part.name.is_of(replica, source))
    {
        return Err(ExportFault::Nothing);
    }
    make_folder(files, folder)?;
    let mut exporter = Exporter {
        files,
        alloc,
        replica,
        source,
        folder,
        out,
        text: None,
        log: 0,
        astray: None,
    };
    let _kept = visit_parts(state, replica, source, &mut exporter)?;
    exporter.write_log()?;
    match exporter.astray {
        Some(name) => Err(ExportFault::Part(name.log, name.place)),
        None => Ok(()),
    }
}

fn make_folder<F: Files<File = File>>(files: &F, path: &str) -> Result<(), ExportFault> {
    match fs::metadata(files, path) {
        Ok(found) if found.is_dir() => Ok(()),
        Ok(_) => Err(ExportFault::Folder),
        Err(error) if error.kind() == ErrorKind::NotFound => match fs::create_dir(files, path) {
            Ok(()) => Ok(()),
            Err(error) => Err(fault_of(&error, ExportFault::Folder)),
        },
        Err(error) => Err(fault_of(&error, ExportFault::Folder)),
    }
}

// What was read of the parts so far.
#[derive(Drop)]
struct Exporter<'x, F, W> {
    files: &'x F,
    alloc: Global,
    replica: u16,
    source: u16,
    folder: &'x str,
    out: &'x mut W,
    // The last log, which is not written yet, and which it is.
    text: Option<LogText>,
    log: u16,
    // The first part that does not go on where its log ends.
    astray: Option<PartName>,
}

impl<F: Files<File = File>, W: Sink> PartVisitor for Exporter<'_, F, W> {
    type Refusal = ExportFault;

    // Nothing is written of a log that lacks its first part, and no log that was written begins as it does.
    fn miss(&mut self) -> Result<bool, ExportFault> {
        self.write_log()?;
        Ok(true)
    }

    fn open(&mut self, kept: &KeptLogs, front: &[FrameDigest]) -> Result<(), ExportFault> {
        self.write_log()?;
        self.text = Some(self.beginning(kept, front)?);
        self.log = u16::try_from(kept.len()).unwrap_or(u16::MAX);
        Ok(())
    }

    fn frame(
        &mut self,
        _log: u16,
        frame: &[u8],
        _digest: &FrameDigest,
    ) -> Result<bool, ExportFault> {
        match &mut self.text {
            Some(text) => Ok(text.add(frame)?),
            None => Ok(false),
        }
    }

    fn end(&mut self, part: &PartFile, found: Found) -> Result<bool, ExportFault> {
        if found == Found::Nothing {
            self.pass_over(&part.name);
        }
        Ok(true)
    }
}

impl<F: Files<File = File>, W: Sink> Exporter<'_, F, W> {
    // The text of a log that begins with these frames: they stand in a log before, which was written.
    fn beginning(&self, kept: &KeptLogs, front: &[FrameDigest]) -> Result<LogText, ExportFault> {
        let mut text = LogText::new(self.alloc)?;
        if front.is_empty() {
            return Ok(text);
        }
        let Some(log) = kept.holding(front) else {
            return Err(ExportFault::Folder);
        };
        let log = u16::try_from(log).unwrap_or(u16::MAX);
        let path = self.path_of(log)?;
        let bytes = match read_file(self.files, self.alloc, &path, MOST_OF_A_STREAM as u64) {
            Ok(bytes) => bytes,
            Err(InputFault::Memory) => return Err(ExportFault::Memory),
            Err(InputFault::Unreadable) => return Err(ExportFault::Log(log)),
        };
        let frames = Frames::of(self.alloc, &bytes)?;
        if !begins_with(&frames, front) || !text.add_first(&frames, front.len())? {
            return Err(ExportFault::Log(log));
        }
        Ok(text)
    }

    // It is no part of a log: the log that lacks it is cut there.
    fn pass_over(&mut self, name: &PartName) {
        if self.astray.is_none() {
            self.astray = Some(*name);
        }
        if let Some(text) = &mut self.text
            && name.log == self.log
        {
            text.cut();
        }
    }

    // Writes the last log, if it is not written, and says so.
    fn write_log(&mut self) -> Result<(), ExportFault> {
        let Some(text) = self.text.take() else {
            return Ok(());
        };
        let log = self.log;
        let count = text.count();
        let path = self.path_of(log)?;
        let bytes = text.finish()?;
        let stored = store_new(self.files, self.alloc, &path, EXPORT_MODE, &bytes);
        if let Err(error) = stored {
            return Err(fault_of(&error, ExportFault::Log(log)));
        }
        let line = self.line_of(log, count)?;
        match write_all(self.out, &line) {
            Ok(()) => Ok(()),
            Err(_) => Err(ExportFault::Output),
        }
    }

    // `exported R-I-K frames F`.
    fn line_of(&self, log: u16, count: usize) -> Result<Vec<u8>, AllocError> {
        let mut line = b"exported ".to_vec(self.alloc)?;
        put_number(&mut line, self.replica)?;
        line.push(b'-')?;
        put_number(&mut line, self.source)?;
        line.push(b'-')?;
        put_number(&mut line, log)?;
        line.extend_from_slice(b" frames ")?;
        put_number(&mut line, count)?;
        line.push(b'\n')?;
        Ok(line)
    }

    fn path_of(&self, log: u16) -> Result<String, AllocError> {
        let (folder, replica, source) = (self.folder, self.replica, self.source);
        format!(in self.alloc; "{folder}/{replica}-{source}-{log}.hsl")
    }
}

// Whether a log begins with frames of these digests.
fn begins_with(frames: &Frames, front: &[FrameDigest]) -> bool {
    if frames.len() < front.len() {
        return false;
    }
    for k in 0..front.len() {
        if digest_of(frames.payload(k)) != front[k] {
            return false;
        }
    }
    true
}
