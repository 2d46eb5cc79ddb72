//! `--keep KEPT`: a file for each log that an audit reads.

ghost use Rattle.std.specs.Prelude.{◌≡◌, ◌≢◌, IfErr, IfOk, None};
ghost use Rattle.parallel_verify.specs.Readings.{sources_of};
ghost use Rattle.program_tool.specs.Keeping.{IsKeptFrom, none_kept};

use crate::fault::{Fault, FolderFile, ToolFault};
use audit_run::LogWriter;
use base_streams::{Sink, StdSink};
use log_format::Status;
use log_transfer::Connector;
use parallel_verify::{Observed, Observer, Source};
use program_parts::{NewName, ProgramFault, sync_folder_of};
use std::alloc::{AllocError, Global};
use std::fs::{File, Files};
use std::sync::atomic::{AtomicBool, Ordering};
use std::{fs, mem};

/// Writes the log of one source to its file, which tells nothing of what it is given.
pub(crate) type KeepFile<'k> = KeepOne<'k, StdSink<&'k File>>;

// A file for the log of a source, the name that it takes once the source has ended, and whether all of it was written then.
#[derive(Drop)]
struct KeptFile<'a, F> {
    replica: u16,
    // None where it could not be made.
    file: Option<File>,
    name: Option<NewName<'a, F>>,
    is_written: AtomicBool,
}

/// Keeps the logs of an audit in a folder that it makes, if it is to.
#[derive(Drop)]
pub(crate) struct Keeper<'a, F> {
    files: &'a F,
    alloc: Global,
    folder: Option<&'a str>,
    // Of each source, if the logs are kept.
    kept: Vec<KeptFile<'a, F>>,
    // The first log that is not kept.
    fault: Option<FolderFile>,
}

impl<'a, F: Files<File = File>> Keeper<'a, F> {
    /// Makes the folder, if there is to be one. It must be new.
    pub fn begin(
        files: &'a F,
        alloc: Global,
        folder: Option<&'a str>,
    ) -> Result<Keeper<'a, F>, Fault<'a>>
        ensures { IfErr result (λ fault. fault ≢ ProgramFault.Output) }
    {
        if let Some(path) = folder {
            make_folder(files, path)?;
        }
        Ok(Keeper {
            files,
            alloc,
            folder,
            kept: Vec::new(alloc),
            fault: None,
        })
    }

    /// Makes a file for the log of each source, if they are kept. It is `R-I.hsl.new` until all is read, so that a kill leaves what
    /// came.
    pub fn prepare<C: Connector>(&mut self, sources: &[Source<C>]) -> Result<(), AllocError> {
        let Some(folder) = self.folder else {
            return Ok(());
        };
        for source in sources {
            let replica = source.replica;
            let number = self.kept.len();
            let path = format!(in self.alloc; "{folder}/{replica}-{number}.hsl")?;
            let (name, file) = match NewName::begin(self.files, self.alloc, &path) {
                Ok((name, file)) => (Some(name), Some(file)),
                Err(_) => (None, None),
            };
            self.kept.push(KeptFile {
                replica,
                file,
                name,
                is_written: AtomicBool::new(false),
            })?;
        }
        Ok(())
    }

    /// The sources, each shown to who writes its file, if there is one.
    pub fn observe<C: Connector>(
        &self,
        sources: Vec<Source<C>>,
    ) -> Result<Vec<Observed<C, KeepFile<'_>>>, AllocError>
        ensures { IfOk result (λ observed. sources_of observed.items ≡ sources.items) }
    {
        let mut observed = Vec::with_capacity(self.alloc, sources.len())?;
        for source in sources {
            let observer = self.observer(observed.len());
            observed.push(Observed { source, observer })?;
        }
        Ok(observed)
    }

    // Who writes the file of the source of this number.
    fn observer(&self, source: usize) -> KeepFile<'_> {
        let Some(kept) = self.kept.get(source) else {
            return KeepOne::nobody();
        };
        let Some(file) = &kept.file else {
            return KeepOne::nobody();
        };
        match LogWriter::begin(StdSink::new(file)) {
            Ok(writer) => KeepOne {
                writer: Some(writer),
                ending: Some(Ending {
                    file,
                    is_written: &kept.is_written,
                }),
            },
            Err(_) => KeepOne::nobody(),
        }
    }

    /// Gives each file that was written to its end its name; of another no part stays.
    pub fn name_all(&mut self) {
        let kept = mem::replace(&mut self.kept, Vec::new(self.alloc));
        for (source, one) in kept.into_iter().enumerate() {
            let KeptFile {
                replica,
                file: _,
                name,
                is_written,
            } = one;
            if !take_name(name, is_written.into_inner()) && self.fault.is_none() {
                self.fault = Some(FolderFile::Kept(replica, source));
            }
        }
    }

    /// Whether each log was kept; else which is the first that was not.
    pub fn ended(&self) -> Result<(), Fault<'a>>
        ensures { IfErr result (λ fault. fault ≢ ProgramFault.Output) }
    {
        match (self.folder, self.fault) {
            (Some(folder), Some(file)) => Err(Fault::Own(ToolFault::FileIn(folder, file))),
            _ => Ok(()),
        }
    }
}

// Gives a file its name, if all of it was written. Answers whether it has it.
fn take_name<F: Files<File = File>>(name: Option<NewName<F>>, is_written: bool) -> bool {
    let Some(name) = name else {
        return false;
    };
    if is_written {
        return name.take_new().is_ok();
    }
    name.give_up();
    false
}

fn make_folder<'a, F: Files<File = File>>(files: &F, path: &'a str) -> Result<(), Fault<'a>>
    ensures { IfErr result (λ fault. fault ≢ ProgramFault.Output) }
{
    match fs::create_dir(files, path) {
        Ok(()) => {
            sync_folder_of(files, path);
            Ok(())
        }
        Err(error) => Err(Fault::unless_memory(&error, Fault::File(path))),
    }
}

// Where it is told that a file was written to its end.
#[derive(Drop)]
struct Ending<'k> {
    file: &'k File,
    is_written: &'k AtomicBool,
}

/// Writes the log of one source while its frames come, if it is to.
#[derive(Drop)]
pub(crate) struct KeepOne<'k, K: Sink> {
    writer: Option<LogWriter<K>>,
    ending: Option<Ending<'k>>,
}

impl<K: Sink> KeepOne<'_, K> {
    // Whoever keeps nothing.
    fn nobody() -> Self
        ensures { result.writer ≡ None }
    {
        KeepOne {
            writer: None,
            ending: None,
        }
    }

    // Tells of a file that all of it was written.
    fn note_end(&self) {
        let (Some(writer), Some(ending)) = (&self.writer, &self.ending) else {
            return;
        };
        let is_written = !writer.is_broken() && ending.file.sync_all().is_ok();
        ending.is_written.store(is_written, Ordering::SeqCst);
    }
}

impl<K: Sink> Observer for KeepOne<'_, K> {
    ghost told = { λ s t. IsKeptFrom s.writer t.writer };

    fn frame(&mut self, payload: &[u8]) {
        if let Some(writer) = &mut self.writer {
            writer.frame(payload);
        }
    }

    fn end(&mut self, status: Status) {
        if let Some(writer) = &mut self.writer {
            writer.end(status);
        }
        self.note_end();
    }

    ghost stays = { λ s. none_kept s.writer };
}
