//! A file as a source.

ghost use Rattle.std.specs.Prelude.{◌≡◌, ◌≤◌, IfOk, OnOk, length, refl, ⊤};
ghost use native.Mathlib.Nat.{le_refl};
ghost use Rattle.log_transfer.specs.Connections.{CountsBytes, ended, taken_of};

use crate::budget::Budget;
use crate::connector::Connector;
use crate::failure::Failure;
use crate::tries::{counted, no_connection};
use base_streams::Fault;
use std::fs::{File, Files};
use std::io;

// An open file, and what it may still be read for.
#[derive(Drop)]
struct OpenFile {
    file: File,
    budget: Budget,
}

/// A file that holds the whole export of a log. It is opened at `connect`, and has one try, since of a file no later
/// part can be asked for: a connect for frames behind the first is a fault, and so is a read past the most bytes that a
/// connection is read for, `MOST_OF_A_STREAM`. `Pull` and `fetch` end a stream before it gets there. Of what it holds
/// nothing is told, since no contract speaks of a file.
#[derive(Drop)]
pub struct FileConnector<'a, F> {
    files: &'a F,
    path: &'a str,
    open: Option<OpenFile>,
    failures: u64,
    // Of the last call.
    failure: Option<Failure>,
}

impl OpenFile {
    // Reads, unless the budget is spent.
    fn read(&mut self, buffer: &mut [u8]) -> io::Result<usize>
        ensures within { IfOk result (λ n. n ≤ length buffer.new) }
        ensures bytes { CountsBytes self.old.budget self.new.budget result }
    {
        self.budget.read(&mut self.file, buffer)
    }
}

// Why a call failed, if it did.
fn failure_of<T>(outcome: &io::Result<T>) -> Option<Failure> {
    match outcome {
        Ok(_) => None,
        Err(error) => Some(Failure::of_file(error)),
    }
}

impl<'a, F: Files<File = File>> FileConnector<'a, F> {
    /// The file at this path, not opened yet, with no failure so far.
    pub fn new(files: &'a F, path: &'a str) -> FileConnector<'a, F>
        ensures path { result.path ≡ path.entry }
        ensures failures { result.failures ≡ 0 }
    {
        FileConnector {
            files,
            path,
            open: None,
            failures: 0,
            failure: None,
        }
    }

    // Opens the file, if it is asked for from its start.
    fn open(&self, first: u32) -> io::Result<OpenFile>
        ensures fresh { IfOk result (λ o. o.budget ≡ 0) }
        ensures start { OnOk result (first ≡ 0) }
    {
        if first != 0 {
            return Err(no_connection());
        }
        Ok(OpenFile {
            file: File::open(self.files, self.path)?,
            budget: Budget::new(),
        })
    }
}

impl<'a, F: Files<File = File>> Connector for FileConnector<'a, F> {
    ghost gives = { λ s k first most c. ⊤ };

    ghost left = { λ s c. ⊤ };

    ghost asked = { λ s t first most. first ≡ 0 };

    ghost taken = { λ s. taken_of s.open (λ o. o.budget) };

    ghost failed = { λ s. s.failures };

    ghost reaches = { λ s t. (t.path ≡ s.path) × (s.failures ≤ t.failures) };

    ghost allowed = { λ s. 1 };

    fn connect(&mut self, first: u32, _most: u32) -> Result<(), Fault> {
        self.open = None;
        let opened = self.open(first);
        self.failure = failure_of(&opened);
        self.open = Some(counted(&mut self.failures, opened)?);
        Ok(())
    }

    fn read(&mut self, buffer: &mut [u8]) -> Result<usize, Fault> {
        let Some(open) = &mut self.open else {
            return counted(&mut self.failures, Err(no_connection()));
        };
        let outcome = open.read(buffer);
        self.failure = failure_of(&outcome);
        counted(&mut self.failures, outcome)
    }

    fn most_tries(&self) -> u8 {
        1
    }

    fn failures(&self) -> u64 {
        self.failures
    }

    fn failure(&self) -> Option<Failure> {
        self.failure
    }

    ghost some = { λ s. (ended, tt) };

    ghost stays = { λ s. (refl, le_refl s.failures) };
}
