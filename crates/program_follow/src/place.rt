//! Where the files of a proof go.

ghost use Rattle.std.specs.Prelude.{◌≡◌, ◌∷◌, [], ℕ, List, None, Option, OnErr, OnOk};
ghost use Rattle.program_follow.specs.ProofFiles.{Put, PutNothing};

use program_parts::NewName;
use std::alloc::Global;
use std::fs::{File, Files};
use std::io;
use std::io::Write;

/// Takes files in order. A contract names those that a place has, where the place tells them.
pub(crate) trait ProofPlace: Drop {
    ghost files: { Self → Option (List (List ℕ)) };

    /// Puts a file of these bytes behind those before. After an error it is not there.
    fn put(&mut self, bytes: &[u8]) -> io::Result<()>
        ensures ok { OnOk result (Put (files self.old) (files self.new) (bytes.now ∷ [])) }
        ensures err { OnErr result (PutNothing (files self.old) (files self.new)) };
}

/// New files at a path: the first at the path itself, and others at the path with `.1` and so on behind it. Each is synced, and then
/// named. No contract speaks of a file, so it tells nothing of what it has.
#[derive(Drop)]
pub(crate) struct NewFiles<'f, 'a, F: Files<File = File>> {
    files: &'f F,
    alloc: Global,
    path: &'a str,
    // How many were put.
    count: u64,
}

impl<'f, 'a, F: Files<File = File>> NewFiles<'f, 'a, F> {
    /// None so far.
    pub(crate) fn at(files: &'f F, alloc: Global, path: &'a str) -> NewFiles<'f, 'a, F> {
        NewFiles {
            files,
            alloc,
            path,
            count: 0,
        }
    }
}

impl<F: Files<File = File>> ProofPlace for NewFiles<'_, '_, F> {
    ghost files = { λ _. None };

    fn put(&mut self, bytes: &[u8]) -> io::Result<()> {
        let (path, count) = (self.path, self.count);
        if count == 0 {
            write_new(self.files, self.alloc, path, bytes)?;
        } else {
            let name = format!(in self.alloc; "{path}.{count}")?;
            write_new(self.files, self.alloc, &name, bytes)?;
        }
        self.count = count.saturating_add(1);
        Ok(())
    }
}

fn write_new<F: Files<File = File>>(
    files: &F,
    alloc: Global,
    path: &str,
    bytes: &[u8],
) -> io::Result<()> {
    let (name, file) = NewName::begin(files, alloc, path)?;
    match fill(&file, bytes) {
        Ok(()) => name.take_new(),
        Err(error) => {
            name.give_up();
            Err(error)
        }
    }
}

fn fill(mut file: &File, bytes: &[u8]) -> io::Result<()> {
    file.write_all(bytes)?;
    file.sync_all()
}
