//! The folder.

ghost use Rattle.std.specs.Prelude.{◌≡◌, IfOk, string_bytes};
ghost use Rattle.handover_folder.specs.Names.{chain_folder};

use crate::names::chain_folder;
use blocks::Id;
use program_parts::is_nothing_at;
use std::alloc::{AllocError, Global};
use std::fs::{File, Files};
use std::io;

/// The folder of a signer whose committees follow one another, which the caller has the lock of.
#[derive(Clone, Copy)]
pub struct LineageFolder<'a, F> {
    /// Files.
    pub files: &'a F,
    /// Memory.
    pub alloc: Global,
    /// The path of DIR.
    pub path: &'a str,
}

impl<'a, F: Files<File = File>> LineageFolder<'a, F> {
    /// The folder of a chain. It need not be there.
    pub fn chain_folder(&self, chain: &Id) -> Result<String, AllocError>
        ensures { IfOk result (λ path. string_bytes path ≡ chain_folder self.now.path.now chain.now) }
    {
        chain_folder(self.alloc, self.path, chain)
    }

    // Whether something has this path.
    pub(crate) fn is_there(&self, path: &str) -> io::Result<bool> {
        Ok(!is_nothing_at(self.files, path)?)
    }

    // The path of a file of this name in a folder.
    pub(crate) fn within(&self, folder: &str, name: &str) -> Result<String, AllocError> {
        format!(in self.alloc; "{folder}/{name}")
    }
}
