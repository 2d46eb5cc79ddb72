//! The folder of a chain: its log and its words, which are there whole or not at all.

ghost use Rattle.handover_light.specs.Proving.{ProvesHandover};

use crate::fault::LineageFault;
use crate::folder::LineageFolder;
use crate::names::{LOG, NEXT_FILE, NEXT_PROOF, NEXT_RENEWAL, WORDS};
use crate::{GoneOver, WordError, WordStore};
use blocks::{CommitteeView, Id};
use handover_light::LightProof;
use program_parts::{replace_file, sync_folder};
use stable_log::{FileDisk, Journal};
use std::fs::{File, Files, OpenOptions};
use std::io::ErrorKind;
use std::os::unix::fs::OpenOptionsExt;
use std::{fs, io};

/// The mode of a journal that is made: everyone may read it.
const MODE: u32 = 0o644;

/// The length in bytes of a journal with no entry.
const EMPTY_JOURNAL_LEN: u64 = 9;

impl<F: Files<File = File>> LineageFolder<'_, F> {
    /// The words of a chain.
    pub fn words_of(&self, chain: &Id) -> Result<WordStore<FileDisk>, LineageFault> {
        let path = self.within(&self.chain_folder(chain)?, WORDS)?;
        let mut how = OpenOptions::new();
        how.read(true).write(true);
        let file = match how.open(self.files, &path) {
            Ok(file) => file,
            Err(error) => return Err(LineageFault::of(&error, chain)),
        };
        match WordStore::recover(self.alloc, FileDisk::new(file)) {
            Ok(words) => Ok(words),
            Err((WordError::Memory, _)) => Err(LineageFault::Memory),
            Err((WordError::Device, _)) => Err(LineageFault::Device),
            Err(_) => Err(LineageFault::Chain(*chain)),
        }
    }

    /// What the signer said of a chain, if it has a folder of that chain.
    pub fn said_of(&self, chain: &Id) -> Result<Option<GoneOver>, LineageFault> {
        let path = self.chain_folder(chain)?;
        match self.is_there(&path) {
            Ok(true) => Ok(self.words_of(chain)?.gone()),
            Ok(false) => Ok(None),
            Err(error) => Err(LineageFault::of(&error, chain)),
        }
    }

    /// Makes the folder of a chain, with an empty log and no word, if there is none. It is made under another name, synced, and then
    /// takes its own. One that is there already is left as it is: the log's entries are looked at by who opens it.
    pub fn make_chain(&self, chain: &Id) -> Result<(), LineageFault> {
        let path = self.chain_folder(chain)?;
        match self.try_make_chain(&path) {
            Ok(()) => Ok(()),
            Err(error) => Err(LineageFault::of(&error, chain)),
        }
    }

    fn try_make_chain(&self, path: &str) -> io::Result<()> {
        if self.is_there(path)? {
            return Ok(());
        }
        let beside = self.begin_beside(path)?;
        self.make_log(&self.within(&beside, LOG)?)?;
        self.make_words(&self.within(&beside, WORDS)?)?;
        self.take_name(&beside, path)
    }

    /// Stores the file of the committee that the signer goes over to from this chain, before it says so: whole, in place of one of which
    /// it did not say so, whose renewal and light proof are removed.
    pub fn store_next(&self, chain: &Id, file: &[u8]) -> Result<(), LineageFault> {
        for name in [NEXT_RENEWAL, NEXT_PROOF] {
            let path = self.within(&self.chain_folder(chain)?, name)?;
            if let Err(error) = self.remove(&path) {
                return Err(LineageFault::of(&error, chain));
            }
        }
        self.store_beside(chain, NEXT_FILE, file)
    }

    /// Stores the renewal by which that committee follows this chain's, before the signer says that it goes over.
    pub fn store_renewal(&self, chain: &Id, renewal: &[u8]) -> Result<(), LineageFault> {
        self.store_beside(chain, NEXT_RENEWAL, renewal)
    }

    /// Stores a light proof that a handover is committed in the chain of this committee, before the signer says that it goes over.
    pub fn store_light_proof(
        &self,
        committee: &CommitteeView,
        proof: &LightProof,
    ) -> Result<(), LineageFault>
        requires { ProvesHandover committee.now proof.now }
    {
        let bytes = proof.write(self.alloc)?;
        self.store_beside(&committee.chain(), NEXT_PROOF, &bytes)
    }

    // Stores a file of this name in the folder of a chain, whole.
    pub(crate) fn store_beside(
        &self,
        chain: &Id,
        name: &str,
        bytes: &[u8],
    ) -> Result<(), LineageFault> {
        let path = self.within(&self.chain_folder(chain)?, name)?;
        match self.store(&path, bytes) {
            Ok(()) => Ok(()),
            Err(error) => Err(LineageFault::of(&error, chain)),
        }
    }

    // Stores a file whole, in place of what an earlier try left.
    pub(crate) fn store(&self, path: &str, bytes: &[u8]) -> io::Result<()> {
        let beside = format!(in self.alloc; "{path}.new")?;
        if self.is_there(&beside)? {
            fs::remove_file(self.files, beside.as_str())?;
        }
        replace_file(self.files, self.alloc, path, bytes)
    }

    // A folder at `PATH.new`, made if it is not there.
    pub(crate) fn begin_beside(&self, path: &str) -> io::Result<String> {
        let beside = format!(in self.alloc; "{path}.new")?;
        match fs::create_dir(self.files, beside.as_str()) {
            Ok(()) => Ok(beside),
            Err(error) if error.kind() == ErrorKind::AlreadyExists => Ok(beside),
            Err(error) => Err(error),
        }
    }

    // The folder takes its name, once what is in it is synced.
    pub(crate) fn take_name(&self, beside: &str, path: &str) -> io::Result<()> {
        sync_folder(self.files, beside);
        fs::rename(self.files, beside, path)?;
        sync_folder(self.files, self.path);
        Ok(())
    }

    // A journal's file, in the place of what an earlier try left. One that may have an entry is never removed: that is a failure.
    fn make_anew(&self, path: &str) -> io::Result<FileDisk> {
        if self.is_there(path)? {
            if fs::metadata(self.files, path)?.len() > EMPTY_JOURNAL_LEN {
                return Err(io::Error::from(ErrorKind::AlreadyExists));
            }
            fs::remove_file(self.files, path)?;
        }
        let mut how = OpenOptions::new();
        how.read(true).write(true).create_new(true).mode(MODE);
        Ok(FileDisk::new(how.open(self.files, path)?))
    }

    fn make_log(&self, path: &str) -> io::Result<()> {
        match Journal::create(self.alloc, self.make_anew(path)?) {
            Ok(_) => Ok(()),
            Err(_) => Err(io::Error::from(ErrorKind::Other)),
        }
    }

    pub(crate) fn make_words(&self, path: &str) -> io::Result<()> {
        match WordStore::create(self.alloc, self.make_anew(path)?) {
            Ok(_) => Ok(()),
            Err(_) => Err(io::Error::from(ErrorKind::Other)),
        }
    }
}
