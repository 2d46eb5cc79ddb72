//! The first start of a signer that goes over by itself.

use crate::fault::LineageFault;
use crate::folder::LineageFolder;
use crate::names::{LINEAGE, LOG, WORDS};
use blocks::Id;
use program_parts::{InputFault, MOST_OF_A_SHORT_FILE, read_at_most};
use std::fs::{File, Files};
use std::io::ErrorKind;
use std::{fs, io};

impl<F: Files<File = File>> LineageFolder<'_, F> {
    /// Makes the folder of the chain that DIR began with, of the log that lies in DIR itself, unless it is there already. The log is
    /// moved, so that no program of before starts on DIR. A later start finishes what a kill left. Refused as that chain's where
    /// DIR has neither, or began with another chain.
    pub fn begin(&self, chain: &Id) -> Result<(), LineageFault> {
        match self.is_first(chain) {
            Ok(true) => {}
            Ok(false) => return Err(LineageFault::Chain(*chain)),
            Err(error) => return Err(LineageFault::of(&error, chain)),
        }
        let path = self.chain_folder(chain)?;
        match self.try_begin(&path) {
            Ok(true) => Ok(()),
            Ok(false) => Err(LineageFault::Chain(*chain)),
            Err(error) => Err(LineageFault::of(&error, chain)),
        }
    }

    /// Whether it is written down in DIR which chain it began with.
    pub fn has_begun(&self) -> io::Result<bool> {
        self.is_there(&self.within(self.path, LINEAGE)?)
    }

    // Whether DIR began with this chain. Where that is not written down, and it has a log of its own, it does so now.
    fn is_first(&self, chain: &Id) -> io::Result<bool> {
        let path = self.within(self.path, LINEAGE)?;
        let digits = hex::encode(self.alloc, &chain[..])?;
        let line = format!(in self.alloc; "{digits}\n")?;
        if !self.has_begun()? {
            if !self.is_there(&self.within(self.path, LOG)?)? {
                return Ok(false);
            }
            self.store(&path, line.as_bytes())?;
            return Ok(true);
        }
        let file = File::open(self.files, &path)?;
        match read_at_most(self.alloc, file, MOST_OF_A_SHORT_FILE) {
            Ok(bytes) => Ok(bytes.as_slice() == line.as_bytes()),
            Err(InputFault::Memory) => Err(io::Error::from(ErrorKind::OutOfMemory)),
            Err(_) => Err(io::Error::from(ErrorKind::InvalidData)),
        }
    }

    // Answers whether there is a log.
    fn try_begin(&self, path: &str) -> io::Result<bool> {
        if self.is_there(path)? {
            return Ok(true);
        }
        let beside = self.begin_beside(path)?;
        let (from, to) = (self.within(self.path, LOG)?, self.within(&beside, LOG)?);
        if self.is_there(&from)? {
            self.make_words(&self.within(&beside, WORDS)?)?;
            fs::rename(self.files, from.as_str(), to.as_str())?;
        } else if !self.is_there(&to)? {
            return Ok(false);
        }
        self.take_name(&beside, path)?;
        Ok(true)
    }
}
