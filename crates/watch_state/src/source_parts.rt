//! The parts of a source that are kept, of which some are joined once there are many.

ghost use Rattle.std.specs.List.Sorted.{IsSorted};
ghost use Rattle.std.specs.Prelude.{◌≡◌, ◌++◌, ◌∷◌, [], IsPermutation, OnOk, length};

use crate::folder::StateFolder;
use crate::joining::join;
use crate::name::PartFile;
use crate::order::put_in_order;
use crate::runs::{JOINED, shortest_run};
use std::alloc::{AllocError, Global};
use std::fs::{File, Files};
use std::marker::Model;

/// From how many parts of a source on some are joined.
pub const MANY_PARTS: usize = 192;

/// The parts of a source that are kept, and how many bytes the file of each has. Contracts see them, and those that go.
#[derive(Drop)]
pub struct SourceParts {
    alloc: Global,
    // In the order of their names.
    parts: Vec<PartFile>,
    // All of their frames stand in another part: they are removed once the name of that is on the disk.
    leftovers: Vec<PartFile>,
    // One of them is not as it was stored: no more are joined.
    is_spoilt: bool,
}

impl Model for SourceParts {
    ghost use Rattle.watch_state.specs.Joins.{Kept};

    ghost Value = { Kept };

    ghost view = { λ s. record { parts = s.parts.items; leftovers = s.leftovers.items } };
}

impl SourceParts {
    /// None yet.
    pub fn new(alloc: Global) -> SourceParts
        ensures { result ≡ record { parts = []; leftovers = [] } }
    {
        SourceParts {
            alloc,
            parts: Vec::new(alloc),
            leftovers: Vec::new(alloc),
            is_spoilt: false,
        }
    }

    /// How many there are.
    pub fn len(&self) -> usize
        ensures { result ≡ length self.now.parts }
    {
        self.parts.len()
    }

    /// One more is kept. `AllocError` where memory was refused, here as in the other calls.
    pub fn push(&mut self, part: &PartFile) -> Result<(), AllocError>
        ensures same { OnOk result (IsPermutation (self.old.parts ++ part.now ∷ []) self.new.parts) }
        ensures sorted { OnOk result (IsSorted ⟦<PartFile as Ord>⟧.cmp self.new.parts) }
        ensures leftovers { OnOk result (self.new.leftovers ≡ self.old.leftovers) }
    {
        self.parts.push(*part)?;
        put_in_order(&mut self.parts);
        Ok(())
    }

    /// One more is there, all frames of which stand in others: it goes.
    pub fn leave(&mut self, part: &PartFile) -> Result<(), AllocError>
        ensures { OnOk result (self.new ≡ record {
          parts = self.old.parts;
          leftovers = self.old.leftovers ++ part.now ∷ [];
        }) }
    {
        self.leftovers.push(*part)?;
        Ok(())
    }

    /// Removes the files of those whose frames stand in others, and joins eight where there are 192 or more. Answers whether it joined
    /// some, and more may be joined at once. Where a file can't be read, made or removed nothing is lost, and the next call tries
    /// again; where one that is to be joined is not as it was stored, no more are joined.
    pub fn join_next<F: Files<File = File>>(
        &mut self,
        state: &StateFolder<'_, '_, F>,
    ) -> Result<bool, AllocError> {
        self.clear(state)?;
        if self.is_spoilt || !self.leftovers.is_empty() || self.parts.len() < MANY_PARTS {
            return Ok(false);
        }
        match shortest_run(&self.parts) {
            Some(first) => self.join_from(state, first),
            None => Ok(false),
        }
    }

    // Removes the files of those whose frames stand in others, once the names of all are on the disk.
    fn clear<F: Files<File = File>>(
        &mut self,
        state: &StateFolder<'_, '_, F>,
    ) -> Result<(), AllocError> {
        if self.leftovers.is_empty() || state.sync().is_err() {
            return Ok(());
        }
        let mut left = Vec::new(self.alloc);
        for part in &self.leftovers {
            if !state.remove(part)? {
                left.push(*part)?;
            }
        }
        self.leftovers = left;
        Ok(())
    }

    // Joins the eight from this one on.
    fn join_from<F: Files<File = File>>(
        &mut self,
        state: &StateFolder<'_, '_, F>,
        first: usize,
    ) -> Result<bool, AllocError> {
        let end = first.saturating_add(JOINED);
        let Some(run) = self.parts.get(first..end) else {
            return Ok(false);
        };
        match join(state, run) {
            Ok(Some(bytes)) => self.take_out(first, bytes)?,
            Ok(None) => {
                self.is_spoilt = true;
                return Ok(false);
            }
            Err(_) => return Ok(false),
        }
        self.clear(state)?;
        Ok(self.leftovers.is_empty())
    }

    // The first of eight has all of their frames now, in so many bytes. No frames of other parts stood in two before.
    fn take_out(&mut self, first: usize, bytes: u64) -> Result<(), AllocError> {
        let mut kept = Vec::with_capacity(self.alloc, self.parts.len())?;
        let mut left = Vec::with_capacity(self.alloc, JOINED)?;
        for (k, part) in self.parts.iter().enumerate() {
            if k == first {
                kept.push(PartFile {
                    name: part.name,
                    bytes,
                })?;
            } else if k > first && k < first.saturating_add(JOINED) {
                left.push(*part)?;
            } else {
                kept.push(*part)?;
            }
        }
        self.parts = kept;
        self.leftovers = left;
        Ok(())
    }
}
