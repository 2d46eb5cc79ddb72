//! Rows, so that no block and no line along a row meets another.

use std::alloc::{AllocError, Global};

/// The rows, and from which column on each is free.
#[derive(Drop)]
pub(crate) struct Rows {
    free_from: Vec<usize>,
}

impl Rows {
    pub fn new(alloc: Global) -> Rows {
        Rows {
            free_from: Vec::new(alloc),
        }
    }

    pub fn len(&self) -> usize {
        self.free_from.len()
    }

    // Whether the row is free from this column on.
    fn is_free(&self, row: usize, column: usize) -> bool {
        self.free_from.get(row).is_some_and(|from| *from <= column)
    }

    /// Takes a row up to a block's column: the preferred one, if it is free from `first` on, or else the first that
    /// is, or a new one.
    pub fn take(
        &mut self,
        preferred: usize,
        first: usize,
        column: usize,
    ) -> Result<usize, AllocError> {
        let row = if self.is_free(preferred, first) {
            preferred
        } else {
            let found = self.free_from.iter().position(|from| *from <= first);
            found.unwrap_or(self.free_from.len())
        };
        let behind = column.saturating_add(1);
        match self.free_from.get_mut(row) {
            Some(from) => *from = behind,
            None => self.free_from.push(behind)?,
        }
        Ok(row)
    }
}
