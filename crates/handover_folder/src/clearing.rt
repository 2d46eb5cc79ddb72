//! What is removed once no chain needs it: seeds of keys that no committee has any more, and logs.

ghost use Rattle.std.specs.Prelude.{IfSome, IsFalse};
ghost use Rattle.handover_folder.specs.Clearing.{HasNoKeptSlot, IsUnasked};

use crate::folder::LineageFolder;
use crate::names::LOG;
use crate::standing::{KeySet, Standing, has_keys_of};
use base_wire::{KeyNumber, MOST_KEYS};
use blocks::{CommitteeView, Id};
use program_parts::sync_folder;
use replica_files::KeyFile;
use std::fs::{File, Files};
use std::{fs, io};

impl<F: Files<File = File>> LineageFolder<'_, F> {
    /// Removes the seeds of a key set that the replica has in no committee any more. What was removed may still be on the disk.
    pub fn remove_seeds(&self, keys: KeySet) -> io::Result<()> {
        let place = self.keys_at(keys)?;
        for k in 0..MOST_KEYS {
            let name = KeyFile::Seed(KeyNumber::of(k)).name();
            self.remove(&self.within(&place, name)?)?;
        }
        sync_folder(self.files, &place);
        Ok(())
    }

    /// The same of each key set that the replica had before the one that it has where it stands.
    pub fn remove_old_seeds(&self, at: &Standing, replica: u16) -> io::Result<()> {
        let mut keys = KeySet::First;
        let mut before: Option<&[u8]> = None;
        for file in &at.earlier {
            keys = self.set_behind(keys, before, file, replica)?;
            before = Some(file);
        }
        self.set_behind(keys, before, &at.committee, replica)?;
        Ok(())
    }

    // The key set of the committee of this file, which followed the one before. Of another one before it the seeds are removed.
    fn set_behind(
        &self,
        keys: KeySet,
        before: Option<&[u8]>,
        file: &[u8],
        replica: u16,
    ) -> io::Result<KeySet> {
        let Some(before) = before else {
            return Ok(keys);
        };
        match new_set(before, file, replica) {
            Some(new) => {
                self.remove_seeds(keys)?;
                Ok(new)
            }
            None => Ok(keys),
        }
    }

    /// Removes the logs of the chains that it went over from, but for the last so many, and for each that somebody may still ask for: a
    /// replica that has, in the committee where the signer stands, the keys that it had in the one after such a chain may have stayed
    /// away since, and asks for the log before it goes on there. So the last chain's log stays in each case, and those of
    /// the chains of which a start asks the logs, since the own keys were the same. All else of these chains stays.
    pub fn remove_old_logs(&self, at: &Standing, keep: usize) -> io::Result<()> {
        let old = at.earlier.len().saturating_sub(keep);
        let mut before: Option<&[u8]> = None;
        for file in at.earlier.iter().take(old.saturating_add(1)) {
            self.remove_log_before(before, file, &at.committee)?;
            before = Some(file);
        }
        Ok(())
    }

    // Removes the log of the committee's chain that stood before the one of this file, unless somebody may still ask for it.
    fn remove_log_before(
        &self,
        before: Option<&[u8]>,
        file: &[u8],
        present: &[u8],
    ) -> io::Result<()> {
        let Some(before) = before else {
            return Ok(());
        };
        match chain_if_unasked(before, file, present) {
            Some(chain) => self.remove_log(&chain),
            None => Ok(()),
        }
    }

    fn remove_log(&self, chain: &Id) -> io::Result<()> {
        let place = self.chain_folder(chain)?;
        let log = self.within(&place, LOG)?;
        if self.is_there(&log)? {
            fs::remove_file(self.files, log.as_str())?;
            sync_folder(self.files, &place);
        }
        Ok(())
    }

    // Removes a file, if it is there.
    pub(crate) fn remove(&self, path: &str) -> io::Result<()> {
        if self.is_there(path)? {
            fs::remove_file(self.files, path)?;
        }
        Ok(())
    }
}

// Where the keys lie that the replica has in the committee of a file, if they are not those of the one before.
fn new_set(before: &[u8], file: &[u8], replica: u16) -> Option<KeySet> {
    let before = CommitteeView::parse(before).ok()?;
    let after = CommitteeView::parse(file).ok()?;
    if has_keys_of(&before, &after, replica) {
        return None;
    }
    Some(KeySet::Behind(before.chain()))
}

// The chain of the committee of a file, if no replica has the same keys in it or in the one that followed it, and where the signer stands.
fn chain_if_unasked(before: &[u8], file: &[u8], present: &[u8]) -> Option<Id>
    ensures { IfSome result (IsUnasked before.now file.now present.now) }
{
    let before = CommitteeView::parse(before).ok()?;
    let after = CommitteeView::parse(file).ok()?;
    let present = CommitteeView::parse(present).ok()?;
    if has_kept_slot(&before, &present) || has_kept_slot(&after, &present) {
        return None;
    }
    Some(before.chain())
}

// Whether some replica has the same keys in both committees.
fn has_kept_slot(before: &CommitteeView, after: &CommitteeView) -> bool
    ensures { IsFalse result → HasNoKeptSlot before.now after.now }
{
    for replica in 0..before.n() {
        if has_keys_of(before, after, replica) {
            return true;
        }
    }
    false
}
