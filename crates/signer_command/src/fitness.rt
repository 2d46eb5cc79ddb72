//! Whether a signer that goes over could go over to the committee of a file.

use base_wire::KeyNumber;
use blocks::CommitteeView;
use handover_folder::{KeySet, LineageFolder, has_keys_of};
use lms_tree::PUBLIC_KEY_LEN;
use program_parts::{SourceWord, read_at_most};
use replica_files::KeyFile;
use signer_answers::can_be_enough;
use std::fs::{File, Files};

/// Why it could not.
#[derive(Clone, Copy, Debug, PartialEq, Eq)]
pub(crate) enum Unfit {
    /// The replica has neither its present keys there, nor those that were made behind them.
    NotMine,
    /// The replicas that are asked would never be enough.
    NeverEnough,
}

impl Unfit {
    /// As it is told.
    pub fn line(self) -> &'static [u8] {
        match self {
            Unfit::NotMine => b"successor not mine\n",
            Unfit::NeverEnough => b"successor never enough\n",
        }
    }
}

/// What a signer goes over with.
#[derive(Clone, Copy)]
pub(crate) struct Means<'a, F> {
    pub folder: LineageFolder<'a, F>,
    pub replica: u16,
    pub sources: &'a [SourceWord<'a>],
}

impl<F: Files<File = File>> Means<'_, F> {
    /// Why the signer could not go over from one committee to another, if it could not.
    pub fn unfit(&self, before: &CommitteeView<'_>, after: &CommitteeView<'_>) -> Option<Unfit> {
        if !self.has_own_keys(before, after) {
            return Some(Unfit::NotMine);
        }
        if !self.are_enough(after) {
            return Some(Unfit::NeverEnough);
        }
        None
    }

    /// Whether DIR began already, or has no other public keys than the replica's in this committee.
    pub fn may_begin(&self, committee: &CommitteeView<'_>) -> bool {
        if matches!(self.folder.has_begun(), Ok(true)) || self.replica >= committee.n() {
            return true;
        }
        for k in 0..committee.keys(self.replica) {
            let key = committee.key(self.replica, k).to_bytes();
            let stored = self.public_key_at(self.folder.path, KeyNumber::of(k));
            if stored.is_some_and(|bytes| bytes.as_slice() != &key[..]) {
                return false;
            }
        }
        true
    }

    fn has_own_keys(&self, before: &CommitteeView<'_>, after: &CommitteeView<'_>) -> bool {
        if self.replica >= after.n() {
            return false;
        }
        has_keys_of(before, after, self.replica) || self.has_next_keys(before, after)
    }

    // Whether the public keys that were made behind a committee are those of the other one.
    fn has_next_keys(&self, before: &CommitteeView<'_>, after: &CommitteeView<'_>) -> bool {
        match self.folder.keys_at(KeySet::Behind(before.chain())) {
            Ok(place) => self.has_keys_at(&place, after),
            Err(_) => false,
        }
    }

    // Whether the public keys in a folder are the replica's in a committee.
    fn has_keys_at(&self, place: &str, committee: &CommitteeView<'_>) -> bool {
        if self.replica >= committee.n() {
            return false;
        }
        for k in 0..committee.keys(self.replica) {
            let key = committee.key(self.replica, k).to_bytes();
            if !self.is_key(place, KeyNumber::of(k), &key) {
                return false;
            }
        }
        true
    }

    fn is_key(&self, place: &str, number: KeyNumber, key: &[u8; PUBLIC_KEY_LEN]) -> bool {
        match self.public_key_at(place, number) {
            Some(bytes) => bytes.as_slice() == &key[..],
            None => false,
        }
    }

    // The bytes of the file of a public key in a folder, if it can be read.
    fn public_key_at(&self, place: &str, number: KeyNumber) -> Option<Vec<u8>> {
        let name = KeyFile::PublicKey(number).name();
        let path = format!(in self.folder.alloc; "{place}/{name}").ok()?;
        let file = File::open(self.folder.files, &path).ok()?;
        read_at_most(self.folder.alloc, file, PUBLIC_KEY_LEN as u64 + 1).ok()
    }

    fn are_enough(&self, after: &CommitteeView<'_>) -> bool {
        let mut asked = Vec::new(self.folder.alloc);
        for source in self.sources {
            if source.replica >= after.n() {
                continue;
            }
            if asked.push(source.replica).is_err() {
                return false;
            }
        }
        can_be_enough(after, self.replica, &asked)
    }
}
