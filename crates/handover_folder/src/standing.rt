//! Which chain a signer stands in.

ghost use Rattle.std.specs.Prelude.{◌≡◌, ◌↔◌, IfOk, IfSome, IsTrue, Some};
ghost use Rattle.blocks.specs.Committees.{IsCommittee};
ghost use Rattle.handover_folder.specs.Standing.{HasKeys};
ghost use Rattle.handover_folder.specs.Steps.{IsStep};

use crate::GoneOver;
use crate::fault::LineageFault;
use crate::folder::LineageFolder;
use crate::names::{NEXT_FILE, key_folder};
use blocks::{CommitteeView, Id};
use program_parts::{InputFault, MOST_OF_A_SHORT_FILE, read_at_most};
use sha2::{Digest, Sha256};
use std::alloc::{AllocError, Global};
use std::fs::{File, Files};

/// How many committees a folder is followed through at most.
const MOST_COMMITTEES: u32 = 1_000_000;

/// Where a replica's keys lie.
#[derive(Clone, Copy, Debug, PartialEq, Eq)]
pub enum KeySet {
    /// In DIR itself: those that it began with.
    First,
    /// In the folder that was made behind the chain of this id.
    Behind(Id),
}

/// Which committee a signer stands in.
#[derive(Drop)]
pub struct Standing {
    /// The bytes of that committee's file.
    pub committee: Vec<u8>,
    /// Where the replica's keys of that committee lie.
    pub keys: KeySet,
    /// The block by which it was handed over to, if it was.
    pub handover: Option<Id>,
    /// The bytes of the files of the committees that it has gone over from, in their order.
    pub earlier: Vec<Vec<u8>>,
    /// In how many of these, up to the last one, the replica had the same keys.
    pub alike: u32,
}

// Where one word leads.
#[derive(Drop)]
enum Step {
    // Over to another committee.
    Over(Standing),
    // Nowhere.
    Stands(Standing),
}

impl Standing {
    /// In the committee of this file, which was not handed over to.
    pub fn first(alloc: Global, committee: Vec<u8>) -> Standing
        requires { IsCommittee committee.items }
        ensures { result.committee ≡ committee }
    {
        Standing {
            committee,
            keys: KeySet::First,
            handover: None,
            earlier: Vec::new(alloc),
            alike: 0,
        }
    }

    /// Where it stands once it has gone over by this handover block to the committee of this file, or from no committee. None where
    /// either file is no committee's.
    pub fn gone_over(
        self,
        file: Vec<u8>,
        handover: &Id,
        replica: u16,
    ) -> Result<Option<Standing>, AllocError>
        ensures { IfOk result (λ next. IfSome next (λ n. (n.committee ≡ file)
            × IsCommittee file.items × (n.handover ≡ Some handover.now))) }
    {
        let Some((keys, alike)) = self.keys_in(&file, replica) else {
            return Ok(None);
        };
        let Standing {
            committee,
            mut earlier,
            ..
        } = self;
        earlier.push(committee)?;
        Ok(Some(Standing {
            committee: file,
            keys,
            handover: Some(*handover),
            earlier,
            alike,
        }))
    }

    // Where the replica's keys of the committee of this file lie, and in how many committees before it had the same ones.
    fn keys_in(&self, file: &[u8], replica: u16) -> Option<(KeySet, u32)>
        ensures { IfSome result (λ _. IsCommittee file.now) }
    {
        let Ok(before) = CommitteeView::parse(&self.committee) else {
            return None;
        };
        let Ok(after) = CommitteeView::parse(file) else {
            return None;
        };
        if has_keys_of(&before, &after, replica) {
            return Some((self.keys, self.alike.saturating_add(1)));
        }
        Some((KeySet::Behind(before.chain()), 0))
    }
}

impl<F: Files<File = File>> LineageFolder<'_, F> {
    /// Where a signer stands whose folder began with this committee's file: in the first chain of which it did not say that it has
    /// gone over. Refused as `Endless` behind a million committees, else as the first chain's whose folder, words or next committee's file is missing, can't be read, or is another one
    /// than the words say.
    pub fn stand(&self, first: Vec<u8>, replica: u16) -> Result<Standing, LineageFault>
        requires { IsCommittee first.items }
        ensures { IfOk result (λ at. IsCommittee at.committee.items) }
    {
        let mut at = Standing::first(self.alloc, first);
        for _ in 0..MOST_COMMITTEES {
            match self.step(at, replica)? {
                Step::Over(next) => at = next,
                Step::Stands(here) => return Ok(here),
            }
        }
        Err(LineageFault::Endless)
    }

    // Where it stands behind the word of this committee's chain, or here, where there is none.
    fn step(&self, at: Standing, replica: u16) -> Result<Step, LineageFault>
        requires { IsCommittee at.committee.items }
        ensures { IfOk result IsStep }
    {
        let chain = chain_of(&at.committee);
        let Some(word) = self.words_of(&chain)?.gone() else {
            return Ok(Step::Stands(at));
        };
        let file = self.file_behind(&chain, &word)?;
        let handover = word.handover;
        match at.gone_over(file, &handover, replica)? {
            Some(next) => Ok(Step::Over(next)),
            None => Err(LineageFault::Chain(chain)),
        }
    }

    // The file of the committee that a word of this chain says.
    fn file_behind(&self, chain: &Id, word: &GoneOver) -> Result<Vec<u8>, LineageFault> {
        let path = self.within(&self.chain_folder(chain)?, NEXT_FILE)?;
        let file = match File::open(self.files, &path) {
            Ok(file) => file,
            Err(error) => return Err(LineageFault::of(&error, chain)),
        };
        match read_at_most(self.alloc, file, MOST_OF_A_SHORT_FILE) {
            Ok(bytes) if is_digest_of(&word.file, &bytes) => Ok(bytes),
            Err(InputFault::Memory) => Err(LineageFault::Memory),
            _ => Err(LineageFault::Chain(*chain)),
        }
    }

    /// The folder in which the keys lie.
    pub fn keys_at(&self, keys: KeySet) -> Result<String, AllocError> {
        match keys {
            KeySet::First => self.path.to_string(self.alloc),
            KeySet::Behind(chain) => key_folder(self.alloc, self.path, &chain),
        }
    }
}

// The chain of the committee of this file; of a file that is none, that of no committee.
pub(crate) fn chain_of(committee: &[u8]) -> Id {
    match CommitteeView::parse(committee) {
        Ok(committee) => committee.chain(),
        Err(_) => [0; 32],
    }
}

fn is_digest_of(digest: &[u8; 32], bytes: &[u8]) -> bool {
    let found: [u8; 32] = Sha256::digest(bytes).into();
    found == *digest
}

/// Whether a replica has the same keys in both committees, in the same order.
pub fn has_keys_of(before: &CommitteeView, after: &CommitteeView, replica: u16) -> bool
    ensures { IsTrue result ↔ HasKeys before.now after.now replica }
{
    if replica >= before.n() || replica >= after.n() {
        return false;
    }
    if before.keys(replica) != after.keys(replica) {
        return false;
    }
    for k in 0..before.keys(replica) {
        if before.key(replica, k) != after.key(replica, k) {
            return false;
        }
    }
    true
}
