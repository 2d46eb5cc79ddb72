//! The replica's next keys, which one thread of a stay makes beside the votes.

ghost use Rattle.std.specs.Prelude.{◌≡◌, ◌≤◌, IfOk, IfSome};
ghost use Rattle.base_wire.specs.declared.limits.TheConstants.{MOST_KEYS};
ghost use Rattle.handover_keys.specs.Endorsements.{IsGoodEndorsement};

use crate::next::{Keys, Made};
use crate::notes::Notes;
use crate::pace::tick;
use crate::pool::Start;
use crate::seeds::{public_keys_at, seeds_at};
use crate::stay::Room;
use base_streams::Sink;
use base_wire::MOST_KEYS;
use blocks::{CommitteeView, Id};
use handover_folder::{GoneOver, KeySet, LineageFault, LineageFolder, WordError, WordStore};
use handover_keys::{bound_id, check_endorsement, write_next_keys};
use lms_tree::{PublicKey, SigningTree};
use program_parts::is_nothing_at;
use replica_files::{Behind, Growth, KeyHost, SetFault, SystemSeeds, grow_all, make_gently};
use signer_service::{NextFault, NextKeys};
use stable_log::FileDisk;
use std::alloc::{AllocError, Global};
use std::fs::{File, Files};
use std::random::RandomSource;
use std::sync::{Mutex, Wait};
use std::thread;
use std::thread::Threads;
use std::time::{Clock, Duration};

/// How long the thread pauses behind each four one-time keys, of which a key has 1,024: a few times as long as it computes.
const PAUSE_MILLISECONDS: u64 = 10;

/// Why keys were not made, as it is told.
const NOT_MADE: &[u8] = b"next keys not made\n";

/// .. and that those can't be read that were signed for, or which they are.
const STOPPED: &[u8] = b"stopped next\n";

/// Why a word was not stored.
#[derive(Clone, Copy)]
pub(crate) enum WordFault {
    /// Memory was refused.
    Memory,
    /// What the words say can't be read, or it is another word: nothing was written.
    Unreadable,
    /// The signer has gone over, and endorses nothing behind that: nothing was written.
    Gone,
    /// The disk failed: the word may be stored or not.
    Unsure,
}

impl WordFault {
    fn of(refusal: WordError) -> WordFault {
        match refusal {
            WordError::Memory => WordFault::Memory,
            WordError::Gone => WordFault::Gone,
            WordError::Device | WordError::Stopped => WordFault::Unsure,
            _ => WordFault::Unreadable,
        }
    }
}

impl From<AllocError> for WordFault {
    ghost use Rattle.std.specs.Prelude.{◌≡◌};
    ghost use Rattle.signer_command.specs.declared.making.WordFault.TheVariants.{Memory};

    ghost from_gives = { λ _ fault. fault ≡ Memory };

    fn from(_: AllocError) -> Self {
        WordFault::Memory
    }
}

/// The replica's next keys behind the chain of a stay, and what it said of them.
#[derive(Drop)]
pub(crate) struct Maker<'a, T: Wait, S: Sink> {
    pub rt: &'a T,
    pub alloc: Global,
    pub committee: &'a CommitteeView<'a>,
    pub replica: u16,
    pub folder: LineageFolder<'a, T>,
    pub notes: &'a Notes<'a, T, S>,
    pub start: &'a Start,
    /// Whether any are made.
    pub is_on: bool,
    keys: Mutex<Keys>,
}

impl<'a, T: Wait + Files<File = File>, S: Sink> Maker<'a, T, S> {
    /// What is not known yet.
    pub fn new(room: &Room<'a, T, S>) -> Maker<'a, T, S>
        ensures { result.committee.now ≡ room.now.committee.now }
    {
        Maker {
            rt: room.rt,
            alloc: room.alloc,
            committee: room.committee,
            replica: room.words.replica,
            folder: LineageFolder {
                files: room.rt,
                alloc: room.alloc,
                path: room.words.folder,
            },
            notes: room.notes,
            start: room.start,
            is_on: room.words.renew,
            keys: Mutex::new(Keys::Making),
        }
    }

    /// How far they are.
    pub fn progress(&self) -> NextKeys {
        if !self.is_on {
            return NextKeys::None;
        }
        let keys = self.keys.lock(self.rt);
        keys.progress()
    }

    /// Whether the replica signed for the keys that it has in this committee.
    pub fn signed_for(&self, after: &CommitteeView) -> Result<bool, NextFault> {
        let keys = self.keys.lock(self.rt);
        keys.signed_for(after, self.replica)
    }

    /// Whether it signed for them, though they are not there.
    pub fn lacks(&self, after: &CommitteeView) -> bool {
        matches!(self.signed_for(after), Ok(true) | Err(NextFault::Stopped))
    }

    /// The endorsement that was said, if one was.
    pub fn endorsed(&self) -> Result<Option<Vec<u8>>, NextFault>
        ensures { IfOk result (λ said. IfSome said (λ bytes.
            IsGoodEndorsement self.now.committee.now bytes.items)) }
    {
        let Some(said) = self.said()? else {
            return Ok(None);
        };
        self.as_good(said)
    }

    fn as_good(&self, said: Vec<u8>) -> Result<Option<Vec<u8>>, NextFault>
        ensures { IfOk result (λ said. IfSome said (λ bytes.
            IsGoodEndorsement self.now.committee.now bytes.items)) }
    {
        match check_endorsement(self.committee, &said) {
            Ok(_) => Ok(Some(said)),
            Err(_) => Err(NextFault::Stopped),
        }
    }

    fn said(&self) -> Result<Option<Vec<u8>>, NextFault> {
        let keys = self.keys.lock(self.rt);
        keys.said(self.alloc)
    }

    /// The statement of the next keys.
    pub fn statement(&self) -> Result<Vec<u8>, NextFault> {
        let keys = self.keys.lock(self.rt);
        keys.statement(self.alloc)
    }

    /// Says this endorsement for good, unless another was said before. Answers the one that is said. Nothing is said of one that is not
    /// good.
    pub fn endorse(&self, endorsement: &[u8]) -> Result<Vec<u8>, NextFault>
        ensures { IfOk result (λ said. IsGoodEndorsement self.now.committee.now said.items) }
    {
        if check_endorsement(self.committee, endorsement).is_err() {
            return Err(NextFault::Stopped);
        }
        let said = self.store(endorsement)?;
        match self.as_good(said)? {
            Some(said) => Ok(said),
            None => Err(NextFault::Stopped),
        }
    }

    // Stores it, under the lock of what is known of the keys, so that one is stored once.
    fn store(&self, endorsement: &[u8]) -> Result<Vec<u8>, NextFault> {
        let mut keys = self.keys.lock(self.rt);
        let keys = &mut *keys;
        if let Some(said) = keys.said(self.alloc)? {
            return Ok(said);
        }
        let copy = copy_of(self.alloc, endorsement)?;
        match self.say_endorsed(endorsement) {
            Ok(said) => {
                keys.set_said(copy_of(self.alloc, &said)?);
                Ok(said)
            }
            Err(WordFault::Memory) => Err(NextFault::Memory),
            // It has gone over meanwhile: the next call names the chain that was left.
            Err(WordFault::Gone) => Err(NextFault::Making),
            Err(WordFault::Unreadable) => Err(NextFault::Stopped),
            Err(WordFault::Unsure) => {
                // It may be stored or not: it is told to nobody, and no other one is said.
                *keys = Keys::Stopped(Some(copy));
                let _ = self.notes.put_down_failure();
                self.notes.tell(STOPPED);
                Err(NextFault::Stopped)
            }
        }
    }

    // What the words say that it endorsed, which is this where they said nothing of that. Only under the lock.
    fn say_endorsed(&self, endorsement: &[u8]) -> Result<Vec<u8>, WordFault> {
        let mut words = self.words()?;
        if let Some(said) = words.endorsed() {
            return Ok(copy_of(self.alloc, said)?);
        }
        let copy = copy_of(self.alloc, endorsement)?;
        match words.endorse(endorsement) {
            Ok(()) => Ok(copy),
            Err(refusal) => Err(WordFault::of(refusal)),
        }
    }

    /// Stores the word that the signer goes over. Both words of a chain are stored under one lock: each opens the journal of words, and
    /// writes behind what it finds there.
    pub fn go_over(&self, word: GoneOver) -> Result<(), WordFault> {
        let _keys = self.keys.lock(self.rt);
        let mut words = self.words()?;
        match words.go_over(word) {
            Ok(()) => Ok(()),
            Err(refusal) => Err(WordFault::of(refusal)),
        }
    }

    // The words of the chain. Only under the lock.
    fn words(&self) -> Result<WordStore<FileDisk>, WordFault> {
        match self.folder.words_of(&self.committee.chain()) {
            Ok(words) => Ok(words),
            Err(LineageFault::Memory) => Err(WordFault::Memory),
            Err(LineageFault::Device) => Err(WordFault::Unsure),
            Err(_) => Err(WordFault::Unreadable),
        }
    }

    /// The computed keys of the replica in this committee, where they are the next ones. They are handed out once.
    pub fn take_trees(&self) -> Option<Vec<SigningTree>> {
        let mut keys = self.keys.lock(self.rt);
        keys.take_trees()
    }

    // What is known from now on.
    fn set(&self, known: Keys) {
        let mut keys = self.keys.lock(self.rt);
        *keys = known;
    }

    fn stop(&self, said: Option<Vec<u8>>, line: &[u8]) {
        self.set(Keys::Stopped(said));
        self.notes.tell(line);
    }
}

impl<T: Threads + Wait + Clock + RandomSource + Files<File = File>, S: Sink> Maker<'_, T, S> {
    /// Finds the next keys, or makes them, and computes them. Where memory is refused all is tried again.
    pub fn make(&self) {
        for _ in self.rt.forever() {
            if self.start.is_ending() {
                return;
            }
            match self.try_make() {
                Ok(()) => return,
                Err(AllocError) => thread::sleep(self.rt, tick()),
            }
        }
    }

    fn try_make(&self) -> Result<(), AllocError> {
        let place = self.folder.keys_at(KeySet::Behind(self.committee.chain()))?;
        if self.are_known() {
            return self.compute(&place, self.count());
        }
        let said = match self.said_before() {
            Ok(said) => said,
            Err(WordFault::Memory) => return Err(AllocError),
            Err(fault) => {
                self.stop_unread(fault);
                return Ok(());
            }
        };
        match (is_nothing_at(self.rt, &place), said) {
            (Ok(true), None) => self.make_anew(&place),
            (Ok(false), said) => self.find(&place, said),
            (_, said) => {
                self.stop(said, STOPPED);
                Ok(())
            }
        }
    }

    // Whether they are there, and memory was refused where they were computed.
    fn are_known(&self) -> bool {
        let keys = self.keys.lock(self.rt);
        matches!(&*keys, Keys::There(_))
    }

    // What was said of them before this stay.
    fn said_before(&self) -> Result<Option<Vec<u8>>, WordFault> {
        let _keys = self.keys.lock(self.rt);
        let words = self.words()?;
        match words.endorsed() {
            Some(said) => Ok(Some(copy_of(self.alloc, said)?)),
            None => Ok(None),
        }
    }

    // It is not known what was said.
    fn stop_unread(&self, fault: WordFault) {
        if let WordFault::Unsure = fault {
            let _ = self.notes.put_down_failure();
        }
        self.set(Keys::Unread);
        self.notes.tell(STOPPED);
    }

    fn growth(&self) -> Growth<'_, T> {
        Growth {
            clock: self.rt,
            pause: Duration::from_millis(PAUSE_MILLISECONDS),
            ending: &self.start.ending,
        }
    }

    // How many keys the replica has; 0 where there is no such one.
    fn count(&self) -> u8
        ensures { result ≤ MOST_KEYS }
    {
        if self.replica < self.committee.n() {
            self.committee.keys(self.replica)
        } else {
            0
        }
    }

    // Draws and computes them, and makes their files. Others may have done so meanwhile: then theirs are the ones.
    fn make_anew(&self, place: &str) -> Result<(), AllocError> {
        let host = KeyHost {
            files: self.rt,
            rt: self.rt,
            alloc: self.alloc,
        };
        let behind = Behind {
            chain: self.committee.chain(),
            replica: self.replica,
            count: self.count(),
        };
        let seeds = SystemSeeds::new(self.rt);
        match make_gently(&host, &self.growth(), &seeds, self.folder.path, &behind) {
            Ok(Some(trees)) => self.take_in(trees),
            Ok(None) => Ok(()),
            Err(SetFault::Memory) => Err(AllocError),
            Err(SetFault::Folder) => match is_nothing_at(self.rt, place) {
                Ok(false) => self.find(place, None),
                _ => {
                    self.stop(None, NOT_MADE);
                    Ok(())
                }
            },
        }
    }

    fn take_in(&self, trees: Vec<SigningTree>) -> Result<(), AllocError> {
        let mut keys = Vec::new(self.alloc);
        for tree in &trees {
            keys.push(tree.public_key())?;
        }
        match self.statement_of(&keys)? {
            Some(statement) => self.set(Keys::There(Made {
                statement,
                said: None,
                trees: Some(trees),
            })),
            None => self.stop(None, NOT_MADE),
        }
        Ok(())
    }

    // The statement of these keys, if they can be stated.
    fn statement_of(&self, keys: &[PublicKey]) -> Result<Option<Vec<u8>>, AllocError> {
        if keys.is_empty() || keys.len() > MOST_KEYS as usize {
            return Ok(None);
        }
        let chain = self.committee.chain();
        if !are_bound(&chain, self.replica, keys) {
            return Ok(None);
        }
        let statement = write_next_keys(self.alloc, &chain, self.replica, keys)?;
        Ok(Some(statement))
    }

    // Those that are there already, which have to be the ones that were signed for, if some were; then they are computed.
    fn find(&self, place: &str, said: Option<Vec<u8>>) -> Result<(), AllocError> {
        let count = self.count();
        let stated = match public_keys_at(self.rt, self.alloc, place, count)? {
            Some(keys) => self.statement_of(&keys)?,
            None => None,
        };
        let Some(statement) = stated else {
            self.stop(said, STOPPED);
            return Ok(());
        };
        if !states(&said, &statement) {
            self.stop(said, STOPPED);
            return Ok(());
        }
        self.set(Keys::There(Made {
            statement,
            said,
            trees: None,
        }));
        self.compute(place, count)
    }

    // Computes the keys of a folder; where their seeds can't be read, who goes over finds that out.
    fn compute(&self, place: &str, count: u8) -> Result<(), AllocError>
        requires { count ≤ MOST_KEYS }
    {
        let Some(seeds) = seeds_at(self.rt, self.alloc, place, count)? else {
            return Ok(());
        };
        if let Some(trees) = grow_all(&self.growth(), self.alloc, &seeds)? {
            let mut keys = self.keys.lock(self.rt);
            keys.set_trees(trees);
        }
        Ok(())
    }
}

// Whether each of these keys has the id that is bound to its place.
fn are_bound(chain: &Id, replica: u16, keys: &[PublicKey]) -> bool {
    let mut k = 0;
    for key in keys {
        if key.key_id != bound_id(chain, replica, k) {
            return false;
        }
        k = k.saturating_add(1);
    }
    true
}

// Whether an endorsement, if there is one, is of this statement.
fn states(said: &Option<Vec<u8>>, statement: &[u8]) -> bool {
    match said {
        Some(said) => said.starts_with(statement),
        None => true,
    }
}

/// The same bytes once more.
pub(crate) fn copy_of(alloc: Global, bytes: &[u8]) -> Result<Vec<u8>, AllocError>
    ensures { IfOk result (λ copy. copy.items ≡ bytes.now) }
{
    bytes.to_vec(alloc)
}
