//! The file of the committee that may come next, which is read anew each time that it is asked for.

ghost use Rattle.std.specs.Prelude.{◌≡◌, ◌≢◌, IfErr, IfOk, IfSome, None};
ghost use Rattle.signer_command.specs.Approved.{IsApprovable};
ghost use Rattle.handover_steps.specs.Successors.{IsSuccessorPayload, files_of};

use crate::fitness::{Means, Unfit};
use crate::notes::Notes;
use crate::stay::Room;
use base_streams::Sink;
use blocks::CommitteeView;
use handover_folder::LineageFolder;
use handover_steps::{SuccessorRefusal, successor_payload};
use program_parts::{MOST_OF_A_SHORT_FILE, read_at_most};
use std::alloc::Global;
use std::fs::{File, Files};
use std::io::ErrorKind;
use std::sync::{Mutex, Wait};

/// What `--successor` names, if it does.
#[derive(Drop)]
pub(crate) struct Successor<'a, T: Wait, S: Sink> {
    pub rt: &'a T,
    pub alloc: Global,
    pub committee: &'a CommitteeView<'a>,
    pub path: Option<&'a str>,
    /// The files of the committees before this one, whose keys may not come again.
    pub earlier: &'a [Vec<u8>],
    /// What the signer goes over with, if it does.
    pub means: Option<Means<'a, T>>,
    pub notes: &'a Notes<'a, T, S>,
    /// Why the file was as if it were not there, as it was told last.
    told: Mutex<Option<Unapproved>>,
}

/// Why a file is as if it were not there.
#[derive(Clone, Copy, Debug, PartialEq, Eq)]
enum Unapproved {
    /// By its bytes.
    Refused(SuccessorRefusal),
    /// By the signer's own keys, or those that it asks.
    Unfit(Unfit),
}

impl<'a, T: Wait + Files<File = File>, S: Sink> Successor<'a, T, S> {
    /// What the words of a signer name.
    pub fn new(room: &Room<'a, T, S>) -> Successor<'a, T, S>
        ensures path { result.path ≡ room.now.words.now.successor }
        ensures committee { result.committee.now ≡ room.now.committee.now }
        ensures earlier { result.earlier.now ≡ room.now.standing.now.earlier.items }
    {
        Successor {
            rt: room.rt,
            alloc: room.alloc,
            committee: room.committee,
            path: room.words.successor,
            earlier: &room.standing.earlier,
            means: means_of(room),
            notes: room.notes,
            told: Mutex::new(None),
        }
    }

    // The payload that names the file at this path; none where there is no file.
    fn payload_at(&self, path: &str) -> Result<Option<[u8; 32]>, Unapproved>
        ensures { IfOk result (λ payload.
            IfSome payload (IsSuccessorPayload (files_of self.now.earlier.now) self.now.committee.now)) }
    {
        let file = match File::open(self.rt, path) {
            Ok(file) => file,
            Err(error) if error.kind() == ErrorKind::NotFound => return Ok(None),
            Err(_) => return Err(Unapproved::Refused(SuccessorRefusal::NotRead)),
        };
        let Ok(bytes) = read_at_most(self.alloc, file, MOST_OF_A_SHORT_FILE) else {
            return Err(Unapproved::Refused(SuccessorRefusal::NotRead));
        };
        match successor_payload(self.earlier, self.committee, &bytes) {
            Ok(payload) => match self.unfit(&bytes) {
                Some(unfit) => Err(Unapproved::Unfit(unfit)),
                None => Ok(Some(payload)),
            },
            Err(refusal) => Err(Unapproved::Refused(refusal)),
        }
    }

    // Why a signer that goes over could not go over to the committee of this file: behind its handover nothing else is left to it.
    fn unfit(&self, file: &[u8]) -> Option<Unfit> {
        match (&self.means, CommitteeView::parse(file)) {
            (Some(means), Ok(after)) => means.unfit(self.committee, &after),
            _ => None,
        }
    }

    /// Tells why the signer could not go over to a committee, unless that was told last.
    pub fn tell_unfit(&self, unfit: Unfit) {
        self.tell(Unapproved::Unfit(unfit));
    }

    // Tells why the file is as if it were not there, unless that was told last.
    fn tell(&self, why: Unapproved) {
        let mut told = self.told.lock(self.rt);
        if *told == Some(why) {
            return;
        }
        *told = Some(why);
        match why {
            Unapproved::Refused(refusal) => self.notes.tell(refusal.line().as_bytes()),
            Unapproved::Unfit(unfit) => self.notes.tell(unfit.line()),
        }
    }

    /// The payload of the block that hands over to the committee of the file as it is now; none where there is none.
    pub fn approved(&self) -> Option<[u8; 32]>
        ensures { IsApprovable (files_of self.now.earlier.now) self.now.committee.now self.now.path result }
    {
        let Some(path) = self.path else {
            return None;
        };
        match self.payload_at(path) {
            Ok(payload) => payload,
            Err(refusal) => {
                self.tell(refusal);
                None
            }
        }
    }
}

// What the signer goes over with, where its words say that it does.
fn means_of<'a, T: Wait + Files<File = File>, S: Sink>(
    room: &Room<'a, T, S>,
) -> Option<Means<'a, T>> {
    if !room.words.renew {
        return None;
    }
    let folder = LineageFolder {
        files: room.rt,
        alloc: room.alloc,
        path: room.words.folder,
    };
    Some(Means {
        folder,
        replica: room.words.replica,
        sources: &room.words.sources,
    })
}
