//! Whether what a signer went over to by light proofs alone was compared with somebody's lineage since.

ghost use Rattle.std.specs.Prelude.{◌↔◌, ◌≤◌, IsTrue, length};
ghost use Rattle.handover_light.specs.Proving.{ProvesHandover};
ghost use Rattle.handover_folder.specs.Comparing.{AreCompared, AreUnnotedFrom, IsComparedAt};

use crate::fault::LineageFault;
use crate::folder::LineageFolder;
use crate::names::NOT_COMPARED;
use crate::standing::{Standing, chain_of};
use blocks::{CommitteeView, Id};
use handover_light::LightProof;
use program_parts::sync_folder;
use std::fs::{File, Files};
use std::{fs, io};

/// A chain that the signer left.
#[derive(Clone, Copy)]
struct LeftChain {
    id: Id,
    /// Whether it was left by a light proof, and that is noted still.
    is_noted: bool,
}

impl<F: Files<File = File>> LineageFolder<'_, F> {
    /// Stores a light proof by which alone the signer goes over from the chain of this committee, before it says so, and notes that.
    pub fn keep_proof(
        &self,
        committee: &CommitteeView,
        proof: &LightProof,
    ) -> Result<(), LineageFault>
        requires { ProvesHandover committee.now proof.now }
    {
        self.store_beside(&committee.chain(), NOT_COMPARED, b"")?;
        self.store_light_proof(committee, proof)
    }

    /// Whether the chain of this id, which somebody compared, comes after each one that was left by a light proof, as far as that is
    /// noted: it is one that the signer went through, or stands in. If none was left so it need not be there.
    pub fn is_compared(&self, at: &Standing, compared: &Option<Id>) -> io::Result<bool> {
        let mut left = Vec::new(self.alloc);
        for file in &at.earlier {
            let id = chain_of(file);
            let is_noted = self.is_noted(&id)?;
            left.push(LeftChain { id, is_noted })?;
        }
        Ok(are_compared(&left, &chain_of(&at.committee), compared))
    }

    /// Forgets that chains were left by light proofs, once what came after them was compared.
    pub fn forget_left(&self, at: &Standing) -> io::Result<()> {
        for file in &at.earlier {
            let id = chain_of(file);
            if self.is_noted(&id)? {
                let place = self.chain_folder(&id)?;
                let note = self.within(&place, NOT_COMPARED)?;
                fs::remove_file(self.files, note.as_str())?;
                sync_folder(self.files, &place);
            }
        }
        Ok(())
    }

    fn is_noted(&self, chain: &Id) -> io::Result<bool> {
        let place = self.chain_folder(chain)?;
        self.is_there(&self.within(&place, NOT_COMPARED)?)
    }
}

// Whether the compared chain comes after each that was left by a light proof: among the chains that were left, or where the signer stands.
fn are_compared(left: &[LeftChain], at: &Id, compared: &Option<Id>) -> bool
    ensures { IsTrue result → AreCompared left.now at.now compared.now }
{
    are_unnoted_from(left, compared_place(left, at, compared))
}

// The place of the compared chain: behind those that were left stands the one where the signer is. 0 where it is none of these.
fn compared_place(left: &[LeftChain], at: &Id, compared: &Option<Id>) -> usize
    ensures { IsComparedAt left.now at.now compared.now result }
{
    let Some(compared) = compared else {
        return 0;
    };
    if compared == at {
        return left.len();
    }
    for place in 0..left.len() {
        if left[place].id == *compared {
            return place;
        }
    }
    0
}

// Whether none from a place on was left by a light proof, as far as that is noted.
fn are_unnoted_from(left: &[LeftChain], place: usize) -> bool
    ensures { IsTrue result ↔ AreUnnotedFrom left.now place }
{
    for k in place..left.len() {
        if left[k].is_noted {
            return false;
        }
    }
    true
}
