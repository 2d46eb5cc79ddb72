//! The proof of a handover, in files.

ghost use Rattle.std.specs.Prelude.{◌≡◌, ◌≢◌, Some, IfErr, IfOk, OnErr, OnOk};
ghost use Rattle.handover_light.specs.LightProofs.{IsLightProof, light_proof_text};
ghost use Rattle.handover_proof.specs.LightMaking.{IsLightProofOf};
ghost use Rattle.program_follow.specs.Faults.{IsOutFault, IsProofFault};
ghost use Rattle.program_follow.specs.ProofFiles.{IsLightFile, Put, PutLightOf, PutNothing, PutPart, PutPartOfProof, PutPartOfProofOf, PutProof, PutProofOf};
ghost use Rattle.program_follow.specs.Words.{outs_in, path_in};

use crate::fault::Fault;
use crate::following::Following;
use crate::place::{NewFiles, ProofPlace};
use audit_evidence::{Evidence, EvidenceRefusal};
use blocks::NamedHeader;
use handover_proof::{LightMakingRefusal, ProofFile, make_light_proof, prove_handover};
use program_parts::{ProgramFault, is_nothing_at};
use std::alloc::Global;
use std::fs::{File, Files};
use std::io;

/// Whether nothing has the path of a proof, if there is to be one.
pub(crate) fn see_new<'a, F: Files<File = File>>(
    files: &F,
    out: Option<&'a str>,
) -> Result<(), Fault<'a>>
    ensures { IfErr result (IsOutFault (path_in out.entry)) }
{
    let Some(path) = out else {
        return Ok(());
    };
    match is_nothing_at(files, path) {
        Ok(true) => Ok(()),
        Ok(false) => Err(ProgramFault::File(path)),
        Err(error) => Err(ProgramFault::unless_memory(&error, ProgramFault::File(path))),
    }
}

/// Writes the proof of the handover, if one is asked for and evidence proves one, as new files at the path.
pub(crate) fn write_proof<'a, F: Files<File = File>>(
    files: &F,
    alloc: Global,
    evidence: &Evidence,
    following: &Following,
    proof: Option<&'a str>,
) -> Result<(), Fault<'a>>
    ensures { IfErr result (IsOutFault (path_in proof.entry)) }
{
    match proof {
        Some(path) => {
            let mut place = NewFiles::at(files, alloc, path);
            put_proof(&mut place, alloc, evidence, following, path)
        }
        None => Ok(()),
    }
}

/// Puts the proof of the handover, if evidence proves one. After a fault those of its files that were put stay.
pub(crate) fn put_proof<'a, P: ProofPlace>(
    place: &mut P,
    alloc: Global,
    evidence: &Evidence,
    following: &Following,
    path: &'a str,
) -> Result<(), Fault<'a>>
    ensures ok { OnOk result (PutProofOf evidence.now following.now
        (P.files place.old) (P.files place.new)) }
    ensures part { OnErr result (PutPartOfProofOf evidence.now following.now
        (P.files place.old) (P.files place.new)) }
    ensures fault { IfErr result (IsOutFault (Some path.now)) }
{
    match following {
        Following::New(block) | Following::Another(block) => {
            put_proof_by(place, alloc, evidence, block, path)
        }
        Following::Conflict | Following::Nobody => Ok(()),
    }
}

// Puts the proof of the handover by this block.
fn put_proof_by<'a, P: ProofPlace>(
    place: &mut P,
    alloc: Global,
    evidence: &Evidence,
    block: &NamedHeader,
    path: &'a str,
) -> Result<(), Fault<'a>>
    ensures ok { OnOk result (PutProof evidence.now.committee block.now
        (P.files place.old) (P.files place.new)) }
    ensures part { OnErr result (PutPartOfProof evidence.now.committee block.now
        (P.files place.old) (P.files place.new)) }
    ensures fault { IfErr result (IsOutFault (Some path.now)) }
{
    match prove_handover(alloc, evidence, block) {
        Ok(Some(files)) => match put_all(place, &files) {
            Ok(()) => Ok(()),
            Err(error) => Err(ProgramFault::unless_memory(&error, ProgramFault::File(path))),
        },
        // A proof that shows no handover is none. That it comes has not been seen.
        Ok(None) | Err(EvidenceRefusal::Collision(_, _)) => Err(ProgramFault::File(path)),
        Err(EvidenceRefusal::Memory) => Err(ProgramFault::Memory),
    }
}

// Puts these files in order. After an error a first part of them was put.
fn put_all<P: ProofPlace>(place: &mut P, files: &[ProofFile]) -> io::Result<()>
    ensures ok { OnOk result (Put (P.files place.old) (P.files place.new) files.now) }
    ensures err { OnErr result (PutPart (P.files place.old) (P.files place.new) files.now) }
{
    for k in 0..files.len() {
        place.put(files[k].as_bytes())?;
    }
    Ok(())
}

// ---- the light proof

// The bytes of the light proof of the handover that evidence proves.
fn light_file<'a>(alloc: Global, evidence: &Evidence, path: &'a str) -> Result<Vec<u8>, Fault<'a>>
    ensures found { IfOk result (λ bytes. IsLightFile evidence.now bytes.items) }
    ensures fault { IfErr result (IsOutFault (Some path.now)) }
{
    match make_light_proof(alloc, evidence) {
        Ok(Some(proof)) => Ok(proof.write(alloc)?),
        Err(LightMakingRefusal::Memory) => Err(ProgramFault::Memory),
        // More headers than a light proof has room for.
        Ok(None) | Err(LightMakingRefusal::TooLong) => Err(ProgramFault::File(path)),
    }
}

/// Puts the light proof of the handover, if evidence proves one. After a fault it was not put.
pub(crate) fn put_light<'a, P: ProofPlace>(
    place: &mut P,
    alloc: Global,
    evidence: &Evidence,
    following: &Following,
    path: &'a str,
) -> Result<(), Fault<'a>>
    ensures ok { OnOk result (PutLightOf evidence.now following.now
        (P.files place.old) (P.files place.new)) }
    ensures err { OnErr result (PutNothing (P.files place.old) (P.files place.new)) }
    ensures fault { IfErr result (IsOutFault (Some path.now)) }
{
    match following {
        Following::New(_) | Following::Another(_) => {
            let bytes = light_file(alloc, evidence, path)?;
            match place.put(&bytes) {
                Ok(()) => Ok(()),
                Err(error) => Err(ProgramFault::unless_memory(&error, ProgramFault::File(path))),
            }
        }
        Following::Conflict | Following::Nobody => Ok(()),
    }
}

/// Writes the light proof of the handover, if one is asked for and evidence proves one, as a new file at the path.
pub(crate) fn write_light<'a, F: Files<File = File>>(
    files: &F,
    alloc: Global,
    evidence: &Evidence,
    following: &Following,
    light: Option<&'a str>,
) -> Result<(), Fault<'a>>
    ensures { IfErr result (IsOutFault (path_in light.entry)) }
{
    match light {
        Some(path) => {
            let mut place = NewFiles::at(files, alloc, path);
            put_light(&mut place, alloc, evidence, following, path)
        }
        None => Ok(()),
    }
}

// ---- both

/// Whether nothing has the paths of the proofs.
pub(crate) fn see_all_new<'a, F: Files<File = File>>(
    files: &F,
    proof: Option<&'a str>,
    light: Option<&'a str>,
) -> Result<(), Fault<'a>>
    ensures { IfErr result (IsProofFault (outs_in proof.entry light.entry)) }
{
    see_new(files, proof)?;
    see_new(files, light)
}

/// Writes the proofs that are asked for.
pub(crate) fn write_proofs<'a, F: Files<File = File>>(
    files: &F,
    alloc: Global,
    evidence: &Evidence,
    following: &Following,
    proof: Option<&'a str>,
    light: Option<&'a str>,
) -> Result<(), Fault<'a>>
    ensures { IfErr result (IsProofFault (outs_in proof.entry light.entry)) }
{
    write_proof(files, alloc, evidence, following, proof)?;
    write_light(files, alloc, evidence, following, light)
}
