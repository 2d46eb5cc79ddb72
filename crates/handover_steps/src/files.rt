//! The files of a step.

ghost use Rattle.std.specs.Prelude.{◌≡◌, option_map};
ghost use Rattle.handover_steps.specs.Steps.{bytes_in};

use std::marker::Model;

/// The file of the committee that follows, its renewal, if there is one, and the light proof of the handover to it. Nothing of them is
/// checked before `judge_lineage` or `check_step`.
#[derive(Drop)]
pub struct StepFiles {
    file: Vec<u8>,
    renewal: Option<Vec<u8>>,
    proof: Vec<u8>,
}

impl Model for StepFiles {
    ghost use Rattle.std.specs.Prelude.{option_map};
    ghost use Rattle.handover_steps.specs.Steps.{StepFiles as FilesValue};

    ghost Value = { FilesValue };

    ghost view = { λ s. record {
      file = s.file.items;
      renewal = option_map (λ r. r.items) s.renewal;
      proof = s.proof.items;
    } };
}

impl StepFiles {
    /// These files.
    pub fn of(file: Vec<u8>, renewal: Option<Vec<u8>>, proof: Vec<u8>) -> StepFiles
        ensures { result ≡ record {
          file = file.items;
          renewal = option_map (λ r. r.items) renewal;
          proof = proof.items;
        } }
    {
        StepFiles {
            file,
            renewal,
            proof,
        }
    }

    /// The bytes of the committee's file.
    pub fn file(&self) -> &[u8]
        ensures { result.now ≡ self.now.file }
    {
        &self.file
    }

    /// The bytes of the renewal, if there is one.
    pub fn renewal(&self) -> Option<&[u8]>
        ensures { bytes_in result ≡ self.now.renewal }
    {
        match &self.renewal {
            Some(renewal) => Some(renewal.as_slice()),
            None => None,
        }
    }

    /// The bytes of the light proof.
    pub fn proof(&self) -> &[u8]
        ensures { result.now ≡ self.now.proof }
    {
        &self.proof
    }
}
