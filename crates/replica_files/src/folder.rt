//! A folder in which new files are made.

ghost use Rattle.std.specs.Prelude.{◌≡◌, ◌↔◌, ◌∷◌, [], ℕ, List, Option, IfOk, IfSome, IsTrue, OnOk, OnErr};
ghost use Rattle.base_streams.specs.Counting.{Counts};
ghost use Rattle.stable_log.specs.Image.{empty_journal};
ghost use Rattle.replica_files.specs.KeyFiles.{FolderFile, IsThere, Made};

/// Who may read a new file.
#[derive(Clone, Copy, Debug)]
pub enum Readers {
    Owner,
    All,
}

/// What a new journal is for.
#[derive(Clone, Copy, Debug)]
pub enum Store {
    /// The indices of the keys that were taken.
    Indices,
    /// What the replica signed.
    Log,
}

/// Why a folder made no file, or can't tell whether one is there. The folder has counted it.
#[derive(Clone, Copy, Debug, PartialEq, Eq)]
pub enum FolderFault {
    /// Memory was refused.
    Memory,
    /// The system failed, or a file that was to be made is there already.
    Failed,
}

/// Makes new files. A contract names the files that a folder got, in order, where the folder tells them, and how many
/// of its calls failed.
pub trait MakeFolder: Drop {
    ghost files: { Self → Option (List FolderFile) };

    ghost failed: { Self → ℕ };

    /// Whether a file of this name is there, as this call finds it: another process may make or remove it meanwhile.
    fn has(&mut self, name: &str) -> Result<bool, FolderFault>
        ensures told { IfOk result (λ there. IfSome (files self.old) (λ held. IsTrue there
            ↔ IsThere name.now held)) }
        ensures same { files self.new ≡ files self.old }
        ensures counted { Counts (failed self.old) (failed self.new) result };

    /// Makes a new file. Where there is a file of this name already that is a failure, and what was there
    /// stays. Where the disk fails, a system may leave the new file empty or in part.
    fn create(&mut self, name: &str, bytes: &[u8], readers: Readers) -> Result<(), FolderFault>
        ensures ok { OnOk result (Made (files self.old) (files self.new) (record {
          name = name.now;
          bytes = bytes.now;
          readers = readers;
        } ∷ [])) }
        ensures new { OnOk result (IfSome (files self.old) (λ held. IsThere name.now held → ⊥)) }
        ensures err { OnErr result (files self.new ≡ files self.old) }
        ensures counted { Counts (failed self.old) (failed self.new) result };

    /// Makes a new file that is an empty journal, or an empty store of key indices, which is one.
    fn create_store(&mut self, name: &str, store: Store) -> Result<(), FolderFault>
        ensures ok { OnOk result (Made (files self.old) (files self.new) (record {
          name = name.now;
          bytes = empty_journal;
          readers = Readers.All;
        } ∷ [])) }
        ensures new { OnOk result (IfSome (files self.old) (λ held. IsThere name.now held → ⊥)) }
        ensures err { OnErr result (files self.new ≡ files self.old) }
        ensures counted { Counts (failed self.old) (failed self.new) result };

    /// How many calls failed; a u64 that stands still at its last value.
    fn failures(&self) -> u64
        ensures { result ≡ failed self.now };
}
