//! The files of a replica's keys.

ghost use Rattle.std.specs.Prelude.{◌≡◌, ◌≤◌, length};
ghost use Rattle.replica_files.specs.KeyFiles.{file_name};

use base_wire::KeyNumber;

/// A file of a replica's keys. Those that are made with one key are made in this order.
#[derive(Clone, Copy, Debug, PartialEq, Eq)]
pub enum KeyFile {
    /// The secret key of this number.
    Seed(KeyNumber),
    /// Its public key.
    PublicKey(KeyNumber),
    /// The indices of the keys that were taken, made with key 0.
    Indices,
    /// What the replica signed, made with key 0.
    Log,
}

impl KeyFile {
    /// Its name in the folder.
    pub fn name(self) -> &'static str
        ensures name { result.now ≡ file_name self }
        ensures short { length result.now ≤ 10 }
    {
        match self {
            KeyFile::Seed(KeyNumber::Zero) => "key.seed",
            KeyFile::Seed(KeyNumber::One) => "key-1.seed",
            KeyFile::Seed(KeyNumber::Two) => "key-2.seed",
            KeyFile::Seed(KeyNumber::Three) => "key-3.seed",
            KeyFile::PublicKey(KeyNumber::Zero) => "key.pub",
            KeyFile::PublicKey(KeyNumber::One) => "key-1.pub",
            KeyFile::PublicKey(KeyNumber::Two) => "key-2.pub",
            KeyFile::PublicKey(KeyNumber::Three) => "key-3.pub",
            KeyFile::Indices => "index.hsj",
            KeyFile::Log => "log.hsj",
        }
    }
}
