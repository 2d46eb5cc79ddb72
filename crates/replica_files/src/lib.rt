//! The files of a replica's keys: a secret key, its public key and empty journals, made in a folder, the trees computed by all
//! processors; a key set for the next committee; and the files that keep a signer from starting on a log that was put back or a
//! disk that failed. Needs threads; the folder is handed in.
#![tactic(auto)]

mod behind;
mod drawing;
mod fault;
mod files;
mod folder;
mod generating;
mod growing;
mod keygen;
mod making;
mod memory_folder;
mod next;
mod seeds;
mod system_folder;
mod text;

pub use behind::Behind;
pub use drawing::draw_set;
pub use fault::KeyFault;
pub use files::KeyFile;
pub use folder::{FolderFault, MakeFolder, Readers, Store};
pub use generating::generate_parallel;
pub use growing::{Growth, grow_all, grow_gently};
pub use keygen::make_key;
pub use making::{Journals, make_key_set};
pub use memory_folder::MemoryFolder;
pub use next::{KeyHost, SetFault, make_gently, make_next_keys};
pub use seeds::{DrawSeed, KnownSeed, SystemSeeds};
pub use system_folder::SystemFolder;
pub use text::{DISK_FAILED, PUT_BACK, put_back_text};
