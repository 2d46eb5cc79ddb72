//! The names of what lies in the folder.

ghost use Rattle.std.specs.Prelude.{◌≡◌, IfOk, string_bytes};
ghost use Rattle.handover_folder.specs.Names.{chain_folder, folder_of, key_folder};

use blocks::Id;
use std::alloc::{AllocError, Global};

/// The log of a chain, in the folder of the chain; before there were such folders, of the one chain, in DIR itself.
pub const LOG: &str = "log.hsj";

/// What the signer said of a chain for good, in the folder of the chain.
pub const WORDS: &str = "words.hsj";

/// The file of the committee that it goes over to, in the folder of the chain that it leaves.
pub const NEXT_FILE: &str = "next.hsc";

/// The renewal by which it follows, where there is one, beside it.
pub const NEXT_RENEWAL: &str = "next.hsr";

/// The light proof that the handover to it is committed, where the log had all of it, beside it.
pub const NEXT_PROOF: &str = "next.hsh";

/// What says in the folder of a chain that it was left by a light proof, and that nobody compared the lineage since.
pub(crate) const NOT_COMPARED: &str = "not-compared";

/// What says in DIR which chain it began with: the 64 hex digits of its id, and a line feed.
pub(crate) const LINEAGE: &str = "lineage";

/// The folder of a chain: `DIR/chain-` and the 64 hex digits of its id.
pub(crate) fn chain_folder(alloc: Global, folder: &str, chain: &Id) -> Result<String, AllocError>
    ensures { IfOk result (λ path. string_bytes path ≡ chain_folder folder.now chain.now) }
{
    folder_of(alloc, folder, "chain-", chain)
}

/// The folder of the key set that was made behind a chain: `DIR/next-` and the 64 hex digits of its id.
pub(crate) fn key_folder(alloc: Global, folder: &str, chain: &Id) -> Result<String, AllocError>
    ensures { IfOk result (λ path. string_bytes path ≡ key_folder folder.now chain.now) }
{
    folder_of(alloc, folder, "next-", chain)
}

// A folder in DIR whose name is this word and the digits of a chain's id.
fn folder_of(alloc: Global, folder: &str, word: &str, chain: &Id) -> Result<String, AllocError>
    ensures { IfOk result (λ path. string_bytes path ≡ folder_of folder.now word.now chain.now) }
{
    let digits = hex::encode(alloc, &chain[..])?;
    format!(in alloc; "{folder}/{word}{digits}")
}
