//! The folders of replicas.

use std::fs::{File, Files};
use std::{fs, io};

/// Makes the folder of this replica, which has not voted yet: the seed of its key and empty journals.
pub(crate) fn make_folder<R: Files<File = File> + AllocGlobal>(
    rt: &R,
    number: u16,
) -> io::Result<()> {
    let alloc = rt.alloc();
    let folder = format!(in alloc; "replica_{number}")?;
    fs::create_dir(rt, &folder)?;
    let seed = fs::read(rt, &format!(in alloc; "seed_{number}")?)?;
    let empty = fs::read(rt, "empty.hsj")?;
    fs::write(rt, &format!(in alloc; "{folder}/key.seed")?, &seed)?;
    fs::write(rt, &format!(in alloc; "{folder}/index.hsj")?, &empty)?;
    fs::write(rt, &format!(in alloc; "{folder}/log.hsj")?, &empty)
}

/// Makes a second folder of this replica, with no log yet: the key, and the indices that its run took.
pub(crate) fn make_migrated_folder<R: Files<File = File> + AllocGlobal>(
    rt: &R,
    number: u16,
) -> io::Result<()> {
    let alloc = rt.alloc();
    let folder = format!(in alloc; "migrated_{number}")?;
    fs::create_dir(rt, &folder)?;
    let seed = fs::read(rt, &format!(in alloc; "seed_{number}")?)?;
    let taken = fs::read(rt, &format!(in alloc; "replica_{number}/index.hsj")?)?;
    fs::write(rt, &format!(in alloc; "{folder}/key.seed")?, &seed)?;
    fs::write(rt, &format!(in alloc; "{folder}/index.hsj")?, &taken)
}
