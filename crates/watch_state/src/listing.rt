//! What stands in a folder.

use std::alloc::Global;
use std::fs::Files;
use std::io::ErrorKind;
use std::{fs, io};

/// The names of all that stands in a folder, in no order. A name that is no text is left out: it is none of a watch's.
pub(crate) fn names_in<F: Files + AllocGlobal + Clone + Drop>(
    files: &F,
    alloc: Global,
    folder: &str,
) -> io::Result<Vec<String>> {
    let mut names = Vec::new(alloc);
    for entry in fs::read_dir(files, folder)? {
        match entry {
            Ok(entry) => names.push(entry.file_name().to_string(alloc)?)?,
            Err(error) if error.kind() == ErrorKind::InvalidFilename => {}
            Err(error) => return Err(error),
        }
    }
    Ok(names)
}
