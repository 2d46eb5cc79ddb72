//! The folders that files are in.

use std::fs::{File, Files};
use std::io;
use std::io::ErrorKind;

/// The path of the folder of a file: what stands before the last slash.
pub fn folder_of(path: &str) -> &str {
    match path.rsplit_once('/') {
        Some(("", _)) => "/",
        Some((folder, _)) => folder,
        None => ".",
    }
}

/// Syncs a folder in which a file was made, named or removed, so that the file's name outlasts a loss of power. A system
/// that syncs no folders keeps names by its own rules, so a failure is passed over.
pub fn sync_folder<F: Files<File = File>>(files: &F, folder: &str) {
    if let Ok(folder) = File::open(files, folder) {
        let _ = folder.sync_all();
    }
}

/// The same of the folder of a file.
pub fn sync_folder_of<F: Files<File = File>>(files: &F, path: &str) {
    sync_folder(files, folder_of(path));
}

/// Whether nothing has this path, not even a link that leads nowhere. An error where that can't be said.
pub fn is_nothing_at<F: Files<File = File>>(files: &F, path: &str) -> io::Result<bool> {
    match files.symlink_metadata(path) {
        Ok(_) => Ok(false),
        Err(error) if error.kind() == ErrorKind::NotFound => Ok(true),
        Err(error) => Err(error),
    }
}
