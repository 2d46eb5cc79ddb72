//! A Unix socket at a path that callers know.

ghost use Rattle.std.specs.Prelude.{◌≡◌, IfOk, false};
ghost use Rattle.signer_command.specs.Ruled.{is_heard_over_tcp};

use crate::listening::Listener;
use mio::net::UnixStream;
use std::alloc::{AllocError, Global};
use std::fs::{DirBuilder, File, Files, OpenOptions, Permissions};
use std::io::ErrorKind;
use std::net::Net;
use std::os::unix::fs::{DirBuilderExt, FileTypeExt, OpenOptionsExt, PermissionsExt};
use std::os::unix::net::UnixListener;
use std::{fs, io};

/// The longest path that a Unix socket can be bound or found at, in bytes.
const LONGEST_PATH: usize = 107;

/// How many bytes longer the path is that a socket is made under.
const LONGER: usize = 6;

/// The mode of a file that its owner alone may read and write.
const OWNER_ALONE: u32 = 0o600;

/// Who may connect: the signer's own user, or his group too.
#[derive(Clone, Copy, Debug)]
pub(crate) enum Callers {
    Owner,
    Group,
}

impl Callers {
    fn mode(self) -> u32 {
        match self {
            Callers::Owner => 0o600,
            Callers::Group => 0o660,
        }
    }
}

/// Why nothing listens at a path.
#[derive(Clone, Copy, Debug)]
pub(crate) enum SocketFault {
    /// The path, or the one that the socket is made under, is longer than a socket's may be.
    TooLong,
    /// Something else stands there, or somebody answers there, or the system would not have it.
    Taken,
    /// Memory was refused.
    Memory,
}

impl From<AllocError> for SocketFault {
    ghost from_gives = { λ _ _. Unit {0} };

    fn from(_refused: AllocError) -> SocketFault {
        SocketFault::Memory
    }
}

// Where a socket is made, before it has its name and its mode: in a folder that nobody else enters. And the file of which a signer
// that listens at the path holds the lock.
#[derive(Drop)]
struct Workshop {
    folder: String,
    socket: String,
    lock: String,
}

impl Workshop {
    fn beside(alloc: Global, path: &str) -> Result<Workshop, AllocError> {
        Ok(Workshop {
            folder: format!(in alloc; "{path}.new")?,
            socket: format!(in alloc; "{path}.new/s")?,
            lock: format!(in alloc; "{path}.lock")?,
        })
    }
}

/// Listens at a socket that has its mode before it has its name: what stands at the path is replaced only if it is a socket
/// that nobody answers at. A folder that a kill left beside it is used again. Of two signers that start at once on one path one
/// gets the lock of `PATH.lock`, which it holds for as long as it listens.
pub(crate) fn listen_at<F: Files<File = File> + Net>(
    files: &F,
    alloc: Global,
    path: &str,
    callers: Callers,
) -> Result<Listener, SocketFault>
    ensures { IfOk result (λ listener. is_heard_over_tcp listener ≡ false) }
{
    let shop = Workshop::beside(alloc, path)?;
    if is_too_long(path) {
        return Err(SocketFault::TooLong);
    }
    let Ok(lock) = locked(files, &shop.lock) else {
        return Err(SocketFault::Taken);
    };
    if !is_free(files, path) {
        return Err(SocketFault::Taken);
    }
    match bind(files, &shop, path, callers) {
        Ok(listener) => Ok(Listener::Unix(listener, lock)),
        Err(error) if error.kind() == ErrorKind::OutOfMemory => Err(SocketFault::Memory),
        Err(_) => Err(SocketFault::Taken),
    }
}

/// Whether a socket can't be made at a path for its length.
pub(crate) fn is_too_long(path: &str) -> bool {
    path.len() > LONGEST_PATH - LONGER
}

// The lock of a file, which is made where it is not there. A link in its place is left as it is.
fn locked<F: Files<File = File>>(files: &F, path: &str) -> io::Result<File> {
    if let Ok(found) = fs::symlink_metadata(files, path)
        && !found.is_file()
    {
        return Err(io::Error::from(ErrorKind::AlreadyExists));
    }
    let mut how = OpenOptions::new();
    how.read(true).write(true).create(true).mode(OWNER_ALONE);
    let file = how.open(files, path)?;
    match file.try_lock() {
        Ok(()) => Ok(file),
        Err(_) => Err(io::Error::from(ErrorKind::AddrInUse)),
    }
}

// Whether nothing stands at the path, or a socket that nobody answers at. The connect does not wait: somebody is there also where
// his queue is full.
fn is_free<F: Files<File = File> + Net>(files: &F, path: &str) -> bool {
    match fs::symlink_metadata(files, path) {
        Ok(found) => {
            found.file_type().is_socket()
                && matches!(UnixStream::connect(files, path),
                Err(error) if error.kind() == ErrorKind::ConnectionRefused)
        }
        Err(error) => error.kind() == ErrorKind::NotFound,
    }
}

fn bind<F: Files<File = File> + Net>(
    files: &F,
    shop: &Workshop,
    path: &str,
    callers: Callers,
) -> io::Result<UnixListener> {
    make_folder(files, shop)?;
    let listener = UnixListener::bind(files, &shop.socket)?;
    fs::set_permissions(files, &shop.socket, Permissions::from_mode(callers.mode()))?;
    fs::rename(files, &shop.socket, path)?;
    if fs::remove_dir(files, &shop.folder).is_err() {
        // The next start removes it, or says that it can't.
    }
    Ok(listener)
}

// A folder that only its owner enters. One that a kill left may be another's by now, so it is made anew.
fn make_folder<F: Files<File = File>>(files: &F, shop: &Workshop) -> io::Result<()> {
    let mut builder = DirBuilder::new();
    builder.mode(0o700);
    match builder.create(files, &shop.folder) {
        Err(error) if error.kind() == ErrorKind::AlreadyExists => {
            remove_folder(files, shop)?;
            builder.create(files, &shop.folder)
        }
        outcome => outcome,
    }
}

// Removes the folder that a kill left, with its socket. A link is no such folder, and what it leads to stays as it is.
fn remove_folder<F: Files<File = File>>(files: &F, shop: &Workshop) -> io::Result<()> {
    if !fs::symlink_metadata(files, &shop.folder)?.is_dir() {
        return Err(io::Error::from(ErrorKind::AlreadyExists));
    }
    match fs::remove_file(files, &shop.socket) {
        Err(error) if error.kind() != ErrorKind::NotFound => Err(error),
        _ => fs::remove_dir(files, &shop.folder),
    }
}
