//! Why a call of a connector failed.

use std::io::{Error, ErrorKind};

/// Why the last call of a connector that failed did so, as far as the system says it. For people: nothing depends on it.
#[derive(Clone, Copy, Debug, PartialEq, Eq)]
pub enum Failure {
    /// No file has the path.
    NoSuchFile,
    /// The path is a folder's.
    Folder,
    /// It can't be opened or read, for another reason.
    Unreadable,
    /// The address names no host.
    NoSuchHost,
    /// The host refused the connection.
    Refused,
    /// The host broke the connection off.
    Reset,
    /// Nothing came for so many seconds.
    TimedOut(u64),
}

impl Failure {
    /// Of a file.
    pub(crate) fn of_file(error: &Error) -> Failure {
        match error.kind() {
            ErrorKind::NotFound => Failure::NoSuchFile,
            ErrorKind::IsADirectory => Failure::Folder,
            _ => Failure::Unreadable,
        }
    }

    /// Of a server, which is waited for so long in this call, and for so long altogether. A system that gives up a wait for
    /// bytes answers that it would block.
    pub(crate) fn of_server(error: &Error, call: u64, whole: u64) -> Failure {
        match error.kind() {
            ErrorKind::NotFound => Failure::NoSuchHost,
            ErrorKind::ConnectionRefused => Failure::Refused,
            ErrorKind::ConnectionReset | ErrorKind::ConnectionAborted | ErrorKind::BrokenPipe =>
                Failure::Reset,
            ErrorKind::WouldBlock => Failure::TimedOut(call),
            ErrorKind::TimedOut => Failure::TimedOut(whole),
            _ => Failure::Unreadable,
        }
    }
}
