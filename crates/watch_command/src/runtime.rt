//! What a watch works with.

use std::fs::{File, Files};
use std::net::{Net, TcpListener, TcpStream};
use std::random::RandomSource;
use std::sync::Wait;
use std::thread::Threads;
use std::time::Clock;

/// Files, memory, threads, locks, a clock, sockets and random numbers. `run_watch` names them one by one: a program that hands in
/// the system's own has no proof where this trait stands in their place.
pub(crate) trait Runtime: Files<File = File>
    + AllocGlobal
    + Clone
    + Drop
    + Threads
    + Wait
    + Clock
    + Net<Listener = TcpListener, Stream = TcpStream>
    + RandomSource
    + Sync {}

impl<
    T: Files<File = File>
        + AllocGlobal
        + Clone
        + Drop
        + Threads
        + Wait
        + Clock
        + Net<Listener = TcpListener, Stream = TcpStream>
        + RandomSource
        + Sync,
> Runtime for T {}
