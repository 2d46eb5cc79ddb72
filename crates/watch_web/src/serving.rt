//! The requests of one connection.

ghost use Rattle.std.specs.Prelude.{◌≡◌, [], OnOk};
ghost use Rattle.std.specs.List.{All};
ghost use Rattle.http_server.specs.Connection.{config_of, history};
ghost use Rattle.http_server.specs.History.{IsDone, IsServed};
ghost use Rattle.watch_web.specs.Answers.{IsCallAnswered};

use crate::watcher::Watcher;
use http_server::{Connection, serve};
use std::io;
use std::io::{Read, Write};
use std::sync::Wait;
use std::time::Clock;

/// Answers the requests of a new connection, until it is done or a read or a write fails. Each response asks for its end.
pub fn serve_watcher<'a, T: Wait + Clock, R: Read, W: Write>(
    watcher: &mut Watcher<'a, T>,
    connection: &mut Connection,
    reader: &mut R,
    writer: &mut W,
) -> io::Result<()>
    requires { (history connection.old).calls ≡ [] }
    ensures answered { All (IsCallAnswered watcher.old.hosts.now) (history connection.new).calls }

    // What went out is the answers to the first requests that came, in order.
    ensures served { ∥ IsServed (config_of connection.new) (history connection.new) ∥₁ }
    ensures done { OnOk result (IsDone (history connection.new)) }
{
    serve(connection, watcher, reader, writer)
}
