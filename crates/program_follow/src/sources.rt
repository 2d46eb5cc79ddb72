//! The sources of the old committee's logs.

ghost use Rattle.std.specs.Prelude.{◌≡◌, IfOk, length};
ghost use Rattle.std.specs.List.{AllZip};
ghost use Rattle.program_follow.specs.Sources.{IsOpenedAs};

use crate::host::FollowHost;
use blocks::Id;
use log_request::{ChainDialer, ChainServer, ChainSource};
use log_transfer::{Connector, FileConnector, PAUSE_SECONDS, ServerConnector, TcpDialer};
use parallel_verify::Source;
use program_parts::{Origin, SourceWord};
use std::alloc::AllocError;
use std::fs::{File, Files};
use std::net::{Net, TcpStream};
use std::time::Clock;

/// The servers of the sources, none of them asked yet, each to be asked for the log of this chain. That of a file is never asked.
pub(crate) fn servers_of<'a, F: Files<File = File>, T: Net<Stream = TcpStream> + Clock>(
    host: &FollowHost<'a, F, T>,
    chain: Id,
    words: &[SourceWord<'a>],
) -> Result<Vec<ChainServer<TcpDialer<'a, T>>>, AllocError>
    ensures { IfOk result (λ servers. length servers.items ≡ length words.now) }
{
    let mut servers = Vec::with_capacity(host.alloc, words.len())?;
    for word in words {
        let address = match word.origin {
            Origin::Tcp(address) => address,
            Origin::File(path) => path,
        };
        servers.push(ChainServer::new(TcpDialer::new(host.rt, address), chain))?;
    }
    Ok(servers)
}

// The source that the word names, with its server and as many tries as it may have.
fn source_of<'a, 's, F: Files<File = File>, T: Net<Stream = TcpStream> + Clock>(
    host: &FollowHost<'a, F, T>,
    word: &SourceWord<'a>,
    server: &'s ChainServer<TcpDialer<'a, T>>,
) -> Source<ChainSource<'s, T, F>>
    ensures { IsOpenedAs word.now result }
{
    let connector = match word.origin {
        Origin::File(path) => ChainSource::File(FileConnector::new(host.files, path)),
        Origin::Tcp(_) => ChainSource::Tcp(ServerConnector::over(
            host.rt,
            ChainDialer::of(server),
        ).with_pause(PAUSE_SECONDS)),
    };
    Source {
        replica: word.replica,
        tries: connector.most_tries(),
        connector,
    }
}

/// The sources that the words name, with their servers, none of them read yet.
pub(crate) fn sources_of<'a, 's, F: Files<File = File>, T: Net<Stream = TcpStream> + Clock>(
    host: &FollowHost<'a, F, T>,
    words: &[SourceWord<'a>],
    servers: &'s [ChainServer<TcpDialer<'a, T>>],
) -> Result<Vec<Source<ChainSource<'s, T, F>>>, AllocError>
    requires { length servers.now ≡ length words.now }
    ensures { IfOk result (λ sources. AllZip IsOpenedAs words.now sources.items) }
{
    let mut sources = Vec::with_capacity(host.alloc, words.len())?;
    for (i, word) in words.iter().enumerate() {
        sources.push(source_of(host, word, &servers[i]))?;
    }
    Ok(sources)
}
