//! The words that name the sources of an audit.

ghost use Rattle.std.specs.Prelude.{◌≡◌, ◌≢◌, ◌++◌, ◌∷◌, [], IfErr, IfOk, OnOk, length};
ghost use Rattle.std.specs.List.{All, AllZip};
ghost use Rattle.program_tool.specs.OpenedSources.{IsOpenedAs, SpellSources};
ghost use Rattle.program_tool.specs.SourceTries.{IsTriedAs};

use crate::fault::{Fault, ToolFault};
use crate::host::ToolHost;
use blocks::Id;
use log_request::{ChainDialer, ChainServer, ChainSource};
use log_transfer::{
    Connector, FileConnector, MOST_TRIES, PAUSE_SECONDS, ServerConnector, TcpDialer, Watch, Watched,
};
use parallel_verify::Source;
use program_parts::{Origin, ProgramFault, SourceFault, SourceWord};
use program_words::Tries;
use std::alloc::{AllocError, Global};
use std::fs::{File, Files};
use std::net::{Net, TcpStream};
use std::time::Clock;

/// The sources that the words name. The first word that is not as written is the fault, counted from 0.
pub(crate) fn read_source_words<'a>(
    alloc: Global,
    words: &[&'a str],
) -> Result<Vec<SourceWord<'a>>, Fault<'a>>
    ensures spelled { IfOk result (λ sources. SpellSources words.now sources.items) }
    ensures fault { IfErr result (λ fault. fault ≢ ProgramFault.Output) }
{
    let mut sources = Vec::with_capacity(alloc, words.len())?;
    for (i, word) in words.iter().enumerate() {
        match SourceWord::of(word) {
            Some(source) => sources.push(source)?,
            None => return Err(Fault::Own(ToolFault::Sources(SourceFault::Word(i)))),
        }
    }
    Ok(sources)
}

// A server may have as many tries as words can ask for.
const _: () = prove!(MOST_TRIES == 3);

/// The servers of the sources, none of them asked yet, each to be asked for the log of this chain. That of a file is never asked.
pub(crate) fn servers_of<'a, F: Files<File = File>, T: Net<Stream = TcpStream> + Clock>(
    host: &ToolHost<'a, F, T>,
    chain: Id,
    words: &[SourceWord<'a>],
) -> Result<Vec<ChainServer<TcpDialer<'a, T>>>, AllocError>
    ensures { IfOk result (λ servers. length servers.items ≡ length words.now) }
{
    let mut servers = Vec::with_capacity(host.alloc, words.len())?;
    for word in words {
        let address = match word.origin {
            Origin::Tcp(address) => address,
            Origin::File(path) => path,
        };
        servers.push(ChainServer::new(TcpDialer::new(host.rt, address), chain))?;
    }
    Ok(servers)
}

// A file has one try: it can't go on in its middle.
fn tries_of<T: Net<Stream = TcpStream> + Clock, F: Files<File = File>>(
    connector: &ChainSource<T, F>,
    tries: Tries,
) -> u8
    ensures { IsTriedAs tries.count connector.now result }
{
    tries.count().min(connector.most_tries())
}

// The source of a word, the one of this number, with its server.
fn source_of<'a, 's, 'p, F: Files<File = File>, T: Net<Stream = TcpStream> + Clock, P: Watch>(
    host: &ToolHost<'a, F, T>,
    word: &SourceWord<'a>,
    server: &'s ChainServer<TcpDialer<'a, T>>,
    tries: Tries,
    watch: &'p P,
    number: usize,
) -> Source<Watched<'p, ChainSource<'s, T, F>, P>>
    ensures tries { IsTriedAs tries.count result.connector.connector result.tries }
    ensures opened { IsOpenedAs word.now result.replica result.connector.connector }
{
    let connector = match word.origin {
        Origin::File(path) => ChainSource::File(FileConnector::new(host.files, path)),
        Origin::Tcp(_) => ChainSource::Tcp(ServerConnector::over(
            host.rt,
            ChainDialer::of(server),
        ).with_pause(PAUSE_SECONDS)),
    };
    Source {
        replica: word.replica,
        tries: tries_of(&connector, tries),
        connector: Watched::new(connector, watch, number),
    }
}

// Lists one more source: in a loop over so big a value a push is dear to prove.
fn list<S: Drop>(sources: &mut Vec<S>, source: S) -> Result<(), AllocError>
    ensures { OnOk result (sources.new.items ≡ sources.old.items ++ source ∷ []) }
{
    sources.push(source)?;
    Ok(())
}

/// The sources, each with its server and watched, and each with so many tries, but a file with one.
pub(crate) fn open_sources<
    'a,
    's,
    'p,
    F: Files<File = File>,
    T: Net<Stream = TcpStream> + Clock,
    P: Watch,
>(
    host: &ToolHost<'a, F, T>,
    words: &[SourceWord<'a>],
    servers: &'s [ChainServer<TcpDialer<'a, T>>],
    tries: Tries,
    watch: &'p P,
) -> Result<Vec<Source<Watched<'p, ChainSource<'s, T, F>, P>>>, AllocError>
    requires { length servers.now ≡ length words.now }
    ensures tries { IfOk result (λ sources.
        All (λ s. IsTriedAs tries.count s.connector.connector s.tries) sources.items) }
    ensures opened { IfOk result (λ sources.
        AllZip (λ word s. IsOpenedAs word s.replica s.connector.connector)
        words.now sources.items) }
{
    let mut sources = Vec::with_capacity(host.alloc, words.len())?;
    for (i, word) in words.iter().enumerate() {
        let source = source_of(host, word, &servers[i], tries, watch, i);
        list(&mut sources, source)?;
    }
    Ok(sources)
}
