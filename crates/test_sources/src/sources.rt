//! Sources in memory, each of one stream that is read once.

ghost use Rattle.std.specs.Prelude.{IfOk, OnOk};
ghost use Rattle.std.specs.List.{All};
ghost use Rattle.log_transfer.specs.declared.reader_state.TheConstants.{MOST_TRIES};
ghost use Rattle.parallel_verify.specs.Collections.{MayBeTried};

use log_transfer::{Connector, MemoryConnector};
use parallel_verify::Source;
use std::alloc::{AllocError, Global};

/// A source of this stream.
pub fn source(
    alloc: Global,
    replica: u16,
    text: &[u8],
) -> Result<Source<MemoryConnector>, AllocError>
    ensures { IfOk result (MayBeTried (λ c. MOST_TRIES)) }
{
    let mut connector = MemoryConnector::new(alloc);
    connector.add(text.to_vec(alloc)?, false)?;
    Ok(Source {
        replica,
        connector,
        tries: 1,
    })
}

/// Adds a source.
pub fn put<C: Connector>(sources: &mut Vec<Source<C>>, source: Source<C>) -> Result<(), AllocError>
    requires all { All (MayBeTried C.allowed) sources.old.items }
    requires one { MayBeTried C.allowed source }
    ensures { OnOk result (All (MayBeTried C.allowed) sources.new.items) }
{
    sources.push(source)?;
    Ok(())
}

/// Sources of these streams, as the logs of these replicas.
pub fn sources(
    alloc: Global,
    logs: &[(u16, &[u8])],
) -> Result<Vec<Source<MemoryConnector>>, AllocError>
    ensures { IfOk result (λ ss. All (MayBeTried (λ c. MOST_TRIES)) ss.items) }
{
    let mut sources = Vec::new(alloc);
    for log in logs {
        put(&mut sources, source(alloc, log.0, log.1)?)?;
    }
    Ok(sources)
}
