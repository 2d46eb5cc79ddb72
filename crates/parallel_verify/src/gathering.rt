//! All sources, each read in a thread of its own.

ghost use Rattle.std.specs.Prelude.{◌≡◌, ◌<◌, ◌++◌, ◌∷◌, [], ℕ, IfErr, IfOk, Ok, OnOk, length, slice_index_or};
ghost use Rattle.std.specs.List.{All, AllZip};
ghost use Rattle.log_transfer.specs.Places.{MayTry};
ghost use Rattle.parallel_verify.specs.Collections.{IsRefusalOfSources, MayGive};
ghost use Rattle.parallel_verify.specs.Parts.{IsGathered};
ghost use Rattle.parallel_verify.specs.Readings.{AreGathered, IsRefusedAmong, MayBeTriedIn, sources_of};

use crate::keeping::{CertificateShelf, HeaderShelf, Keeping};
use crate::numbers::{CertificateList, ListNaming, Number};
use crate::observer::Observer;
use crate::part::Part;
use crate::reading::gather;
use crate::source::Observed;
use crate::{Board, BoardNaming};
use audit_evidence::{EvidenceRefusal, Keeper, Mark};
use blocks::CommitteeView;
use log_transfer::Connector;
use std::alloc::{AllocError, Global};
use std::sync::{Mutex, Wait};
use std::thread;
use std::thread::Threads;

// What one source names, and its observer.
fn gather_observed<M: Mark, K: Keeper<M>, C: Connector, O: Observer>(
    alloc: Global,
    committee: &CommitteeView,
    keeper: &K,
    observed: Observed<C, O>,
) -> (Result<Part<M>, EvidenceRefusal>, O)
    requires { MayTry (C.allowed observed.source.connector) observed.source.tries }
    ensures { IsGathered C.gives C.reaches C.failed (O.told observed.observer result.1)
        observed.source.connector observed.source.tries observed.source.replica committee.now
        result.0 }
{
    let Observed { source, observer } = observed;
    let mut observer = observer;
    let part = gather(alloc, committee, keeper, source, &mut observer);
    (part, observer)
}

// What each source names, each read in a thread of its own.
fn gather_each<
    'n,
    N: BoardNaming + Send + Sync,
    L: ListNaming + Send + Sync,
    R: Threads + Wait + Sync,
    C: Connector + Send,
    O: Observer + Send,
>(
    rt: &R,
    alloc: Global,
    committee: &CommitteeView,
    board: &Board<N>,
    list: &'n CertificateList,
    sources: Vec<Observed<C, O>>,
) -> Result<Vec<(Result<Part<Number<'n, L>>, EvidenceRefusal>, O)>, AllocError>
    requires list { list.now ≡ L.list }
    requires tries { All (MayBeTriedIn C.allowed) sources.items }
    ensures len { IfOk result (λ outs. length outs.items ≡ length sources.items) }
    ensures each { IfOk result (λ outs. (i : ℕ) (s : _) (d : _) → i < length sources.items
        → IsGathered C.gives C.reaches C.failed
        (O.told (slice_index_or sources.items i s).observer (slice_index_or outs.items i d).1)
        (slice_index_or sources.items i s).source.connector
        (slice_index_or sources.items i s).source.tries
        (slice_index_or sources.items i s).source.replica committee.now
        (slice_index_or outs.items i d).0) }
{
    let certificates = Mutex::new(CertificateShelf::new(alloc));
    let headers = Mutex::new(HeaderShelf::new(alloc));
    let keeping = Keeping {
        alloc,
        rt,
        board,
        list,
        certificates: &certificates,
        headers: &headers,
    };
    thread::map_vec(
        rt,
        sources,
        &|observed: Observed<C, O>| -> (Result<Part<Number<L>>, EvidenceRefusal>, O)
            requires { MayTry (C.allowed observed.source.connector) observed.source.tries }
            ensures { IsGathered C.gives C.reaches C.failed (O.told observed.observer result.1)
                observed.source.connector observed.source.tries observed.source.replica
                committee.entry.now result.0 }
        { gather_observed(alloc, committee, &keeping, observed) },
    )
}

// Adds a part, and its observer.
fn put<M: Mark, O: Observer>(
    parts: &mut Vec<Part<M>>,
    observers: &mut Vec<O>,
    part: Part<M>,
    observer: O,
) -> Result<(), AllocError>
    ensures { OnOk result ((parts.new.items ≡ parts.old.items ++ part ∷ [])
        × (observers.new.items ≡ observers.old.items ++ observer ∷ [])) }
{
    parts.push(part)?;
    observers.push(observer)?;
    Ok(())
}

// The parts, if none is refused, and the observers.
fn parts_and_observers<M: Mark, O: Observer>(
    alloc: Global,
    outs: Vec<(Result<Part<M>, EvidenceRefusal>, O)>,
) -> Result<(Vec<Part<M>>, Vec<O>), EvidenceRefusal>
    ensures parts { IfOk result (λ r. AllZip (λ out p. out.0 ≡ Ok p) outs.items r.0.items) }
    ensures observers { IfOk result (λ r. AllZip (λ out o. out.1 ≡ o) outs.items r.1.items) }
    ensures refused { IfErr result (IsRefusedAmong outs.items) }
{
    let mut parts = Vec::new(alloc);
    let mut observers = Vec::new(alloc);
    for (part, observer) in outs {
        put(&mut parts, &mut observers, part?, observer)?;
    }
    Ok((parts, observers))
}

/// What each source names, and its observer. A source whose own headers collide refuses all.
pub(crate) fn gather_all<
    'n,
    N: BoardNaming + Send + Sync,
    L: ListNaming + Send + Sync,
    R: Threads + Wait + Sync,
    C: Connector + Send,
    O: Observer + Send,
>(
    rt: &R,
    alloc: Global,
    committee: &CommitteeView,
    board: &Board<N>,
    list: &'n CertificateList,
    sources: Vec<Observed<C, O>>,
) -> Result<(Vec<Part<Number<'n, L>>>, Vec<O>), EvidenceRefusal>
    requires list { list.now ≡ L.list }
    requires tries { All (MayBeTriedIn C.allowed) sources.items }
    ensures ok { IfOk result (λ r. AreGathered C.Connector O.told committee.now sources.items
        r.0.items r.1.items) }
    ensures refused { IfErr result
        (IsRefusalOfSources (MayGive C.gives) committee.now (sources_of sources.items)) }
{
    let outs = gather_each::<N, L, R, C, O>(rt, alloc, committee, board, list, sources)?;
    parts_and_observers(alloc, outs)
}
