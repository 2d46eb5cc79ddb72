//! What the sources show.

ghost use Rattle.std.specs.Prelude.{◌≡◌, ◌⊎◌, IfErr, IfOk, length};
ghost use Rattle.blocks.specs.Committees.{IsCommittee};
ghost use Rattle.log_request.specs.HeardLines.{TellsHeard};
ghost use Rattle.program_follow.specs.Faults.{IsSourcesFault};
ghost use Rattle.program_follow.specs.Sources.{IsShown};

use crate::fault::{Fault, FollowFault};
use crate::host::FollowHost;
use crate::sources::{servers_of, sources_of};
use audit_evidence::{Evidence, EvidenceRefusal};
use base_streams::Sink;
use blocks::CommitteeView;
use log_request::{ChainServer, ChainSource, tell_heard};
use log_transfer::{Connector, TcpDialer};
use parallel_verify::collect;
use program_parts::{ProgramFault, SourceFault, SourceWord};
use std::fs::{File, Files};
use std::net::{Net, TcpListener, TcpStream};
use std::sync::Wait;
use std::thread::Threads;
use std::time::Clock;

/// What the logs of these sources show together under the committee. A source that can't be read is no fault: the report
/// says so of it. `notes` is told what was heard of the servers.
pub(crate) fn read_evidence<
    'a,
    'c,
    F: Files<File = File> + Sync,
    T: Threads + Wait + Clock + Net<Listener = TcpListener, Stream = TcpStream> + Sync,
    N: Sink,
>(
    host: &FollowHost<'a, F, T>,
    committee: &CommitteeView<'c>,
    words: &[SourceWord<'a>],
    notes: &mut N,
) -> Result<Evidence<'c>, Fault<'a>>
where
    F::Dir: Send,
    requires { IsCommittee committee.now }
    ensures shown { IfOk result (IsShown ⟦<ChainSource<'a, T, F> as Connector>⟧
        committee.now words.now) }
    ensures refused { IfErr result (IsSourcesFault ⟦<ChainSource<'a, T, F> as Connector>⟧
        committee.now words.now) }
    ensures noted { (notes.new ≡ notes.old)
        ⊎ TellsHeard (length words.now) (N.text notes.old) (N.text notes.new) }
{
    let servers = servers_of(host, committee.chain(), words)?;
    let evidence = collect_from(host, committee, words, &servers);
    tell_heard(host.alloc, &servers, notes);
    evidence
}

// The same of sources with these servers.
fn collect_from<
    'a,
    'c,
    's,
    F: Files<File = File> + Sync,
    T: Threads + Wait + Clock + Net<Listener = TcpListener, Stream = TcpStream> + Sync,
>(
    host: &FollowHost<'a, F, T>,
    committee: &CommitteeView<'c>,
    words: &[SourceWord<'a>],
    servers: &'s [ChainServer<TcpDialer<'a, T>>],
) -> Result<Evidence<'c>, Fault<'a>>
where
    F::Dir: Send,
    requires committee { IsCommittee committee.now }
    requires each { length servers.now ≡ length words.now }
    ensures shown { IfOk result (IsShown ⟦<ChainSource<'a, T, F> as Connector>⟧
        committee.now words.now) }
    ensures refused { IfErr result (IsSourcesFault ⟦<ChainSource<'a, T, F> as Connector>⟧
        committee.now words.now) }
{
    let sources = sources_of(host, words, servers)?;
    match collect(host.rt, host.alloc, committee, sources) {
        Ok(evidence) => {
            // For the proof: evidence is of good votes, and of no two headers with one id.
            let _headers = evidence.headers();
            Ok(evidence)
        }
        Err(EvidenceRefusal::Memory) => Err(ProgramFault::Memory),
        Err(EvidenceRefusal::Collision(_, _)) => {
            Err(ProgramFault::Own(FollowFault::Sources(SourceFault::Collision)))
        }
    }
}
