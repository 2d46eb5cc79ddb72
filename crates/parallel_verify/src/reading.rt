//! One source, read frame by frame.

ghost use Rattle.std.specs.Prelude.{◌≡◌, ◌<◌, [], Some, IfErr, IfOk, false};
ghost use Rattle.blocks.specs.Genesis.{genesis_of};
ghost use Rattle.audit_evidence.specs.Evidence.{IsReportOf};
ghost use Rattle.audit_evidence.specs.Gathering.{Grows, IsGatheringRefusal};
ghost use Rattle.audit_evidence.specs.Logs.{LogHasHeader, LogNamesVote, ReceivedLog};
ghost use Rattle.log_transfer.specs.Places.{HasCause, MayTry};
ghost use Rattle.parallel_verify.specs.Collections.{IsLogFrom};
ghost use Rattle.parallel_verify.specs.Parts.{IsGathered};
ghost use Rattle.parallel_verify.specs.Steps.{AreReplayed};

use crate::observer::Observer;
use crate::part::{Ending, Part};
use crate::source::Source;
use crate::steps::Steps;
use audit_evidence::{EvidenceRefusal, Gathered, Keeper, Mark, SourceReport};
use blocks::{CommitteeView, NamedHeader};
use log_transfer::{Connector, FetchError, Pull, Step};
use std::alloc::Global;

// What came of a source, beside what its frames name.
#[derive(Clone, Copy)]
struct Came {
    report: SourceReport,
    steps: Steps,
    // The first byte of its first frame.
    first: Option<u8>,
}

// Adds what the frames of a source name, each as it comes.
fn gather_frames<M: Mark, K: Keeper<M>, C: Connector, O: Observer>(
    alloc: Global,
    keeper: &K,
    pull: &mut Pull<C>,
    replica: u16,
    gathered: &mut Gathered<M>,
    observer: &mut O,
    steps: Steps,
) -> Result<Came, EvidenceRefusal>
    requires closed { pull.old.place.is_open ≡ false }
    requires first { pull.old.place.held ≡ 0 }
    requires tries { 0 < pull.old.place.tries }
    requires some { (l : ReceivedLog)
        × IsLogFrom (C.gives pull.old.connector) pull.old.place replica l }
    requires steps { AreReplayed (genesis_of gathered.old.committee) [] steps }
    ensures ok { IfOk result (λ r. (l : ReceivedLog)
        × IsLogFrom (C.gives pull.old.connector) pull.old.place replica l
        × Grows gathered.old gathered.new (LogHasHeader l) (LogNamesVote l)
        × IsReportOf l r.report × O.told observer.old observer.new l.frames (Some l.status)
        × (r.report.entries ≡ r.report.frames
        → AreReplayed (genesis_of gathered.old.committee) l.frames r.steps)) }
    ensures cause { IfOk result (λ r.
        HasCause (C.failed pull.old.connector) (C.failed pull.new.connector) r.report.status) }
    ensures state { C.reaches pull.old.connector pull.new.connector }
    ensures err { IfErr result (λ e. (l : ReceivedLog)
        × IsLogFrom (C.gives pull.old.connector) pull.old.place replica l
        × IsGatheringRefusal gathered.old (LogHasHeader l) e) }
{
    let mut frame = Vec::new(alloc);
    let mut frames: usize = 0;
    let mut entries: usize = 0;
    let mut steps = steps;
    let mut first = None;
    loop {
        match pull.next(&mut frame) {
            Ok(Step::Frame) => {
                // For the proof: behind what came, more may come.
                let _ = pull.failures();
                let payload = frame.as_slice();
                observer.frame(payload);
                if gathered.add_frame(alloc, keeper, replica, payload)? {
                    steps.take(payload);
                    entries += 1;
                }
                first = first.or(payload.first().copied());
                frames += 1;
            }
            Ok(Step::End(status)) => {
                observer.end(status);
                let report = SourceReport {
                    replica,
                    status,
                    frames,
                    entries,
                };
                return Ok(Came {
                    report,
                    steps,
                    first,
                });
            }
            Err(FetchError::Memory) => return Err(EvidenceRefusal::Memory),
        }
    }
}

// What one source names. It holds one frame at a time.
pub(crate) fn gather<M: Mark, K: Keeper<M>, C: Connector, O: Observer>(
    alloc: Global,
    committee: &CommitteeView,
    keeper: &K,
    source: Source<C>,
    observer: &mut O,
) -> Result<Part<M>, EvidenceRefusal>
    requires { MayTry (C.allowed source.connector) source.tries }
    ensures { IsGathered C.gives C.reaches C.failed (O.told observer.old observer.new) source.connector
        source.tries source.replica committee.now result }
{
    let Source {
        replica,
        connector,
        tries,
    } = source;
    let mut pull = Pull::new(connector, tries);
    // For the proof: something may come of every source.
    let _ = pull.failures();
    let mut gathered = Gathered::<M>::new(alloc, committee)?;
    let steps = Steps::first(&NamedHeader::of(committee.genesis()));
    let came = gather_frames(
        alloc,
        keeper,
        &mut pull,
        replica,
        &mut gathered,
        observer,
        steps,
    )?;
    let ending = Ending {
        failure: pull.failure(),
        begins_old: matches!(came.first, Some(1 | 2)),
    };
    let (headers, votes, certificates) = gathered.into_parts(alloc)?;
    Ok(Part {
        headers,
        votes,
        certificates,
        report: came.report,
        are_legal: came.steps.are_legal,
        has_voted: came.steps.has_voted,
        ending,
    })
}
