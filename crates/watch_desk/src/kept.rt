//! The verdicts of files that were there when a watch began.

ghost use Rattle.std.specs.Prelude.{◌≡◌, [], IfOk, OnErr, map};
ghost use Rattle.watch_collector.specs.Collectors.{IsCollected, unread_log};
ghost use Rattle.watch_desk.specs.Desks.{told_first};
ghost use Rattle.watch_desk.specs.Keeping.{IsKeptAs};
ghost use Rattle.watch_desk.specs.Taking.{AreFreshSources};

use crate::desk::WatchDesk;
use crate::known::{KnownVerdict, judge_kept};
use base_shared::Shared;
use blocks::CommitteeView;
use std::alloc::{AllocError, Global};
use std::marker::Model;

/// Verdicts of files that were there when a watch began. Each is a proof under the committee. Contracts see the committee, and
/// the verdicts' bytes.
#[derive(Drop)]
pub struct KeptVerdicts<'c> {
    alloc: Global,
    committee: CommitteeView<'c>,
    verdicts: Vec<Shared<KnownVerdict>>,
}

impl<'c> Model for KeptVerdicts<'c> {
    ghost use Rattle.std.specs.List.{All};
    ghost use Rattle.verdict_format.specs.Proofs.{IsProof};
    ghost use Rattle.watch_desk.specs.Keeping.{Kept};

    ghost Value = { Kept };

    ghost view = { λ k. record { committee = k.committee; verdicts = k.verdicts.items } };

    ghost invariant = { λ k. All (IsProof k.committee) k.verdicts.items };
}

impl<'c> KeptVerdicts<'c> {
    /// None yet.
    pub fn new(alloc: Global, committee: &CommitteeView<'c>) -> KeptVerdicts<'c>
        ensures { result ≡ record { committee = committee.now; verdicts = [] } }
    {
        KeptVerdicts {
            alloc,
            committee: committee.again(),
            verdicts: Vec::new(alloc),
        }
    }

    /// Whether these bytes of a file are a verdict on this replica that the checker accepts. Then it is one of them.
    pub fn judge(&mut self, replica: u16, bytes: Vec<u8>) -> Result<bool, AllocError>
        ensures ok { IfOk result (IsKeptAs self.old self.new replica bytes.items) }
        ensures err { OnErr result (self.new ≡ self.old) }
    {
        match judge_kept(&self.committee, replica, bytes) {
            Some(verdict) => {
                self.verdicts.push(Shared::new(self.alloc, verdict)?)?;
                Ok(true)
            }
            None => Ok(false),
        }
    }

    /// A desk to which nothing came yet of the log of each of these replicas. These verdicts were told.
    pub fn open(self, replicas: &[u16]) -> Result<WatchDesk<'c>, AllocError>
        ensures collected { IfOk result (λ d.
            IsCollected self.entry.committee (map unread_log replicas.now) d.collected) }
        ensures sources { IfOk result (λ d. AreFreshSources replicas.now d.sources) }
        ensures told { IfOk result (λ d. d.told ≡ told_first self.entry.verdicts) }
    {
        let KeptVerdicts {
            alloc,
            committee,
            verdicts,
        } = self;
        WatchDesk::open(alloc, &committee, replicas, verdicts)
    }
}
