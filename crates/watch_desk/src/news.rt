//! What a watch tells.

ghost use Rattle.std.specs.Prelude.{◌≡◌};
ghost use Rattle.watch_desk.specs.News.{may_be_dropped};

use crate::known::KnownVerdict;
use audit_evidence::SourceReport;
use base_shared::Shared;
use blocks::NamedHeader;
use culprit_search::{Commit, Conflict};

/// One thing that a watch tells. `Status` and `WentBack` may come again, and so does `Conflict` where a lower commit is part of it; the
/// others are told once.
#[derive(Drop)]
pub enum News {
    /// The first two commits that conflict.
    Conflict(Conflict),
    /// A replica broke a rule.
    Culprit(Shared<KnownVerdict>),
    /// The block by which the ledger was handed over, and how many proved commits are above it.
    Handover(NamedHeader, usize),
    /// So many commits that are not told come before this one.
    Commits(usize, Commit),
    /// A block is committed.
    Commit(Commit),
    /// How a log of the source of this number ends; the log's own number where the source has more than one.
    Status(usize, Option<usize>, SourceReport),
    /// The log of the source of this number, and this replica, went back.
    WentBack(usize, u16),
    /// The source of this number, and this replica, gave one log too many.
    Beyond(usize, u16),
    /// No more of the source of this number, and this replica, is read, since too many of its votes were not good.
    SetAside(usize, u16),
}

impl News {
    /// Whether its line may be dropped where nobody takes the lines: that of what comes again if it goes on.
    pub fn may_be_dropped(&self) -> bool
        ensures { result ≡ may_be_dropped self.now }
    {
        match self {
            News::Status(_, _, _) | News::WentBack(_, _) => true,
            News::Conflict(_)
            | News::Culprit(_)
            | News::Handover(_, _)
            | News::Commits(_, _)
            | News::Commit(_)
            | News::Beyond(_, _)
            | News::SetAside(_, _) => false,
        }
    }
}
