//! What is known of a source.

ghost use Rattle.std.specs.Prelude.{◌≡◌, ◌++◌, IfOk, OnOk, option_map, slice_get};
ghost use Rattle.watch_desk.specs.Sources.{aside_told, is_status, log_named, status_place, status_told};
ghost use Rattle.watch_desk.specs.Taking.{AreKeptCounted, AreLogsKept, HasBegun, IsBack, IsBeyond, IsCountedIn, IsFreshLog, IsFreshSource, IsGiven, IsNoted, SameButLogs, bad_of, is_aside, logs_told, told_of, top_then};

use crate::back::{Back, Extent, back_after, back_then};
use crate::news::News;
use crate::votes::{add_each, copies, top_from};
use audit_evidence::SourceReport;
use base_shared::Shared;
use certificates::SignedVote;
use log_format::Status;
use std::alloc::{AllocError, Global};
use watch_collector::Part;
use watch_report::SourceDigests;

// What no frames digest to.
const NO_DIGESTS: SourceDigests = SourceDigests {
    first: [0; 32],
    all: [0; 32],
};

/// A source is set aside once so many of its votes were not good: a correct replica's log has none.
pub const MOST_BAD_VOTES: usize = 64;

/// A part of a log of a source.
#[derive(Drop)]
pub struct NewPart<'c> {
    /// Which of its logs: one that is known, or the next.
    pub log: usize,
    /// It may have no frame, and then says how the log ends.
    pub part: Part<'c>,
    /// What the frames of the source digest to, with this part.
    pub digests: SourceDigests,
    /// It was stored before the watch began.
    pub is_kept: bool,
}

/// What is known of a log of a source.
#[derive(Drop)]
pub struct LogKnown {
    /// The collector's number for it.
    pub number: usize,
    /// How it ended when that was told last.
    pub told: Option<Status>,
    /// The votes that are not good of what was kept of it. They count once the source is found to give it still.
    pub kept_bad: Vec<Shared<SignedVote>>,
}

impl LogKnown {
    /// Nothing was told of it yet.
    pub(crate) fn of(alloc: Global, number: usize) -> LogKnown
        ensures number { result.number ≡ number }
        ensures fresh { IsFreshLog result }
    {
        LogKnown {
            number,
            told: None,
            kept_bad: Vec::new(alloc),
        }
    }
}

/// What is known of a source.
#[derive(Drop)]
pub struct SourceKnown {
    /// The replica whose log it is said to be.
    pub replica: u16,
    /// Its logs, in the order in which they began.
    pub logs: Vec<LogKnown>,
    /// How the log ends that its last part came to, which no file had.
    pub status: Option<Status>,
    /// Its votes that are not good, each once.
    pub bad: Vec<Shared<SignedVote>>,
    /// The greatest view of its votes that came in parts of which no vote is bad.
    pub top_view: u64,
    /// How often it went back.
    pub times_back: u64,
    /// The round in which that was told last, or 0.
    pub back_told: u64,
    /// It went back, and did not give all again that it had.
    pub back: Option<Back>,
    /// It gave one log too many.
    pub is_beyond: bool,
    /// What its frames digest to.
    pub digests: SourceDigests,
}

fn status_place(status: Status) -> u8
    ensures { result ≡ status_place status }
{
    match status {
        Status::Whole => 0,
        Status::Cut => 1,
        Status::Broken => 2,
        Status::TooLong => 3,
        Status::Failed => 4,
    }
}

fn is_status(told: &Option<Status>, status: Status) -> bool
    ensures { result ≡ is_status told.now status }
{
    match told {
        Some(told) => status_place(*told) == status_place(status),
        None => false,
    }
}

// The number of a log, where its source has more than one.
fn log_named(count: usize, log: usize) -> Option<usize>
    ensures { result ≡ log_named count log }
{
    if 1 < count {
        return Some(log);
    }
    None
}

// Tells how a log ends, where that is not as it was told last.
fn tell_status(
    alloc: Global,
    i: usize,
    log: Option<usize>,
    told: &Option<Status>,
    report: &SourceReport,
) -> Result<Vec<News>, AllocError>
    ensures { IfOk result (λ news. news.items ≡ status_told i log told.now report.now) }
{
    let mut news = Vec::new(alloc);
    if !is_status(told, report.status) {
        news.push(News::Status(i, log, *report))?;
    }
    Ok(news)
}

// Tells that a source is set aside, where the number of its bad votes comes to that.
fn tell_aside(
    news: &mut Vec<News>,
    i: usize,
    replica: u16,
    before: usize,
    after: usize,
) -> Result<(), AllocError>
    ensures { OnOk result (news.new.items ≡ news.old.items ++ aside_told i replica before after) }
{
    if before < MOST_BAD_VOTES && MOST_BAD_VOTES <= after {
        news.push(News::SetAside(i, replica))?;
    }
    Ok(())
}

impl SourceKnown {
    /// Nothing came of a source yet, whose first log has this number.
    pub(crate) fn new(alloc: Global, replica: u16, number: usize) -> Result<SourceKnown, AllocError>
        ensures fresh { IfOk result (IsFreshSource number) }
        ensures replica { IfOk result (λ s. s.replica ≡ replica) }
    {
        let mut logs = Vec::new(alloc);
        logs.push(LogKnown::of(alloc, number))?;
        Ok(SourceKnown {
            replica,
            logs,
            status: None,
            bad: Vec::new(alloc),
            top_view: 0,
            times_back: 0,
            back_told: 0,
            back: None,
            is_beyond: false,
            digests: NO_DIGESTS,
        })
    }

    /// Whether it is set aside.
    pub fn is_aside(&self) -> bool
        ensures { result ≡ is_aside self.now }
    {
        MOST_BAD_VOTES <= self.bad.len()
    }

    // The collector's number for a log, where it is known.
    pub(crate) fn number_of(&self, log: usize) -> Option<usize>
        ensures { result ≡ option_map (λ l. l.number) (slice_get self.now.logs.items log) }
    {
        match self.logs.get(log) {
            Some(known) => Some(known.number),
            None => None,
        }
    }

    // One more log, which has this number.
    pub(crate) fn begin(&mut self, alloc: Global, number: usize) -> Result<(), AllocError>
        ensures same { OnOk result (SameButLogs self.old self.new) }
        ensures logs { OnOk result (HasBegun self.old.logs.items self.new.logs.items number) }
    {
        self.logs.push(LogKnown::of(alloc, number))?;
        Ok(())
    }

    // How the log ended when that was told last.
    fn told_of(&self, log: usize) -> Option<Status>
        ensures { result ≡ told_of self.now.logs.items log }
    {
        match self.logs.get(log) {
            Some(known) => known.told,
            None => None,
        }
    }

    // How a log ends is told.
    fn note_told(&mut self, log: usize, status: Status)
        ensures same { SameButLogs self.old self.new }
        ensures logs { self.new.logs.items ≡ logs_told self.old.logs.items log status }
    {
        if let Some(known) = self.logs.get_mut(log) {
            known.told = Some(status);
        }
    }

    // These votes of what was kept of a log are not good.
    fn note_kept(&mut self, log: usize, bad: &[Shared<SignedVote>]) -> Result<(), AllocError>
        ensures same { OnOk result (SameButLogs self.old self.new) }
        ensures logs { OnOk result
            (AreLogsKept self.old.logs.items self.new.logs.items log bad.now) }
    {
        if let Some(known) = self.logs.get_mut(log) {
            add_each(&mut known.kept_bad, bad)?;
        }
        Ok(())
    }

    // The greatest view rises only by parts of which no vote is bad.
    fn note_views(&mut self, bad: &[Shared<SignedVote>], votes: &[Shared<SignedVote>])
        ensures { self.new ≡ record self.old {
          top_view = top_then self.old.top_view bad.now votes.now;
        } }
    {
        if bad.is_empty() {
            self.top_view = top_from(self.top_view, votes);
        }
    }

    /// Notes a part of a log, which ends as this report of it says, and of whose votes these are not good. Answers what is told
    /// of it.
    pub(crate) fn note(
        &mut self,
        alloc: Global,
        i: usize,
        new: &NewPart,
        report: &SourceReport,
        bad: &[Shared<SignedVote>],
    ) -> Result<Vec<News>, AllocError>
        ensures { IfOk result (λ news. IsNoted self.old self.new i new.now report.now bad.now news.items) }
    {
        self.digests = new.digests;
        self.note_views(bad, new.part.votes());
        if new.is_kept {
            self.note_kept(new.log, bad)?;
            return Ok(Vec::new(alloc));
        }
        let log = log_named(self.logs.len(), new.log);
        let mut news = tell_status(alloc, i, log, &self.told_of(new.log), report)?;
        self.note_told(new.log, report.status);
        self.status = Some(report.status);
        self.count(&mut news, i, bad)?;
        Ok(news)
    }

    // Counts bad votes, and tells where they are too many.
    fn count(
        &mut self,
        news: &mut Vec<News>,
        i: usize,
        bad: &[Shared<SignedVote>],
    ) -> Result<(), AllocError>
        ensures { OnOk result (IsCountedIn self.old self.new i bad.now news.old.items news.new.items) }
    {
        let before = self.bad.len();
        add_each(&mut self.bad, bad)?;
        tell_aside(news, i, self.replica, before, self.bad.len())
    }

    /// It went back once more, in this round and at this second, when it had this: that is told once a round.
    pub(crate) fn go_back(
        &mut self,
        i: usize,
        round: u64,
        second: u64,
        had: Option<Extent>,
    ) -> Option<News>
        ensures { IsBack self.old self.new i round second had result }
    {
        self.back = Some(back_then(self.back, second, had));
        let is_told = self.back_told == round;
        self.times_back = self.times_back.saturating_add(1);
        self.back_told = round;
        if is_told {
            return None;
        }
        Some(News::WentBack(i, self.replica))
    }

    /// It gives this of a log: where that is all that it had, it is back no more.
    pub(crate) fn give(&mut self, given: Extent)
        ensures { IsGiven self.old self.new given }
    {
        self.back = back_after(self.back, given);
    }

    /// It gave one log too many: that is told once.
    pub(crate) fn go_beyond(&mut self, i: usize) -> Option<News>
        ensures { IsBeyond self.old self.new i result }
    {
        let is_told = self.is_beyond;
        self.is_beyond = true;
        if is_told {
            return None;
        }
        Some(News::Beyond(i, self.replica))
    }

    // The votes that are not good of what was kept of a log.
    fn kept_bad(&self, alloc: Global, log: usize) -> Result<Vec<Shared<SignedVote>>, AllocError>
        ensures { IfOk result (λ bad. bad.items ≡ bad_of (slice_get self.now.logs.items log)) }
    {
        match self.logs.get(log) {
            Some(known) => copies(alloc, &known.kept_bad),
            None => Ok(Vec::new(alloc)),
        }
    }

    /// It still gives this log, which was kept: its bad votes are counted, each once.
    pub(crate) fn count_kept(
        &mut self,
        alloc: Global,
        i: usize,
        log: usize,
    ) -> Result<Vec<News>, AllocError>
        ensures { IfOk result (λ news. AreKeptCounted self.old self.new i log news.items) }
    {
        let bad = self.kept_bad(alloc, log)?;
        let mut news = Vec::new(alloc);
        self.count(&mut news, i, &bad)?;
        Ok(news)
    }
}
