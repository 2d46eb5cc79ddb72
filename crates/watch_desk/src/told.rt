//! What was told, and what of an audit is new.

ghost use Rattle.std.specs.Prelude.{◌≡◌, ◌++◌, [], IfOk, IfSome, IsSome, None, OnOk, false};
ghost use Rattle.watch_desk.specs.News.{conflict_told, culprits_told, handover_told, is_conflict};
ghost use Rattle.std.specs.List.{All, Contains};
ghost use Rattle.ancestry.specs.Known.{all_of};
ghost use Rattle.culprit_search.specs.Found.{IsSearchOf};
ghost use Rattle.audit_evidence.specs.Evidence.{Evidence as EvidenceValue};
ghost use Rattle.watch_desk.specs.Hearing.{IsHeard, MayBeHandover, heard_news};
ghost use Rattle.watch_desk.specs.Verdicts.{unnamed};

use crate::certified::highest;
use crate::commits::{new_commits, tell_commits};
use crate::known::{KnownVerdict, unnamed};
use crate::news::News;
use base_shared::Shared;
use blocks::NamedHeader;
use culprit_search::{Commit, Conflict, Report, Searched};
use handover_search::{commits_after, handover_in};
use std::alloc::{AllocError, Global};
use std::marker::Model;

/// What was told: the commits, the conflict, whether a handover, and the verdicts, those of files first.
#[derive(Drop)]
pub struct Told {
    commits: Vec<Commit>,
    conflict: Option<Conflict>,
    has_handover: bool,
    verdicts: Vec<Shared<KnownVerdict>>,
    certified: u64,
}

impl Model for Told {
    ghost use Rattle.watch_desk.specs.Hearing.{Told as ToldValue};

    ghost Value = { ToldValue };

    ghost view = { λ t. record {
      commits = t.commits.items;
      conflict = t.conflict;
      handover = t.has_handover;
      verdicts = t.verdicts.items;
      certified = t.certified;
    } };
}

fn is_conflict(told: &Option<Conflict>, conflict: &Conflict) -> bool
    ensures { result ≡ is_conflict told.now conflict.now }
{
    match told {
        Some(o) => o.first == conflict.first && o.second == conflict.second,
        None => false,
    }
}

fn tell_conflict(
    news: &mut Vec<News>,
    told: &Option<Conflict>,
    conflict: Option<Conflict>,
) -> Result<(), AllocError>
    ensures { OnOk result (news.new.items ≡ news.old.items ++ conflict_told told.now conflict) }
{
    if let Some(conflict) = conflict {
        if !is_conflict(told, &conflict) {
            news.push(News::Conflict(conflict))?;
        }
    }
    Ok(())
}

fn tell_culprits(news: &mut Vec<News>, found: &[Shared<KnownVerdict>]) -> Result<(), AllocError>
    ensures { OnOk result (news.new.items ≡ news.old.items ++ culprits_told found.now) }
{
    for verdict in found {
        news.push(News::Culprit(verdict.again()?))?;
    }
    Ok(())
}

fn tell_handover(
    news: &mut Vec<News>,
    commits: &[Commit],
    handover: Option<NamedHeader>,
) -> Result<(), AllocError>
    ensures { OnOk result (news.new.items
        ≡ news.old.items ++ handover_told commits.now handover) }
{
    if let Some(block) = handover {
        let after = commits_after(&block, commits);
        news.push(News::Handover(block, after))?;
    }
    Ok(())
}

// The verdicts that are known, and those that were found.
fn joined(
    alloc: Global,
    known: &[Shared<KnownVerdict>],
    found: Vec<Shared<KnownVerdict>>,
) -> Result<Vec<Shared<KnownVerdict>>, AllocError>
    ensures { IfOk result (λ all. all.items ≡ known.now ++ found.items) }
{
    let mut all = Vec::new(alloc);
    for verdict in known {
        all.push(verdict.again()?)?;
    }
    for more in found {
        all.push(more)?;
    }
    Ok(all)
}

/// What is told once an audit was heard, and what of it is news.
#[derive(Drop)]
pub struct Heard {
    /// What was told from then on.
    pub told: Told,
    /// What is new, in the order in which it is told.
    pub news: Vec<News>,
}

impl Told {
    /// These verdicts of files were told at the start, and nothing else.
    pub fn new(alloc: Global, kept: Vec<Shared<KnownVerdict>>) -> Told
        ensures { result ≡ record {
          commits = [];
          conflict = None;
          handover = false;
          verdicts = kept.items;
          certified = 0;
        } }
    {
        Told {
            commits: Vec::new(alloc),
            conflict: None,
            has_handover: false,
            verdicts: kept,
            certified: 0,
        }
    }

    /// The commits that were told, by rising view, then by rising id.
    pub fn commits(&self) -> &[Commit]
        ensures { result.now ≡ self.now.commits }
    {
        &self.commits
    }

    /// The conflict that was told last, if one was.
    pub fn conflict(&self) -> Option<Conflict>
        ensures { result ≡ self.now.conflict }
    {
        self.conflict
    }

    /// Whether a handover was told.
    pub fn has_handover(&self) -> bool
        ensures { result ≡ self.now.handover }
    {
        self.has_handover
    }

    /// The verdicts, in the order in which they were told.
    pub fn verdicts(&self) -> &[Shared<KnownVerdict>]
        ensures { result.now ≡ self.now.verdicts }
    {
        &self.verdicts
    }

    /// The greatest view of a certified block, or 0.
    pub fn certified(&self) -> u64
        ensures { result ≡ self.now.certified }
    {
        self.certified
    }

    // The handover of an audit that is to be told.
    fn handover(&self, searched: &Searched, report: &Report) -> Option<NamedHeader>
        requires { All (Contains (all_of searched.now.chains)) searched.now.commits.items }
        ensures { (e : EvidenceValue) → IsSearchOf e searched.now
            → MayBeHandover e report.now self.now result }
    {
        if self.has_handover {
            return None;
        }
        match report.conflict() {
            Some(_) => None,
            None => handover_in(searched),
        }
    }

    // The news of an audit.
    fn news(
        &self,
        alloc: Global,
        report: &Report,
        found: &[Shared<KnownVerdict>],
        handover: Option<NamedHeader>,
    ) -> Result<Vec<News>, AllocError>
        requires { found.now ≡ unnamed self.now.verdicts report.now.verdicts }
        ensures { IfOk result (λ news. news.items ≡ heard_news self.now report.now handover) }
    {
        let mut news = Vec::new(alloc);
        let new = new_commits(alloc, &self.commits, report.commits())?;
        tell_conflict(&mut news, &self.conflict, report.conflict())?;
        tell_culprits(&mut news, found)?;
        tell_handover(&mut news, report.commits(), handover)?;
        tell_commits(&mut news, &new)?;
        Ok(news)
    }

    /// Hears an audit of evidence, which was searched so: what of it is new, and what is told with that.
    pub fn hear(
        &self,
        alloc: Global,
        searched: &Searched,
        report: &Report,
    ) -> Result<Heard, AllocError>
        requires { All (Contains (all_of searched.now.chains)) searched.now.commits.items }
        ensures { IfOk result (λ h. (e : EvidenceValue) → IsSearchOf e searched.now
            → IsHeard e report.now self.now h.told h.news.items) }
    {
        let found = unnamed(alloc, &self.verdicts, report.verdicts())?;
        let certified = highest(searched.chains.headers());
        let handover = self.handover(searched, report);
        let news = self.news(alloc, report, &found, handover)?;
        let told = Told {
            commits: report.commits().to_vec(alloc)?,
            conflict: report.conflict(),
            has_handover: self.has_handover || handover.is_some(),
            verdicts: joined(alloc, &self.verdicts, found)?,
            certified,
        };
        Ok(Heard { told, news })
    }
}
