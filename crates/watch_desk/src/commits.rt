//! The commits of an audit that were not told before.

ghost use Rattle.std.specs.Prelude.{◌≡◌, ◌<◌, ◌++◌, IfOk, IsTrue, OnOk, length, map};
ghost use Rattle.watch_desk.specs.News.{commits_told, is_commit, is_told, left_out, new_commits};
ghost use Rattle.watch_desk.specs.declared.news.News.TheVariants as told;

use crate::news::News;
use culprit_search::Commit;
use std::alloc::{AllocError, Global};

/// Of how many new commits of a round each is told.
pub const MOST_COMMITS: usize = 100;

fn is_commit(a: &Commit, b: &Commit) -> bool
    ensures { result ≡ is_commit a.now b.now }
{
    a.view == b.view && a.id == b.id
}

// Whether it is one of those that were told.
fn is_told(told: &[Commit], commit: &Commit) -> bool
    ensures { result ≡ is_told told.now commit.now }
{
    told.iter().any(|o| is_commit(o, commit))
}

// Whether it is the one that was told at this place.
fn is_at(told: &[Commit], at: usize, commit: &Commit) -> bool
    ensures there { IsTrue result → at < length told.now }
    ensures told { IsTrue result → IsTrue (is_told told.now commit.now) }
{
    match told.get(at) {
        Some(o) => is_commit(o, commit),
        None => false,
    }
}

/// Those of the commits that were not told, in their order. Both lists rise, so that they are walked together: only what is
/// new is looked for.
pub(crate) fn new_commits(
    alloc: Global,
    told: &[Commit],
    commits: &[Commit],
) -> Result<Vec<Commit>, AllocError>
    ensures { IfOk result (λ new. new.items ≡ new_commits told.now commits.now) }
{
    let mut new = Vec::new(alloc);
    let mut at = 0;
    for commit in commits {
        if is_at(told, at, commit) {
            at += 1;
        } else if !is_told(told, commit) {
            new.push(*commit)?;
        }
    }
    Ok(new)
}

// Tells that so many are left out before these.
fn tell_left_out(news: &mut Vec<News>, count: usize, last: &[Commit]) -> Result<(), AllocError>
    ensures { OnOk result (news.new.items ≡ news.old.items ++ left_out count last.now) }
{
    if let [first, ..] = last {
        if count > 0 {
            news.push(News::Commits(count, *first))?;
        }
    }
    Ok(())
}

fn tell_each(news: &mut Vec<News>, commits: &[Commit]) -> Result<(), AllocError>
    ensures { OnOk result (news.new.items ≡ news.old.items ++ map (λ c. told.Commit c) commits.now) }
{
    for commit in commits {
        news.push(News::Commit(*commit))?;
    }
    Ok(())
}

/// Tells the last hundred of the new commits, after one line for those before.
pub(crate) fn tell_commits(news: &mut Vec<News>, new: &[Commit]) -> Result<(), AllocError>
    ensures { OnOk result (news.new.items ≡ news.old.items ++ commits_told new.now) }
{
    let count = new.len().saturating_sub(MOST_COMMITS);
    let last = &new[count..];
    tell_left_out(news, count, last)?;
    tell_each(news, last)
}
