//! What the page says first.

ghost use Rattle.std.specs.Prelude.{◌≡◌, ◌++◌, OnOk};
ghost use Rattle.watch_web.specs.Words.{advice_text, class_text, icon_text, level_of, share_text, shares_of, state_text};

use base_text::put_number;
use base_wire::append;
use std::alloc::AllocError;
use watch_report::{Snapshot, Standing};

/// How many sources answer, and of how many replicas no source is named.
#[derive(Clone, Copy, Debug, PartialEq, Eq)]
pub struct Shares {
    /// So many sources answer.
    pub answering: u64,
    /// .. of so many.
    pub sources: u64,
    /// Of so many replicas none is named.
    pub unwatched: u16,
    /// .. of so many.
    pub replicas: u16,
}

/// .. of what a watch knew, at this second.
pub(crate) fn shares_of(seen: &Snapshot, second: u64) -> Shares
    ensures { result ≡ shares_of seen.now second }
{
    Shares {
        answering: seen.answering(second) as u64,
        sources: seen.sources.len() as u64,
        unwatched: seen.unwatched(),
        replicas: seen.replicas,
    }
}

/// How bad it is.
#[derive(Clone, Copy, Debug, PartialEq, Eq)]
pub enum Level {
    Alarm,
    Warning,
    Fine,
}

#[tactic(auto, unfolding(crate::specs::Words::share_text))]
pub(crate) fn put_share(text: &mut Vec<u8>, k: u64, m: u64) -> Result<(), AllocError>
    ensures { OnOk result (text.new.items ≡ text.old.items ++ share_text k m) }
{
    put_number(text, k)?;
    append(text, b" of ")?;
    put_number(text, m)
}

#[tactic(auto, unfolding(crate::specs::Words::state_text))]
pub(crate) fn put_state(
    text: &mut Vec<u8>,
    standing: Standing,
    shares: Shares,
) -> Result<(), AllocError>
    ensures { OnOk result (text.new.items ≡ text.old.items ++ state_text standing shares) }
{
    match standing {
        Standing::Conflict => append(text, b"Conflict: two commits disagree"),
        Standing::Culprits => append(text, b"Culprits were found"),
        Standing::WentBack => append(text, b"A log went back"),
        Standing::SetAside => append(text, b"A source was set aside"),
        Standing::Beyond => append(text, b"A source gave a fifth log"),
        Standing::BadVotes => append(text, b"Votes of a source are not good"),
        Standing::NotStored => append(text, b"Something is not stored"),
        Standing::ReadingKept => append(text, b"Reading kept logs"),
        Standing::NothingRead => append(text, b"No source answers"),
        Standing::SomeAnswer => {
            put_share(text, shares.answering, shares.sources)?;
            append(text, b" sources answer")
        }
        Standing::Unwatched => {
            put_share(
                text,
                u64::from(shares.unwatched),
                u64::from(shares.replicas),
            )?;
            append(text, b" replicas are not watched")
        }
        Standing::AllAnswer => append(text, b"All sources answer"),
    }
}

#[tactic(auto, unfolding(crate::specs::Words::level_of))]
pub(crate) fn level_of(standing: Standing) -> Level
    ensures { result ≡ level_of standing }
{
    match standing {
        Standing::Conflict | Standing::Culprits | Standing::WentBack => Level::Alarm,
        Standing::SetAside | Standing::Beyond | Standing::BadVotes => Level::Warning,
        Standing::NotStored | Standing::ReadingKept | Standing::NothingRead => Level::Warning,
        Standing::SomeAnswer | Standing::Unwatched => Level::Warning,
        Standing::AllAnswer => Level::Fine,
    }
}

#[tactic(auto, unfolding(crate::specs::Words::class_text))]
pub(crate) fn put_class(text: &mut Vec<u8>, level: Level) -> Result<(), AllocError>
    ensures { OnOk result (text.new.items ≡ text.old.items ++ class_text level) }
{
    match level {
        Level::Alarm => append(text, b"alarm"),
        Level::Warning => append(text, b"warning"),
        Level::Fine => append(text, b"fine"),
    }
}

#[tactic(auto, unfolding(crate::specs::Words::icon_text))]
pub(crate) fn put_icon(text: &mut Vec<u8>, level: Level) -> Result<(), AllocError>
    ensures { OnOk result (text.new.items ≡ text.old.items ++ icon_text level) }
{
    match level {
        Level::Alarm => append(text, b"%3Crect width='8' height='8' fill='%23b00020'/%3E"),
        Level::Warning => append(text, b"%3Cpath d='M4 0L8 8H0Z' fill='%23b26a00'/%3E"),
        Level::Fine => append(text, b"%3Ccircle cx='4' cy='4' r='4' fill='%23187a3c'/%3E"),
    }
}

#[tactic(auto, unfolding(crate::specs::Words::advice_text))]
pub(crate) fn put_advice(text: &mut Vec<u8>, standing: Standing) -> Result<(), AllocError>
    ensures { OnOk result (text.new.items ≡ text.old.items ++ advice_text standing) }
{
    match standing {
        Standing::Conflict => append(
            text,
            b"Two blocks are committed of which neither is the other's ancestor. Stop what rests on this ledger, keep the logs, and send the verdicts to the other operators.",
        ),
        Standing::Culprits => append(
            text,
            b"Each verdict below shows by two signed votes that its replica broke a voting rule. Send it to the other operators, who check it with hs_check or check.html of their own copy of this project.",
        ),
        Standing::WentBack => append(
            text,
            b"A source gave less than it had given, or something else. This accuses nobody: what comes of a source is not signed by its replica. Ask the replica's operator whether a backup was put back: a replica that runs on one may vote twice without knowing it, and is to be stopped. This is shown until the source has given all again that it had, for an hour at most.",
        ),
        Standing::SetAside => append(
            text,
            b"64 votes of a source were not good: it is another committee's log, another replica's, or a liar's. Compare the chain id below with the other operators' and the word of the source with the committee's file.",
        ),
        Standing::Beyond => append(
            text,
            b"A source went back so often that it gave a fifth log, which is not read: what stands in it, this watch does not see. Ask the replica's operator what happened, and audit that log with hs_tool audit.",
        ),
        Standing::BadVotes => append(
            text,
            b"A log of a correct replica has no vote that is not good: this one is of another committee, or of another replica than its word says. Compare the chain id below with the other operators' and the word of the source with the committee's file.",
        ),
        Standing::NotStored => append(
            text,
            b"The disk of this watch is full, or has as much as it may hold, or a file stands where one is to be. The verdicts below can be fetched from this page.",
        ),
        Standing::ReadingKept => append(
            text,
            b"This watch has begun again, and reads what it kept before it asks a source. What it knew is shown once all of it was read.",
        ),
        Standing::NothingRead => append(
            text,
            b"No replica hands out its log to this watch. See whether this machine has a network, and whether the servers of the logs run.",
        ),
        Standing::SomeAnswer => append(
            text,
            b"Ask the operators of the sources that do not answer. What they hide from this watch, it cannot see.",
        ),
        Standing::Unwatched => append(
            text,
            b"Name a source for each replica of the committee. Of those that are not watched this watch sees only what the logs of others show.",
        ),
        Standing::AllAnswer => append(
            text,
            b"Each source answers this watch. With the file of another committee it would find nothing: compare the chain id below.",
        ),
    }
}
