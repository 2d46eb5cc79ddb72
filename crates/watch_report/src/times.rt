//! How old what was seen may be.

ghost use Rattle.std.specs.Prelude.{◌≡◌};
ghost use Rattle.watch_report.specs.Times.{is_late, is_old_round, lasts_back, patience_of};

/// How old a round may be, in seconds: a watch has one at least each half second, however seldom it asks its sources.
const MOST_OF_A_ROUND: u64 = 30;

/// How many seconds a source is shown as one that went back, where it does not give what it had again.
const MOST_BACK: u64 = 3_600;

/// How many seconds may lie between two answers of a source that is asked again after so many milliseconds: 30, and twice that.
#[tactic(auto, unfolding(crate::specs::Times::patience_of))]
pub fn patience_of(every: u32) -> u64
    ensures { result ≡ patience_of every }
{
    30 + (2 * u64::from(every) + 999) / 1_000
}

/// Whether an answer of one second is older at another one than answers may be, at this `every`.
pub fn is_late(since: u64, every: u32, second: u64) -> bool
    ensures { result ≡ is_late since every second }
{
    second.saturating_sub(since) > patience_of(every)
}

/// Whether the round of one second is older at another one than a watch's last round may be.
pub fn is_old_round(stamped: u64, second: u64) -> bool
    ensures { result ≡ is_old_round stamped second }
{
    second.saturating_sub(stamped) > MOST_OF_A_ROUND
}

/// Whether a source that went back at one second is still shown as one that did at another.
pub fn lasts_back(since: u64, second: u64) -> bool
    ensures { result ≡ lasts_back since second }
{
    second.saturating_sub(since) < MOST_BACK
}
