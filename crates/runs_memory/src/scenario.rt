//! The scenarios, by their names.

use crate::closing::{HandedIn, close_desk};
use crate::delivering::{After, run_stays};
use crate::fetching::fetch_in_two;
use crate::outcome::Outcome;
use base_streams::Sink;
use std::sync::Wait;
use std::thread::Threads;

/// What is run.
#[derive(Clone, Copy)]
pub(crate) enum Scenario {
    /// The worked run by `deliver`, where each call that is refused memory is made again.
    Deliver,
    /// The same, where the desk is closed at the first call that is refused memory.
    Leave,
    /// A `fetch` that resumes.
    Fetch,
    /// `close` with all sessions.
    Close,
    /// `close` where a session is kept back.
    Withhold,
}

/// All scenarios.
pub(crate) const SCENARIOS: [Scenario; 5] = [
    Scenario::Deliver,
    Scenario::Leave,
    Scenario::Fetch,
    Scenario::Close,
    Scenario::Withhold,
];

impl Scenario {
    /// The word that names it.
    pub fn name(self) -> &'static str {
        match self {
            Scenario::Deliver => "deliver",
            Scenario::Leave => "leave",
            Scenario::Fetch => "fetch",
            Scenario::Close => "close",
            Scenario::Withhold => "withhold",
        }
    }

    /// The scenario that a word names.
    pub fn named(word: &str) -> Option<Scenario> {
        for scenario in SCENARIOS {
            if scenario.name() == word {
                return Some(scenario);
            }
        }
        None
    }
}

/// Runs a scenario, and says on the stage when it is set up.
pub(crate) fn run<R: Threads + Wait + Sync + AllocGlobal, W: Sink>(
    rt: &R,
    scenario: Scenario,
    stage: &mut W,
) -> Outcome {
    match scenario {
        Scenario::Deliver => run_stays(rt, After::Again, stage),
        Scenario::Leave => run_stays(rt, After::Leave, stage),
        Scenario::Fetch => fetch_in_two(rt, stage),
        Scenario::Close => close_desk(rt, HandedIn::All, stage),
        Scenario::Withhold => close_desk(rt, HandedIn::AllButOne, stage),
    }
}
