//! What came in a run, counted.

use crate::desk_model::Outcome;
use replica_core::CoreRefusal;
use std::io;
use vote_desk::DeskError;

/// How often each came.
#[derive(Clone, Copy)]
pub(crate) struct Counts {
    pub deliveries: u64,
    pub timeouts: u64,
    pub restarts: u64,
    pub crashes: u64,
    pub votes: u64,
    pub raised: u64,
    pub held: u64,
    pub unknown_parents: u64,
    pub parent_views: u64,
    pub key_spent: u64,
    pub device: u64,
    pub stopped: u64,
    pub other_refusals: u64,
    pub failed_recoveries: u64,
    /// Entries and reservations that were found after a restart though their deliveries had failed.
    pub found: u64,
    pub rounds: u64,
    /// Keys of replica 0 in all rounds.
    pub keys: u64,
    /// Votes that were released under a later key than that which their round began under.
    pub beyond: u64,
    /// Votes in the logs at the ends of the rounds.
    pub stored_votes: u64,
    pub commits: u64,
    /// Replicas that broke a rule in a round, as its audit reported.
    pub culprits: u64,
}

pub(crate) fn one_more(count: &mut u64) {
    *count = count.saturating_add(1);
}

impl Counts {
    pub const NONE: Counts = Counts {
        deliveries: 0,
        timeouts: 0,
        restarts: 0,
        crashes: 0,
        votes: 0,
        raised: 0,
        held: 0,
        unknown_parents: 0,
        parent_views: 0,
        key_spent: 0,
        device: 0,
        stopped: 0,
        other_refusals: 0,
        failed_recoveries: 0,
        found: 0,
        rounds: 0,
        keys: 0,
        beyond: 0,
        stored_votes: 0,
        commits: 0,
        culprits: 0,
    };

    /// Counts an answer to a delivery.
    pub fn answer(&mut self, outcome: &Outcome) {
        one_more(&mut self.deliveries);
        let count = match outcome {
            Outcome::Voted { .. } => &mut self.votes,
            Outcome::Raised => &mut self.raised,
            Outcome::Held => &mut self.held,
            Outcome::Refused(DeskError::Core(CoreRefusal::UnknownParent)) => {
                &mut self.unknown_parents
            }
            Outcome::Refused(DeskError::Core(CoreRefusal::ParentView)) => &mut self.parent_views,
            Outcome::Refused(DeskError::KeySpent) => &mut self.key_spent,
            Outcome::Refused(DeskError::Device) => &mut self.device,
            Outcome::Refused(DeskError::Stopped) => &mut self.stopped,
            Outcome::Refused(_) => &mut self.other_refusals,
        };
        one_more(count);
    }

    /// Prints them.
    pub fn print<R: Print>(&self, rt: &R) -> io::Result<()> {
        let lines: [&[(&str, u64)]; 6] = [
            &[
                ("operations: deliveries", self.deliveries),
                (" timeouts", self.timeouts),
                (" restarts", self.restarts),
                (" crashes", self.crashes),
            ],
            &[
                ("answers: voted", self.votes),
                (" raised", self.raised),
                (" held", self.held),
                (" unknown parent", self.unknown_parents),
                (" parent view", self.parent_views),
            ],
            &[
                ("answers: key spent", self.key_spent),
                (" device", self.device),
                (" stopped", self.stopped),
                (" other", self.other_refusals),
            ],
            &[
                ("recoveries that failed first", self.failed_recoveries),
                (", stored though the delivery failed", self.found),
            ],
            &[
                ("rounds", self.rounds),
                (": keys", self.keys),
                (" votes", self.stored_votes),
                (" commits", self.commits),
                (" culprits", self.culprits),
            ],
            &[(
                "voted under a later key than the round's first",
                self.beyond,
            )],
        ];
        for line in lines {
            print_line(rt, line)?;
        }
        Ok(())
    }
}

// A line of counts, each behind its words.
fn print_line<R: Print>(rt: &R, counts: &[(&str, u64)]) -> io::Result<()> {
    for (words, count) in counts {
        print!(rt; "{words} {count}")?;
    }
    println!(rt; "")
}
