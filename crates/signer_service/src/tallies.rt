//! How often each answer was told.

ghost use Rattle.std.specs.Prelude.{◌≡◌};
ghost use Rattle.base_streams.specs.Counting.{one_more};
ghost use Rattle.signer_service.specs.Tallies.{after_answer, after_block, after_not_mine, after_outcome, after_refusal, after_told, new_numbers};

use replica_requests::Outcome;
use signer_answers::Told;
use signer_calls::CallRefusal;
use std::sync::{Mutex, Wait};
use vote_desk::{Answer, DeskError};

/// How often each answer was told since the start. A number that has reached 2^64 - 1 stays.
#[derive(Clone, Copy, Debug, PartialEq, Eq)]
pub struct Numbers {
    /// When the process began, in seconds since 1970.
    pub started: u64,
    pub voted: u64,
    pub raised: u64,
    /// .. and the votes that were told again.
    pub held: u64,
    pub timeouts: u64,
    pub refused_headers: u64,
    pub refused_certificates: u64,
    pub refused_blocks: u64,
    pub refused_by_core: u64,
    /// .. and why no block or timeout was taken, or a block was not delivered since the log can't be read.
    pub refused_by_desk: u64,
    pub no_such_calls: u64,
    pub wrong_methods: u64,
    pub bad_numbers: u64,
    pub bad_hosts: u64,
    pub origins: u64,
    pub bad_content_types: u64,
    pub far: u64,
    pub no_votes: u64,
    pub bad_targets: u64,
    pub not_held: u64,
    pub bad_lengths: u64,
    pub other_chains: u64,
    /// Committees that were shown, or named by a call to go over, in which the replica has keys that are not its own.
    pub not_mine: u64,
    /// How many blocks were answered, and in how many microseconds.
    pub blocks: u64,
    pub block_micros: u64,
}

impl Numbers {
    // Nothing was told.
    fn new(started: u64) -> Numbers
        ensures { result ≡ new_numbers started }
    {
        Numbers {
            started,
            voted: 0,
            raised: 0,
            held: 0,
            timeouts: 0,
            refused_headers: 0,
            refused_certificates: 0,
            refused_blocks: 0,
            refused_by_core: 0,
            refused_by_desk: 0,
            no_such_calls: 0,
            wrong_methods: 0,
            bad_numbers: 0,
            bad_hosts: 0,
            origins: 0,
            bad_content_types: 0,
            far: 0,
            no_votes: 0,
            bad_targets: 0,
            not_held: 0,
            bad_lengths: 0,
            other_chains: 0,
            not_mine: 0,
            blocks: 0,
            block_micros: 0,
        }
    }

    fn count_told(&mut self, told: &Told)
        ensures { self.new ≡ after_told self.old told.now }
    {
        match told {
            Told::Came(outcome) => self.count_outcome(outcome),
            Told::Again(_, _) => self.count_answer(&Answer::Held),
            _ => self.refused_by_desk = one_more(self.refused_by_desk),
        }
    }

    fn count_outcome(&mut self, outcome: &Outcome)
        ensures { self.new ≡ after_outcome self.old outcome.now }
    {
        match outcome {
            Outcome::Replied(reply) => self.count_answer(&reply.act),
            Outcome::TimedOut(_) => self.timeouts = one_more(self.timeouts),
            Outcome::RefusedHeader(_) => self.refused_headers = one_more(self.refused_headers),
            Outcome::RefusedCertificate(_) => {
                self.refused_certificates = one_more(self.refused_certificates);
            }
            Outcome::RefusedBlock(_) => self.refused_blocks = one_more(self.refused_blocks),
            Outcome::RefusedByDesk(DeskError::Core(_)) => {
                self.refused_by_core = one_more(self.refused_by_core);
            }
            Outcome::RefusedByDesk(_) => self.refused_by_desk = one_more(self.refused_by_desk),
        }
    }

    fn count_answer(&mut self, answer: &Answer)
        ensures { self.new ≡ after_answer self.old answer.now }
    {
        match answer {
            Answer::Voted(_) => self.voted = one_more(self.voted),
            Answer::Raised => self.raised = one_more(self.raised),
            Answer::Held => self.held = one_more(self.held),
        }
    }

    fn count_refusal(&mut self, refusal: CallRefusal)
        ensures { self.new ≡ after_refusal self.old refusal }
    {
        match refusal {
            CallRefusal::NoSuchCall => self.no_such_calls = one_more(self.no_such_calls),
            CallRefusal::Method(_) => self.wrong_methods = one_more(self.wrong_methods),
            CallRefusal::Number => self.bad_numbers = one_more(self.bad_numbers),
            CallRefusal::Host => self.bad_hosts = one_more(self.bad_hosts),
            CallRefusal::Origin => self.origins = one_more(self.origins),
            CallRefusal::ContentType => self.bad_content_types = one_more(self.bad_content_types),
            CallRefusal::Far => self.far = one_more(self.far),
            CallRefusal::NoVote => self.no_votes = one_more(self.no_votes),
            CallRefusal::Target => self.bad_targets = one_more(self.bad_targets),
            CallRefusal::NotHeld => self.not_held = one_more(self.not_held),
            CallRefusal::Length => self.bad_lengths = one_more(self.bad_lengths),
            CallRefusal::Chain => self.other_chains = one_more(self.other_chains),
        }
    }

    fn count_not_mine(&mut self)
        ensures { self.new ≡ after_not_mine self.old }
    {
        self.not_mine = one_more(self.not_mine);
    }

    fn count_block(&mut self, micros: u64)
        ensures { self.new ≡ after_block self.old micros }
    {
        self.blocks = one_more(self.blocks);
        self.block_micros = self.block_micros.saturating_add(micros);
    }
}

fn one_more(number: u64) -> u64
    ensures { result ≡ one_more number }
{
    number.saturating_add(1)
}

/// What the callers of one desk were told: one value for all of them.
#[derive(Drop)]
pub struct Tallies {
    numbers: Mutex<Numbers>,
}

impl Tallies {
    /// Nothing was told yet, by a process that began so many seconds after 1970.
    pub fn new(started: u64) -> Tallies {
        Tallies {
            numbers: Mutex::new(Numbers::new(started)),
        }
    }

    /// How often each answer was told.
    pub fn numbers<R: Wait>(&self, rt: &R) -> Numbers {
        let numbers = self.numbers.lock(rt);
        *numbers
    }

    // Counts what was told of a block or a timeout.
    pub(crate) fn count_told<R: Wait>(&self, rt: &R, told: &Told) {
        let mut numbers = self.numbers.lock(rt);
        let numbers = &mut *numbers;
        numbers.count_told(told);
    }

    pub(crate) fn count_refusal<R: Wait>(&self, rt: &R, refusal: CallRefusal) {
        let mut numbers = self.numbers.lock(rt);
        let numbers = &mut *numbers;
        numbers.count_refusal(refusal);
    }

    pub(crate) fn count_not_mine<R: Wait>(&self, rt: &R) {
        let mut numbers = self.numbers.lock(rt);
        let numbers = &mut *numbers;
        numbers.count_not_mine();
    }

    pub(crate) fn count_block<R: Wait>(&self, rt: &R, micros: u64) {
        let mut numbers = self.numbers.lock(rt);
        let numbers = &mut *numbers;
        numbers.count_block(micros);
    }
}
