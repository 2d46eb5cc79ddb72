//! The signatures of a certificate, checked before its block is judged.

ghost use Rattle.certificates.specs.Votes.{IsGoodVote};

use crate::claim::{Claim, GoodVote};
use crate::known::Known;
use crate::memory::GoodVotes;
use blocks::CommitteeView;
use certificates::{Certificate, LmsVerifier, SignedVote};
use std::alloc::{AllocError, Global};
use std::sync::Wait;
use std::thread;
use std::thread::{JoinHandle, Threads};

/// How the signatures of what callers hand in are checked. Whatever it does, an answer is that of each signature's check.
pub trait Checker {
    /// The votes of a certificate that are known to be good before its block is judged. What is not among them is checked then,
    /// one after the other.
    fn check_ahead(
        &self,
        alloc: Global,
        committee: &CommitteeView,
        certificate: &Certificate,
    ) -> Known;

    /// A vote was found good.
    fn found(&self, committee: &CommitteeView, vote: &SignedVote)
        requires { IsGoodVote committee.now vote.now };
}

/// Checks one signature after the other, and remembers none.
impl Checker for LmsVerifier {
    fn check_ahead(
        &self,
        alloc: Global,
        _committee: &CommitteeView,
        _certificate: &Certificate,
    ) -> Known {
        Known::new(alloc)
    }

    fn found(&self, _committee: &CommitteeView, _vote: &SignedVote) {}
}

/// Checks the signatures of a certificate side by side, but for those that are remembered, and remembers the good ones.
#[derive(Drop)]
pub struct SideBySide<'a, R: Threads + Wait> {
    rt: &'a R,
    good: &'a GoodVotes,
    threads: usize,
}

impl<'a, R: Threads + Wait> SideBySide<'a, R> {
    /// In as many threads as there are processors, over the votes that all callers of a desk share.
    pub fn new(rt: &'a R, good: &'a GoodVotes) -> SideBySide<'a, R> {
        let threads = match thread::available_parallelism(rt) {
            Ok(threads) => threads.get(),
            Err(_) => 1,
        };
        SideBySide { rt, good, threads }
    }

    // The votes of a certificate that are good.
    fn known_of(
        &self,
        alloc: Global,
        committee: &CommitteeView,
        certificate: &Certificate,
    ) -> Result<Known, AllocError> {
        let mut known = Known::new(alloc);
        let mut unknown = Vec::new(alloc);
        for claim in claims_of(alloc, committee, certificate)? {
            if self.good.remembers(self.rt, &claim) {
                known.add(GoodVote::of(claim))?;
            } else {
                unknown.push(claim)?;
            }
        }
        self.check_all(alloc, piles_of(alloc, &unknown, self.threads)?, &mut known);
        Ok(known)
    }

    // Checks the last pile in this thread, and each other in a thread of its own. Each thread is joined.
    fn check_all(&self, alloc: Global, piles: Vec<Vec<Claim>>, known: &mut Known) {
        let mut piles = piles;
        let own = piles.pop();
        let mut runs = Vec::new(alloc);
        for pile in piles {
            if let Err(refused) = runs.push(start(self.rt, alloc, pile)) {
                self.keep(known, refused.value.join(self.rt));
            }
        }
        if let Some(own) = own {
            self.keep(known, good_of(alloc, own));
        }
        for run in runs {
            self.keep(known, run.join(self.rt));
        }
    }

    // What is not kept is checked again.
    fn keep(&self, known: &mut Known, votes: Vec<GoodVote>) {
        for vote in votes {
            self.good.remember(self.rt, vote.again());
            let _ = known.add(vote);
        }
    }
}

impl<'a, R: Threads + Wait> Checker for SideBySide<'a, R> {
    fn check_ahead(
        &self,
        alloc: Global,
        committee: &CommitteeView,
        certificate: &Certificate,
    ) -> Known {
        match self.known_of(alloc, committee, certificate) {
            Ok(known) => known,
            Err(_) => Known::new(alloc),
        }
    }

    fn found(&self, committee: &CommitteeView, vote: &SignedVote) {
        if let Some(claim) = Claim::of(committee, vote) {
            self.good.remember(self.rt, GoodVote::of(claim));
        }
    }
}

// A pile that is checked in a thread, or was checked where none could be made.
#[derive(Drop)]
enum Run {
    Thread(JoinHandle<Vec<GoodVote>>),
    Done(Vec<GoodVote>),
}

impl Run {
    fn join<R: Threads>(self, rt: &R) -> Vec<GoodVote> {
        match self {
            Run::Thread(handle) => handle.join(rt),
            Run::Done(votes) => votes,
        }
    }
}

fn start<R: Threads>(rt: &R, alloc: Global, pile: Vec<Claim>) -> Run {
    match thread::spawn(rt, move || good_of(alloc, pile)) {
        Ok(handle) => Run::Thread(handle),
        Err(refused) => Run::Done((refused.value)()),
    }
}

// The claims that are good, as far as there is memory for them.
fn good_of(alloc: Global, pile: Vec<Claim>) -> Vec<GoodVote> {
    let mut good = Vec::new(alloc);
    for claim in pile {
        if let Some(vote) = claim.check() {
            let _ = good.push(vote);
        }
    }
    good
}

// The claims in so many piles of about the same size, at the most.
fn piles_of(
    alloc: Global,
    claims: &[Claim],
    threads: usize,
) -> Result<Vec<Vec<Claim>>, AllocError> {
    let size = claims.len().div_ceil(threads.max(1)).max(1);
    let mut piles = Vec::new(alloc);
    for pile in claims.chunks(size) {
        piles.push(pile.to_vec(alloc)?)?;
    }
    Ok(piles)
}

// What the votes of a certificate claim: none where it cannot be good, since a replica or a key is not known or the votes are
// too few, so that nothing is checked in vain.
fn claims_of(
    alloc: Global,
    committee: &CommitteeView,
    certificate: &Certificate,
) -> Result<Vec<Claim>, AllocError> {
    let mut claims = Vec::new(alloc);
    let mut weight = 0;
    for k in 0..certificate.count() {
        let vote = certificate.vote(k);
        let Some(claim) = Claim::of(committee, &vote) else {
            return Ok(Vec::new(alloc));
        };
        weight = u64::from(committee.weight(vote.replica)).saturating_add(weight);
        claims.push(claim)?;
    }
    if weight < committee.quorum() {
        return Ok(Vec::new(alloc));
    }
    Ok(claims)
}
