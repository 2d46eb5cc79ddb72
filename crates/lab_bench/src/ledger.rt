//! The ledgers.

use crate::chain::{Certified, Votes, block_on};
use crate::export::{Export, certificate};
use crate::keys::Keys;
use crate::plan::{BRANCH, Kind, LOG_ENTRIES, Plan};
use blocks::{CommitteeView, NamedHeader};
use certificates::SignedVote;
use parallel_verify::SourceText;
use std::alloc::Global;
use std::io;
use std::thread::Threads;

/// What came as logs of a committee's replicas.
#[derive(Drop)]
pub(crate) struct Ledger {
    pub logs: Vec<SourceText>,
    /// How many different votes in it are not good.
    pub bad_votes: usize,
    /// Some votes of it, or like those in it.
    pub sample: Vec<SignedVote>,
}

/// Where ledgers are made.
#[derive(Drop)]
pub(crate) struct Site<'a, R> {
    rt: &'a R,
    alloc: Global,
    keys: &'a Keys,
    pub committee: CommitteeView<'a>,
}

/// Blocks of one chain, each on the one before, and the votes for them.
#[derive(Drop)]
struct Stretch {
    blocks: Vec<Certified>,
    votes: Votes,
}

impl Stretch {
    // Adds the entries of a replica for these blocks, of which the first stands on `base`.
    fn put(&self, base: &Certified, replica: u16, export: &mut Export) -> io::Result<()> {
        let mut parent = base;
        for (next, vote) in self.blocks.iter().zip(self.votes.of(replica)) {
            export.put_entry(
                next.block.header(),
                parent.block.header(),
                vote,
                &parent.certificate,
            )?;
            parent = next;
        }
        Ok(())
    }
}

// A part of a chain, and what its first block stands on.
type Part<'a> = (&'a Certified, &'a Stretch);

fn refused() -> io::Error {
    io::Error::from(io::ErrorKind::InvalidInput)
}

// What is sent as the log of a replica.
fn log_of(replica: u16, export: Export) -> io::Result<SourceText> {
    Ok(SourceText {
        replica,
        text: export.end()?,
    })
}

// The log of a replica that votes for these parts of a chain.
fn log_along<'b>(alloc: Global, replica: u16, parts: &'b [Part<'b>]) -> io::Result<SourceText> {
    let mut export = Export::new(alloc)?;
    for (base, stretch) in parts {
        stretch.put(base, replica, &mut export)?;
    }
    log_of(replica, export)
}

impl<'a, R: Threads + Sync> Site<'a, R> {
    pub fn of(rt: &'a R, alloc: Global, keys: &'a Keys) -> io::Result<Site<'a, R>> {
        let Ok(committee) = CommitteeView::parse(&keys.committee) else {
            return Err(refused());
        };
        Ok(Site {
            rt,
            alloc,
            keys,
            committee,
        })
    }

    // How many replicas make a quorum: they are 3f + 1, and count once.
    fn quorum(&self) -> u16 {
        let n = self.committee.n();
        n - n / 3
    }

    /// The planned ledger.
    pub fn ledger(&self, plan: Plan) -> io::Result<Ledger> {
        match plan.kind {
            Kind::Honest => self.honest(plan.blocks),
            Kind::Forked => self.forked(plan.blocks),
            Kind::Flat => self.flat(plan.blocks),
            Kind::Copied => self.copied(plan.blocks),
        }
    }

    fn genesis(&self) -> io::Result<Certified> {
        let block = NamedHeader::of(self.committee.genesis());
        Ok(Certified {
            certificate: certificate(self.alloc, &block, &[])?,
            block,
        })
    }

    // So many blocks from a view on, the first on `base`, and the others on it, too, or each on the one before.
    fn blocks_on(
        &self,
        base: &NamedHeader,
        first_view: u64,
        count: u16,
        is_chain: bool,
    ) -> io::Result<Vec<NamedHeader>> {
        let mut headers = Vec::new(self.alloc);
        let mut parent = *base;
        for view in (first_view..u64::MAX).take(usize::from(count)) {
            let Some(block) = block_on(&parent, view) else {
                return Err(refused());
            };
            headers.push(block)?;
            if is_chain {
                parent = block;
            }
        }
        Ok(headers)
    }

    // These blocks, with certificates that a quorum from a replica on signs.
    fn certified(
        &self,
        headers: &[NamedHeader],
        votes: &Votes,
        first_signer: u16,
    ) -> io::Result<Vec<Certified>> {
        let quorum = self.quorum();
        let mut blocks = Vec::new(self.alloc);
        for (place, block) in headers.iter().enumerate() {
            let certificate = votes.certificate(self.alloc, block, place, first_signer, quorum)?;
            blocks.push(Certified {
                block: *block,
                certificate,
            })?;
        }
        Ok(blocks)
    }

    // So many blocks from a view on, the first on `base`. Those who sign their certificates are a quorum from a replica on.
    fn stretch(
        &self,
        base: &Certified,
        first_view: u64,
        count: u16,
        first_signer: u16,
    ) -> io::Result<Stretch> {
        let headers = self.blocks_on(&base.block, first_view, count, true)?;
        let votes = self.votes(self.keys.trees.len(), &headers)?;
        let blocks = self.certified(&headers, &votes, first_signer)?;
        Ok(Stretch { blocks, votes })
    }

    // The votes of the first `signers` replicas for these blocks.
    fn votes(&self, signers: usize, blocks: &[NamedHeader]) -> io::Result<Votes> {
        let trees = self.keys.trees.as_slice();
        let trees = trees.get(..signers).unwrap_or(trees);
        Votes::sign(self.rt, self.alloc, trees, self.committee.chain(), blocks)
    }

    // The logs of all replicas. Those of the first quorum have votes for `first`, the others for `others`.
    fn logs<'b>(
        &self,
        first: &'b [Part<'b>],
        others: &'b [Part<'b>],
    ) -> io::Result<Vec<SourceText>> {
        let mut logs = Vec::new(self.alloc);
        for replica in 0..self.committee.n() {
            let parts = if replica < self.quorum() {
                first
            } else {
                others
            };
            logs.push(log_along(self.alloc, replica, parts)?)?;
        }
        Ok(logs)
    }

    // These logs, in which so many votes are not good.
    fn made(
        &self,
        logs: Vec<SourceText>,
        bad_votes: u16,
        sample: &[SignedVote],
    ) -> io::Result<Ledger> {
        Ok(Ledger {
            logs,
            bad_votes: usize::from(bad_votes),
            sample: sample.to_vec(self.alloc)?,
        })
    }

    // All replicas vote for all blocks of one chain, and send the same entries but for their own votes.
    fn honest(&self, blocks: u16) -> io::Result<Ledger> {
        let genesis = self.genesis()?;
        let trunk = self.stretch(&genesis, 1, blocks, 0)?;
        let parts = [(&genesis, &trunk)];
        let logs = self.logs(&parts, &parts)?;
        self.made(logs, 0, trunk.votes.of(0))
    }

    // The first 2f + 1 replicas vote for the one branch and the last 2f + 1 for the other, so that f + 1 vote for both. These
    // send the log of the first branch alone.
    fn forked(&self, blocks: u16) -> io::Result<Ledger> {
        let genesis = self.genesis()?;
        let trunk = self.stretch(&genesis, 1, blocks, 0)?;
        let fork = trunk.blocks.last().unwrap_or(&genesis);
        let view = u64::from(blocks) + 1;
        let left = self.stretch(fork, view, BRANCH, 0)?;
        let faulty = self.committee.n() / 3;
        let right = self.stretch(fork, view + u64::from(BRANCH), BRANCH, faulty)?;
        let logs = self.logs(
            &[(&genesis, &trunk), (fork, &left)],
            &[(&genesis, &trunk), (fork, &right)],
        )?;
        self.made(logs, 0, trunk.votes.of(0))
    }

    // The log of replica 0 that has its votes for these blocks on one parent so often.
    fn votes_on(
        &self,
        parent: &Certified,
        blocks: &[NamedHeader],
        votes: &[SignedVote],
        times: u16,
    ) -> io::Result<SourceText> {
        let mut export = Export::new(self.alloc)?;
        let header = parent.block.header();
        for _ in 0..times {
            for (block, vote) in blocks.iter().zip(votes) {
                export.put_entry(block.header(), header, vote, &parent.certificate)?;
            }
        }
        log_of(0, export)
    }

    // Replica 0 votes for one block on genesis in each view, and hands out full logs, of which the last may be shorter.
    fn flat(&self, blocks: u16) -> io::Result<Ledger> {
        let genesis = self.genesis()?;
        let headers = self.blocks_on(&genesis.block, 1, blocks, false)?;
        let votes = self.votes(1, &headers)?;
        let votes = votes.of(0);
        let mut logs = Vec::new(self.alloc);
        let entries = usize::from(LOG_ENTRIES);
        for (blocks, votes) in headers.chunks(entries).zip(votes.chunks(entries)) {
            logs.push(self.votes_on(&genesis, blocks, votes, 1)?)?;
        }
        self.made(logs, 0, votes)
    }

    // An entry whose certificate on block 1 has the signatures that a quorum made for block 2, so often.
    fn copied(&self, copies: u16) -> io::Result<Ledger> {
        let genesis = self.genesis()?;
        let Stretch { blocks, votes } = self.stretch(&genesis, 1, 2, 0)?;
        let ([first, second], [_, vote]) = (blocks.as_slice(), votes.of(0)) else {
            return Err(refused());
        };
        let quorum = self.quorum();
        let bad = Certified {
            block: first.block,
            certificate: votes.certificate(self.alloc, &first.block, 1, 0, quorum)?,
        };
        let mut logs = Vec::new(self.alloc);
        logs.push(self.votes_on(&bad, &[second.block], &[*vote], copies)?)?;
        self.made(logs, quorum, votes.of(0))
    }
}
