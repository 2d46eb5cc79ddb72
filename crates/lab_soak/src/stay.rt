//! One stay of a replica at its desk.

ghost use Rattle.std.specs.Prelude.{◌≡◌};

use crate::choosing::{Operation, choose};
use crate::counts::one_more;
use crate::desk_model::{Expected, Outcome};
use crate::failure::{Failure, same};
use crate::keys::Signers;
use crate::model::Model;
use crate::round::{Round, Run};
use crate::tree::BlockTree;
use blocks::CommitteeView;
use replica_core::Core;
use stable_log::MemoryDisk;
use std::alloc::Global;
use std::marker::Brand;
use std::sync::Wait;
use std::sync::ledger::Blank;
use vote_desk::{Answer, Desk, DeskError, DeskNaming, Parts, Receipt, Reply, Session};

/// What is the same in all stays of a round.
#[derive(Clone, Copy)]
pub(crate) struct Site<'a> {
    pub alloc: Global,
    pub committee: &'a CommitteeView<'a>,
    pub signers: &'a Signers,
}

// The index under which the receipt's vote is signed, of its key.
fn index_of(receipt: &Receipt) -> u32 {
    let [a, b, c, d, ..] = receipt.vote.signature;
    u32::from_be_bytes([a, b, c, d])
}

fn outcome_of(act: &Answer) -> Outcome {
    match act {
        Answer::Voted(receipt) => Outcome::Voted {
            entry: receipt.number as usize,
            key: receipt.vote.key,
            index: index_of(receipt),
        },
        Answer::Raised => Outcome::Raised,
        Answer::Held => Outcome::Held,
    }
}

fn answered(tree: &BlockTree, reply: &Result<Reply, DeskError>) -> Expected {
    match reply {
        Ok(reply) => Expected {
            outcome: outcome_of(&reply.act),
            committed: match reply.committed {
                Some(id) => Some(tree.number_of(&id).unwrap_or(usize::MAX)),
                None => None,
            },
        },
        Err(refusal) => Expected {
            outcome: Outcome::Refused(*refusal),
            committed: None,
        },
    }
}

// Keeps what was answered.
fn keep(round: &mut Round, reply: &Result<Reply, DeskError>) -> Result<(), Failure> {
    match reply {
        Ok(reply) => {
            if let Answer::Voted(receipt) = reply.act {
                round.release(receipt)?;
            }
        }
        Err(DeskError::KeySpent) => round.spent = round.spent.saturating_add(1),
        Err(_) => {}
    }
    Ok(())
}

// What a desk answers to a block.
fn reply_to<N: DeskNaming, R: Wait>(
    rt: &R,
    alloc: Global,
    desk: &Desk<N, MemoryDisk>,
    session: &mut Session<N>,
    committee: &CommitteeView,
    tree: &BlockTree,
    block: usize,
) -> Result<Result<Reply, DeskError>, Failure>
    requires { committee.now ≡ N.committee }
{
    let checked = tree.checked(alloc, committee, block)?;
    Ok(desk.deliver(rt, session, checked))
}

// A block was delivered and has this reply, which is to be as the model says.
fn compare(
    alloc: Global,
    round: &mut Round,
    run: &mut Run,
    block: usize,
    reply: &Result<Reply, DeskError>,
) -> Result<(), Failure> {
    let want = round.desk.deliver(&round.tree, block)?;
    let got = answered(&round.tree, reply);
    run.counts.answer(&got.outcome);
    same(alloc, "a delivery", &want, &got)?;
    keep(round, reply)
}

// Gives up on views.
fn time_out<N: DeskNaming, R: Wait>(
    rt: &R,
    alloc: Global,
    desk: &Desk<N, MemoryDisk>,
    round: &mut Round,
    run: &mut Run,
    view: u64,
) -> Result<(), Failure> {
    one_more(&mut run.counts.timeouts);
    let got = desk.timeout(rt, view);
    let want = round.desk.time_out(view);
    same(alloc, "a timeout", &want, &got)
}

// One operation on a desk. Answers whether it leaves the desk.
fn work_once<N: DeskNaming, R: Wait>(
    rt: &R,
    site: Site,
    desk: &Desk<N, MemoryDisk>,
    session: &mut Session<N>,
    round: &mut Round,
    run: &mut Run,
) -> Result<bool, Failure>
    requires { site.committee.now ≡ N.committee }
{
    let Site {
        alloc,
        committee,
        signers,
    } = site;
    match choose(alloc, signers, round, run)? {
        Operation::Deliver(block) => {
            let reply = reply_to(rt, alloc, desk, session, committee, &round.tree, block)?;
            compare(alloc, round, run, block, &reply)?;
            Ok(false)
        }
        Operation::TimeOut(view) => {
            time_out(rt, alloc, desk, round, run, view)?;
            Ok(false)
        }
        Operation::Leave => Ok(true),
    }
}

// Operations on a desk, up to one that leaves it, or to the round's end.
fn work<N: DeskNaming, R: Wait>(
    rt: &R,
    site: Site,
    desk: &Desk<N, MemoryDisk>,
    session: &mut Session<N>,
    round: &mut Round,
    run: &mut Run,
) -> Result<(), Failure>
    requires { site.committee.now ≡ N.committee }
{
    for _ in 0..u64::MAX {
        if round.is_over(run) {
            break;
        }
        run.left = run.left.saturating_sub(1);
        if work_once(rt, site, desk, session, round, run)? {
            break;
        }
    }
    Ok(())
}

// Whether a core holds the same blocks as the model.
fn holds_alike(tree: &BlockTree, replica: &Model, core: &Core) -> bool {
    for number in 0..tree.count() {
        if core.holds(&tree.block(number).id) != replica.holds(number) {
            return false;
        }
    }
    true
}

// A core has the model's views, and its lock.
fn judge_state(
    alloc: Global,
    tree: &BlockTree,
    replica: &Model,
    core: &Core,
) -> Result<(), Failure> {
    let views = [replica.vote_view, replica.stored_vote_view];
    let got = [core.vote_view(), core.stored_vote_view()];
    same(alloc, "the vote view and the stored one", &views, &got)?;
    let lock = tree.number_of(&core.lock().id);
    same(alloc, "the lock", &Some(replica.lock), &lock)
}

// The core that a desk leaves has the model's state, and holds the same blocks.
fn judge(alloc: Global, round: &Round, core: &Core) -> Result<(), Failure> {
    let replica = &round.desk.replica;
    judge_state(alloc, &round.tree, replica, core)?;
    if !holds_alike(&round.tree, replica, core) {
        return Err(Failure::Refused("a core holds the blocks of the model"));
    }
    Ok(())
}

// A desk is closed, and leaves what the model says.
fn closes<N: DeskNaming>(
    alloc: Global,
    desk: Desk<N, MemoryDisk>,
    sessions: Vec<Session<N>>,
    round: &Round,
) -> Result<Parts<MemoryDisk>, Failure> {
    match desk.close(alloc, sessions) {
        Ok(closed) => {
            judge(alloc, round, &closed.core)?;
            Ok(closed.parts)
        }
        Err(_) => Err(Failure::Refused("a desk is closed")),
    }
}

// A desk is opened with one session and closed again, with work in between.
fn works<N: DeskNaming, R: Wait>(
    rt: &R,
    blank: Blank,
    site: Site,
    parts: Parts<MemoryDisk>,
    round: &mut Round,
    run: &mut Run,
) -> Result<Parts<MemoryDisk>, Failure>
    requires name { blank.name ≡ N.name }
    requires ledger { (blank.parts ≡ N.parts) × (N.parts ≡ 1) }
    requires committee { site.committee.now ≡ N.committee }
    requires replica { 0 ≡ N.replica }
    requires opening { parts.log.steps ≡ N.opening }
{
    let started = Desk::<N, MemoryDisk>::start(site.alloc, blank, site.committee, 0, parts, 1);
    let Ok((desk, mut sessions)) = started else {
        return Err(Failure::Refused("a desk is opened"));
    };
    work(rt, site, &desk, &mut sessions[0], round, run)?;
    closes(site.alloc, desk, sessions, round)
}

/// One stay of replica 0 at a desk of its own.
pub(crate) fn stay<R: Wait>(
    rt: &R,
    site: Site,
    parts: Parts<MemoryDisk>,
    round: &mut Round,
    run: &mut Run,
) -> Result<Parts<MemoryDisk>, Failure> {
    works::<Brand, R>(rt, Blank::new(1), site, parts, round, run)
}
