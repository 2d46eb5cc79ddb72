//! Closing a desk.

ghost use Rattle.std.specs.Prelude.{◌≡◌, ◌<◌, ◌≤◌, ◌+◌, ◌⊎◌, [], ℕ, List, None, length, drop, map, vec_len, IfErr, IfOk, IfSome, OnErr};
ghost use Rattle.std.specs.List.{All, Contains};
ghost use Rattle.std.specs.List.Sorted.{IsPermutation};
ghost use Rattle.blocks.specs.Genesis.{genesis_of};
ghost use Rattle.blocks.specs.Replay.{ballots_in};
ghost use Rattle.vote_desk.specs.Desks.{IsClosed, KeepsDesk, desk_of, vote_count};
ghost use Rattle.vote_desk.specs.Receipts.{AreRisingByNumber, AreReceipts, KeepsReceipts, receipt_ballot, receipts_of};
ghost use Rattle.vote_desk.specs.Stays.{AreLeftByStay, IsStay};

use crate::desk_error::DeskError;
use crate::naming::DeskNaming;
use crate::parts::{Closed, Parts};
use crate::receipts::{are_receipts, sort};
use crate::reply::Receipt;
use crate::session::Session;
use crate::state::DeskState;
use stable_log::Disk;
use std::alloc::{AllocError, Global};
use std::sync::ledger::{Book, Share};

// The receipts of the sessions, and their shares as one, if there is a session.
fn gather<N: DeskNaming>(
    alloc: Global,
    sessions: Vec<Session<N>>,
) -> Result<(Option<Share<N>>, Vec<Receipt>), AllocError>
    ensures receipts { IfOk result (λ r.
        r.1.items ≡ receipts_of (map (λ s. s.receipts.items) sessions.items)) }
    ensures none { IfOk result (λ r. r.0 ≡ None → vec_len sessions ≡ 0) }
    ensures share { IfOk result (λ r. IfSome r.0 (λ s. (s.parts ≡ vec_len sessions)
        × (s.amount ≡ vec_len r.1))) }
{
    let mut left = sessions;
    let Some(first) = left.pop() else {
        return Ok((None, Vec::new(alloc)));
    };
    let (mut all, mut receipts) = first.into_parts();
    while let Some(session) = left.pop() {
        let (share, more) = session.into_parts();
        all.merge(share);
        receipts.extend_from_slice(&more)?;
    }
    Ok((Some(all), receipts))
}

// Where all parts of the ledger came back, as many votes were released as there are receipts.
fn audit<N: DeskNaming>(book: &mut Book<N>, share: &mut Option<Share<N>>)
    ensures total { book.new.total ≡ book.old.total }
    ensures whole { IfSome share.old (λ s. s.parts ≡ N.parts → s.amount ≡ book.old.total) }
{
    if let Some(all) = share {
        book.audit(all);
    }
}

/// Closes a desk that stands behind no lock, and says all of what that does. The sessions' receipts are compared with the
/// log: `ReceiptMismatch` where one is missing, as it is with each session that is not handed in. A refusal gives the
/// parts back, as a stopped desk does that is closed. In this order: `Memory`, `ReceiptMismatch`.
pub fn close_on<N: DeskNaming, D: Disk>(
    alloc: Global,
    state: DeskState<N, D>,
    sessions: Vec<Session<N>>,
) -> Result<Closed<D>, (DeskError, Parts<D>)>
    // The receipts are those of all sessions, rising, and of the log: one for each vote behind the opening list.
    ensures receipts { IfOk result (λ c.
        IsPermutation (receipts_of (map (λ s. s.receipts.items) sessions.items)) c.receipts.items) }
    ensures ok { IfOk result (λ c.
        AreReceipts (length N.opening) c.parts.log.steps c.receipts.items) }
    ensures order { IfOk result (λ c. AreRisingByNumber c.receipts.items) }

    // Core, keys, indices and log are the desk's, and what it kept still holds of them.
    ensures same { IfOk result (λ c.
        IsClosed (KeepsDesk D.bytes D.images N.committee N.replica N.opening) state
        (desk_of c.core c.parts.trees.items c.parts.index c.parts.log (vec_len c.receipts))) }

    // Each image of the log has the receipts' entries, and fits the opening list and the core's headers.
    ensures images { IfOk result (λ c. IfSome (D.bytes c.parts.log.disk) (λ _. (image : List ℕ)
        → D.images c.parts.log.disk image
        → KeepsReceipts c.core.headers c.parts.log.genesis N.opening c.parts.log.entries
        c.receipts.items image)) }

    // The desk was a stay of its replica's life, in whose list each receipt's vote stands.
    ensures stay { IfOk result (λ c. IsStay D.bytes D.images (genesis_of N.committee) N.opening
        (desk_of c.core c.parts.trees.items c.parts.index c.parts.log (vec_len c.receipts))) }
    ensures released { IfOk result (λ c.
        All (λ r. Contains (ballots_in c.parts.log.steps) (receipt_ballot r)) c.receipts.items) }

    // Memory was refused, or the sessions' receipts are not those of the log.
    ensures refused { IfErr result (λ e. (e.0 ≡ DeskError.Memory)
        ⊎ (e.0 ≡ DeskError.ReceiptMismatch)) }
    ensures mismatch { IfErr result (λ e. e.0 ≡ DeskError.ReceiptMismatch
        → AreReceipts (length N.opening) e.1.log.steps
        (receipts_of (map (λ s. s.receipts.items) sessions.items)) → ⊥) }

    // Where all sessions came back, there are as many receipts as votes.
    ensures counts { IfErr result (λ e. e.0 ≡ DeskError.ReceiptMismatch → vec_len sessions ≡ N.parts
        → 0 < N.parts → length (receipts_of (map (λ s. s.receipts.items) sessions.items))
        ≡ vote_count (drop (length N.opening) e.1.log.steps)) }

    // A refusal gives the desk's parts back, and they were left by a stay.
    ensures err { IfErr result (λ e. (e.1.trees.items ≡ state.seeds) × (e.1.index ≡ state.indices)
        × (e.1.log ≡ state.log)) }
    ensures left { IfErr result (λ e.
        AreLeftByStay D.bytes D.images (genesis_of N.committee) N.opening e.1.trees.items e.1.index
        e.1.log) }
{
    let (core, parts, mut book, opened) = state.into_parts();
    let Ok((mut share, mut receipts)) = gather(alloc, sessions) else {
        return Err((DeskError::Memory, parts));
    };
    audit(&mut book, &mut share);
    sort(&mut receipts);
    if !are_receipts(opened, parts.log.steps(), &receipts) {
        return Err((DeskError::ReceiptMismatch, parts));
    }
    Ok(Closed {
        parts,
        receipts,
        core,
    })
}
