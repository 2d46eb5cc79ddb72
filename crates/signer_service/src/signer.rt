//! One caller's side of a desk, as a service.

ghost use Rattle.std.specs.Prelude.{◌≡◌, ◌≢◌, ◌↔◌, ◌<◌, ◌≤◌, ◌+◌, [], IfOk, IfSome, IsFalse, IsSome, IsTrue, MatchOption, None, OnErr, OnOk, Option, Some, codes};
ghost use Rattle.blocks.specs.Genesis.{chain_id_of};
ghost use Rattle.blocks.specs.declared.ballot.Ballot.{Ballot as BallotValue};
ghost use Rattle.http_server.specs.Response.{IsBlank};
ghost use Rattle.handover_light.specs.Proving.{ProvesHandover};
ghost use Rattle.signer_answers.specs.Guards.{WasPutBack};
ghost use Rattle.signer_service.specs.CallAnswers.{AnyTold, AreBlocksServed, AreMoreServed, IsAllServed, IsAtHandover, IsBlockServed, IsCallServed, IsCrossingOf, IsDeskHealthTold, IsDeskMetricsTold, IsDeskStatusTold, IsEndorsementTold, IsEndorsingOf, IsFar, IsFree, IsGoneTo, IsHalted, IsHandedOver, IsHeaderTold, IsHeldBack, IsMeasured, IsNear, IsNoneHandedOver, IsOutcomeOf, IsOverTold, IsPartTold, IsRenewalTold, IsServed, IsShut, IsStopTo, IsVoteJudged, IsVoteTold, MayPass, SomeOne, committed_by, from_export, parent_view_of, receipts_told};
ghost use Rattle.signer_answers.specs.Sparings.{reserve_of};
ghost use Rattle.signer_service.specs.Judging.{IsCertificateTold};
ghost use Rattle.signer_service.specs.Refusals.{IsRefusalTold, refusal_fields};
ghost use Rattle.signer_service.specs.Renewing.{IsShown};
ghost use Rattle.signer_service.specs.Responses.{IsLine, IsReady};
ghost use Rattle.signer_service.specs.ToldLines.{block_asked};

use crate::approving::tell_successor;
use crate::crossing::{Crossing, MOST_VIEW, tell_crossing};
use crate::endorsing::{Endorsing, tell_endorsing};
use crate::going::Going;
use crate::halt::{Halt, tell_halt, tell_unhealthy};
use crate::health::tell_health;
use crate::joining::{put_behind, tell_unheld};
use crate::judging::{tell_certificate, tell_judgement};
use crate::metrics::{METRICS_ROOM, Measured, tell_metrics};
use crate::proving::{has_other_keys, proof_in};
use crate::reception::Reception;
use crate::refusing::{refuse, tell_refused};
use crate::renewing::{NotRenewing, Renewing as Renewed, judge_renewal, tell_renewing};
use crate::status::tell_status;
use crate::telling::{tell_log, tell_receipt, tell_text, tell_told};
use crate::witness::{Witness, seen_of};
use crate::writing::{Kind, fill, make_ready, make_room, make_to_retry, settle};
use base_streams::MemorySink;
use blocks::{Ballot, CommitteeView, Header, Id};
use bytes::Bytes;
use certificates::{Certificate, CertificateRefusal, SignedVote};
use handover_blocks::{HANDOVER_MARK, handover_payload};
use handover_keys::{NextKeysView, write_endorsement};
use handover_light::LightProof;
use http::{Request, StatusCode};
use http_server::{Response, Rope, Service};
use replica_requests::{Outcome, Request as Asked, block_in};
use signer_answers::{
    Approver, Caller, Keeper, NextFault, Office, OverFault, Told, answer, reserve_of,
};
use signer_calls::{BlockList, Call, CallRefusal, LogPart, Over, Renewing, call_of};
use signer_votes::{Checker, Known};
use stable_log::Disk;
use std::alloc::{AllocError, Global};
use std::io;
use std::sync::Wait;
use std::time::{Clock, Instant};
use vote_desk::{DeskNaming, Left, Session};
use vote_log::{ExportError, LogError};

/// A replica's desk as one caller sees it: each call is answered at once, by what the desk answers.
#[derive(Drop)]
pub struct Signer<
    'a,
    N: DeskNaming,
    R: Wait + Clock,
    D: Disk,
    V: Checker,
    K: Approver + Keeper,
    W: Witness,
> {
    rt: &'a R,
    alloc: Global,
    office: &'a Office<'a, N, D, K>,
    verifier: &'a V,
    reception: &'a Reception<'a, N, D, W>,
    caller: Caller<'a, N, D, K>,
}

impl<
    'a,
    N: DeskNaming,
    R: Wait + Clock,
    D: Disk,
    V: Checker,
    K: Approver + Keeper,
    W: Witness,
> Signer<'a, N, R, D, V, K, W> {
    /// The side of the caller of this session, who has not been told yet that the log was put back.
    pub fn new(
        rt: &'a R,
        alloc: Global,
        office: &'a Office<'a, N, D, K>,
        verifier: &'a V,
        reception: &'a Reception<'a, N, D, W>,
        session: Session<N>,
    ) -> Signer<'a, N, R, D, V, K, W>
        ensures session { result.caller.session ≡ session }
        ensures office { result.office.now ≡ office.now }
        ensures reception { result.reception.now ≡ reception.now }
    {
        Signer {
            rt,
            alloc,
            office,
            verifier,
            reception,
            caller: Caller::new(session),
        }
    }

    /// The session, which the desk wants back when it is closed.
    pub fn into_session(self) -> Session<N>
        ensures { result ≡ self.entry.caller.session }
    {
        let Signer { caller, .. } = self;
        caller.into_session()
    }

    // Why no block or timeout is taken, if none is: first that the log was put back.
    fn halt(&self) -> Option<Halt>
        ensures { IsHalted D.Disk N.committee N.replica N.opening
            self.now.reception.now.gate.now.asks self.now.caller.shown result }
    {
        if let Some(ballot) = self.put_back() {
            return Some(Halt::PutBack(ballot));
        }
        if self.is_asking() {
            return Some(Halt::Asking);
        }
        None
    }

    // What the log was found to be put back by, if it was.
    fn put_back(&self) -> Option<Ballot>
        ensures found { IfSome result (WasPutBack D.Disk N.committee N.replica N.opening) }
        ensures shown { IsSome self.now.caller.shown → IsSome result }
    {
        self.office.put_back.found(self.rt, &self.caller.shown)
    }

    // Whether others are still asked.
    fn is_asking(&self) -> bool
        ensures { IsShut D.Disk N.committee N.replica N.opening
            self.now.reception.now.gate.now.asks result }
    {
        !self.reception.gate.is_open()
    }

    // Whether a view lies too far above the desk's vote view.
    fn is_far(&self, view: u64) -> bool
        ensures far { IsTrue result → SomeOne D.Disk N.committee N.replica N.opening
            (λ d. d.core.state.vote_view + self.now.reception.now.rules.now.furthest < view) }
        ensures near { IsFalse result → SomeOne D.Disk N.committee N.replica N.opening
            (λ d. view ≤ d.core.state.vote_view + self.now.reception.now.rules.now.furthest) }
    {
        let at = self.office.desk.status(self.rt).vote_view;
        view.saturating_sub(at) > self.reception.rules.furthest
    }

    fn lies_far(&self, asked: &Asked) -> bool
        ensures far { IsTrue result → IsFar D.Disk N.committee N.replica N.opening
            self.now.reception.now.rules.now.furthest asked.now }
        ensures near { IsFalse result → IsNear D.Disk N.committee N.replica N.opening
            self.now.reception.now.rules.now.furthest asked.now }
    {
        match asked {
            Asked::Block(header, _) => self.is_far(header.view),
            Asked::Timeout(view) => self.is_far(*view),
            _ => false,
        }
    }

    // The votes of a block's certificate that are known to be good, before the desk is called.
    fn known_of(&self, asked: &Asked) -> Known {
        match asked {
            Asked::Block(_, certificate) => {
                self.verifier
                    .check_ahead(self.alloc, self.office.committee, certificate)
            }
            _ => Known::new(self.alloc),
        }
    }

    // What comes of a block or a timeout, unless none is taken, or its view lies too far ahead.
    fn outcome_of(&mut self, asked: Asked) -> Option<Told>
        ensures outcome { IsOutcomeOf D.Disk N.committee N.replica N.opening
            self.old.reception.now.rules.now.furthest self.old.reception.now.gate.now.asks
            (K.tells self.old.office.now.keeper.now)
            self.old.caller.session.receipts.items asked result }
        ensures receipts { self.new.caller.session.receipts.items
            ≡ receipts_told self.old.caller.session.receipts.items result }
        ensures stop { IsSome self.old.caller.shown → IsStopTo result }
        ensures shown { IsSome self.old.caller.shown → IsSome self.new.caller.shown }
        ensures learns { IsStopTo result → IsSome self.new.caller.shown }
        ensures same { (self.new.office ≡ self.old.office) × (self.new.reception ≡ self.old.reception) }
    {
        // Who is told that the log was put back has what shows it from then on, whoever found it.
        if let Some(ballot) = self.caller.look(self.rt, self.office.put_back) {
            return Some(Told::PutBack(ballot));
        }
        if self.is_asking() {
            return Some(Told::Asking);
        }
        if self.lies_far(&asked) {
            return None;
        }
        let known = self.known_of(&asked);
        let parent_view = parent_view_of(&asked);
        let told = answer(self.rt, self.office, &known, &mut self.caller, asked);
        if let Some(id) = committed_by(&told) {
            let view = parent_view.saturating_sub(2);
            self.reception.commits.note(self.rt, Ballot { view, id });
        }
        Some(told)
    }

    // .. counted, with the time that a block takes.
    fn counted_outcome_of(&mut self, asked: Asked) -> Option<Told>
        ensures outcome { IsOutcomeOf D.Disk N.committee N.replica N.opening
            self.old.reception.now.rules.now.furthest self.old.reception.now.gate.now.asks
            (K.tells self.old.office.now.keeper.now)
            self.old.caller.session.receipts.items asked result }
        ensures receipts { self.new.caller.session.receipts.items
            ≡ receipts_told self.old.caller.session.receipts.items result }
        ensures stop { IsSome self.old.caller.shown → IsStopTo result }
        ensures shown { IsSome self.old.caller.shown → IsSome self.new.caller.shown }
        ensures learns { IsStopTo result → IsSome self.new.caller.shown }
        ensures same { (self.new.office ≡ self.old.office) × (self.new.reception ≡ self.old.reception) }
    {
        let is_block = is_block(&asked);
        let began = Instant::now(self.rt);
        let outcome = self.outcome_of(asked);
        self.count(&outcome);
        if is_block {
            let micros = micros_since(self.rt, began);
            self.reception.tallies.count_block(self.rt, micros);
        }
        outcome
    }

    // Counts what is told of a block or a timeout.
    fn count(&self, told: &Option<Told>) {
        match told {
            Some(told) => self.reception.tallies.count_told(self.rt, told),
            None => self.count_refusal(CallRefusal::Far),
        }
    }

    fn count_refusal(&self, refusal: CallRefusal) {
        self.reception.tallies.count_refusal(self.rt, refusal);
    }

    fn count_not_mine(&self) {
        self.reception.tallies.count_not_mine(self.rt);
    }

    // Does what is asked of the replica. Room for the answer is made first: behind that nothing fails.
    fn ask(&mut self, asked: Asked, response: &mut Response) -> Result<Option<Told>, AllocError>
        requires { IsBlank response.old }
        ensures ok { IfOk result (IsCallServed D.Disk N.committee N.replica N.opening
            self.old.reception.now.rules.now self.old.reception.now.gate.now.asks
            (K.tells self.old.office.now.keeper.now) (Call.Replica asked)
            self.old.caller.session.receipts.items self.old.caller.shown response.new
            self.new.caller.session.receipts.items self.new.caller.shown) }
        ensures same { (self.new.office ≡ self.old.office) × (self.new.reception ≡ self.old.reception) }
        ensures err { OnErr result (self.new ≡ self.old) }
    {
        make_to_retry(response)?;
        let block = block_asked(&asked);
        let told = self.counted_outcome_of(asked);
        tell_told(response, &block, &told);
        Ok(told)
    }

    // Delivers one of several blocks, as by a call of its own.
    fn ask_block(
        &mut self,
        block: &Bytes,
        response: &mut Response,
    ) -> Result<Option<Told>, AllocError>
        requires { IsBlank response.old }
        ensures ok { IfOk result (IsBlockServed D.Disk N.committee N.replica N.opening AnyTold
            self.old.reception.now.rules.now self.old.reception.now.gate.now.asks
            (K.tells self.old.office.now.keeper.now) block.now
            self.old.caller.session.receipts.items self.old.caller.shown response.new
            self.new.caller.session.receipts.items self.new.caller.shown) }
        ensures same { (self.new.office ≡ self.old.office) × (self.new.reception ≡ self.old.reception) }
        ensures err { OnErr result (self.new ≡ self.old) }
    {
        let asked = block_in(self.alloc, block.as_slice())?;
        self.ask(asked, response)
    }

    // Delivers blocks one after the other, each once the vote for the one before it is stored, up to the first that is refused.
    fn ask_blocks(
        &mut self,
        blocks: &BlockList,
        response: &mut Response,
    ) -> Result<Option<Told>, AllocError>
        requires { IsBlank response.old }
        ensures ok { IfOk result (AreBlocksServed D.Disk N.committee N.replica N.opening AnyTold
            self.old.reception.now.rules.now self.old.reception.now.gate.now.asks
            (K.tells self.old.office.now.keeper.now) blocks.now
            self.old.caller.session.receipts.items self.old.caller.shown response.new
            self.new.caller.session.receipts.items self.new.caller.shown) }
        ensures same { (self.new.office ≡ self.old.office) × (self.new.reception ≡ self.old.reception) }
        ensures err { OnErr result (self.new ≡ self.old) }
    {
        let [first, more @ ..] = blocks.as_slice() else {
            self.tell_refusal(response, CallRefusal::Length)?;
            return Ok(None);
        };
        let told = self.ask_block(first, response)?;
        Ok(self.ask_more(told, more, response))
    }

    // .. those behind one that was told this. Nothing fails behind a block that was taken: where memory is refused, no line is told.
    fn ask_more(
        &mut self,
        first: Option<Told>,
        blocks: &[Bytes],
        response: &mut Response,
    ) -> Option<Told>
        ensures told { AreMoreServed D.Disk N.committee N.replica N.opening AnyTold
            self.old.reception.now.rules.now self.old.reception.now.gate.now.asks
            (K.tells self.old.office.now.keeper.now) [] response.old first blocks.now
            self.old.caller.session.receipts.items self.old.caller.shown response.new
            self.new.caller.session.receipts.items self.new.caller.shown result }
        ensures same { (self.new.office ≡ self.old.office) × (self.new.reception ≡ self.old.reception) }
    {
        let mut told = first;
        let mut lines = Rope::new(self.alloc);
        let mut left = blocks;
        while let [block, more @ ..] = left {
            if response.status != StatusCode::OK {
                break;
            }
            if lines.append(&mut response.body).is_err() {
                tell_unheld(response);
                return None;
            }
            response.clear();
            let Ok(next) = self.ask_block(block, response) else {
                tell_unheld(response);
                return None;
            };
            told = next;
            left = more;
        }
        put_behind(&mut lines, response);
        told
    }

    // Tells that something is not there.
    fn tell_missing(&self, response: &mut Response, refusal: CallRefusal)
        requires { IsReady (refusal_fields refusal) response.old }
        ensures { IsRefusalTold refusal response.new }
    {
        self.count_refusal(refusal);
        tell_refused(response, refusal);
    }

    // Refuses a call of which nothing was done.
    fn tell_refusal(&self, response: &mut Response, refusal: CallRefusal) -> Result<(), AllocError>
        requires { IsBlank response.old }
        ensures { OnOk result (IsRefusalTold refusal response.new) }
    {
        self.count_refusal(refusal);
        refuse(response, refusal)
    }

    // Tells the log's vote in a view.
    fn tell_vote(&self, view: u64, response: &mut Response) -> Result<(), AllocError>
        requires { IsBlank response.old }
        ensures { OnOk result
            (IsVoteTold D.Disk N.committee N.replica N.opening view response.new) }
    {
        make_to_retry(response)?;
        match self.office.desk.vote_in(self.rt, view) {
            Ok(Some(receipt)) => {
                settle(response);
                tell_receipt(response, &receipt);
            }
            Ok(None) => {
                settle(response);
                self.tell_missing(response, CallRefusal::NoVote);
            }
            Err(error) => tell_log(response, error),
        }
        Ok(())
    }

    // Tells whether a header is held.
    fn tell_header(&self, id: &Id, response: &mut Response) -> Result<(), AllocError>
        requires { IsBlank response.old }
        ensures { OnOk result
            (IsHeaderTold D.Disk N.committee N.replica N.opening id.now response.new) }
    {
        make_ready(response, Kind::Text)?;
        if self.office.desk.holds(self.rt, id) {
            tell_text(response, b"held\n");
        } else {
            self.tell_missing(response, CallRefusal::NotHeld);
        }
        Ok(())
    }

    // Hands out a part of the log, which is copied under the desk's lock and answered behind it.
    fn hand_out(&self, part: LogPart, response: &mut Response) -> Result<(), AllocError>
        requires { IsBlank response.old }
        ensures { OnOk result
            (IsPartTold D.Disk N.committee N.replica N.opening part response.new) }
    {
        let mut copy = MemorySink::new(self.alloc);
        match self
            .office
            .desk
            .export(self.rt, part.first, part.most, &mut copy)
        {
            Ok(_) => fill(response, copy.bytes()),
            Err(error) => {
                make_to_retry(response)?;
                tell_log(response, from_export(error));
                Ok(())
            }
        }
    }

    // Tells whether a block could get a vote.
    fn tell_desk_health(&self, response: &mut Response) -> Result<(), AllocError>
        requires { IsBlank response.old }
        ensures { OnOk result
            (IsDeskHealthTold D.Disk N.committee N.replica N.opening self.now.reception.now.gate.now.asks
            self.now.caller.shown response.new) }
    {
        make_ready(response, Kind::Text)?;
        match self.halt() {
            Some(halt) => tell_unhealthy(response, halt),
            None => tell_health(response, &self.office.desk.status(self.rt)),
        }
        Ok(())
    }

    // Tells whether a vote is good, unless no block is taken.
    fn judge(&self, vote: &SignedVote, response: &mut Response) -> Result<(), AllocError>
        requires { IsBlank response.old }
        ensures { OnOk result
            (IsVoteJudged D.Disk N.committee N.replica N.opening self.now.reception.now.gate.now.asks
            self.now.caller.shown vote.now response.new) }
    {
        if let Some(halt) = self.halt() {
            make_to_retry(response)?;
            tell_halt(response, halt);
            return Ok(());
        }
        tell_judgement(self.office.committee, self.verifier, vote, response)
    }

    // Tells whether a certificate is good: of the desk nothing is asked.
    fn judge_certificate(
        &self,
        read: Result<Certificate, CertificateRefusal>,
        response: &mut Response,
    ) -> Result<(), AllocError>
        requires { IsBlank response.old }
        ensures { OnOk result (IsCertificateTold N.committee read response.new) }
    {
        tell_certificate(
            self.alloc,
            self.office.committee,
            self.verifier,
            read,
            response,
        )
    }

    // The lowest handover block in the chain of the block that was told as committed last, if there is one.
    fn handover(&self) -> Option<Header>
        ensures { MatchOption result
            ((commit : Option BallotValue) × IsNoneHandedOver D.Disk N.committee N.replica N.opening commit)
            (IsHandedOver D.Disk N.committee N.replica N.opening) }
    {
        let Some(commit) = self.reception.commits.last(self.rt) else {
            return None;
        };
        match self
            .office
            .desk
            .first_marked(self.rt, &commit.id, HANDOVER_MARK)
        {
            Some(first) => Some(first),
            None => None,
        }
    }

    // Goes over from this chain, or says what was said before of the one that the call names.
    fn cross(&self, over: &Over) -> Crossing
        ensures { IsCrossingOf D.Disk N.committee N.replica N.opening self.now.reception.now.gate.now.asks
            (K.tells self.now.office.now.keeper.now) self.now.caller.shown over.now result }
    {
        if over.chain != self.office.committee.chain() {
            return self.crossed_before(over);
        }
        if let Some(halt) = self.halt_of_over(over) {
            return Crossing::Halted(halt);
        }
        match &over.proof {
            Some(text) => self.cross_by_proof(over, text.as_slice()),
            None => self.cross_by_commit(over),
        }
    }

    // Why it does not go over before others were heard, or at all, if it does not.
    fn halt_of_over(&self, over: &Over) -> Option<Halt>
        ensures { MatchOption result
            (IsFree D.Disk N.committee N.replica N.opening self.now.reception.now.gate.now.asks
            self.now.caller.shown over.now)
            (IsHeldBack D.Disk N.committee N.replica N.opening self.now.reception.now.gate.now.asks
            self.now.caller.shown over.now) }
    {
        let halted = self.halt();
        match halted {
            Some(Halt::Asking) if self.may_pass(over) => None,
            _ => halted,
        }
    }

    // Whether it may go over before others were heard: by a light proof, to a committee in which the replica has other keys.
    fn may_pass(&self, over: &Over) -> bool
        ensures { IsTrue result ↔ MayPass D.Disk N.committee N.replica N.opening over.now }
    {
        let office = self.office;
        over.proof.is_some()
            && has_other_keys(office.committee, over.file.as_slice(), office.replica)
    }

    // Goes over by the blocks that it was handed.
    fn cross_by_commit(&self, over: &Over) -> Crossing
        requires here { over.now.chain ≡ chain_id_of N.committee }
        requires free { IsFree D.Disk N.committee N.replica N.opening
            self.now.reception.now.gate.now.asks self.now.caller.shown over.now }
        requires unproved { over.now.proof ≡ None }
        ensures { IsCrossingOf D.Disk N.committee N.replica N.opening self.now.reception.now.gate.now.asks
            (K.tells self.now.office.now.keeper.now) self.now.caller.shown over.now result }
    {
        let Some(handover) = self.handover() else {
            return Crossing::NoCommit;
        };
        self.go_over(&handover, over, None)
    }

    // .. by its light proof, which has these bytes.
    fn cross_by_proof(&self, over: &Over, text: &[u8]) -> Crossing
        requires here { over.now.chain ≡ chain_id_of N.committee }
        requires free { IsFree D.Disk N.committee N.replica N.opening
            self.now.reception.now.gate.now.asks self.now.caller.shown over.now }
        requires text { over.now.proof ≡ Some text.now }
        ensures { IsCrossingOf D.Disk N.committee N.replica N.opening self.now.reception.now.gate.now.asks
            (K.tells self.now.office.now.keeper.now) self.now.caller.shown over.now result }
    {
        let proof = match proof_in(self.alloc, self.office.committee, text) {
            Ok(proof) => proof,
            Err(unproved) => return Crossing::Unproved(unproved),
        };
        // What its own desk told counts for more: else it would leave the chain that it knows for another one.
        if let Some(told) = self.handover()
            && told.payload != handover_payload(over.file.as_slice())
        {
            return Crossing::OtherFile(told.payload);
        }
        self.go_over(proof.block(), over, Some(&proof))
    }

    // Goes over by this handover block, if it names the file. Who gave up on all views votes no more, whatever comes of the word.
    fn go_over(&self, handover: &Header, over: &Over, proof: Option<&LightProof>) -> Crossing
        requires at { IsAtHandover D.Disk N.committee N.replica N.opening
            self.now.reception.now.gate.now.asks self.now.caller.shown over.now handover.now }
        requires proof { IfSome proof (λ it. ProvesHandover N.committee it.now) }
        ensures { IsCrossingOf D.Disk N.committee N.replica N.opening self.now.reception.now.gate.now.asks
            (K.tells self.now.office.now.keeper.now) self.now.caller.shown over.now result }
    {
        let file = over.file.as_slice();
        if handover.payload != handover_payload(file) {
            return Crossing::OtherFile(handover.payload);
        }
        let chain = match self.office.keeper.prepare(over.renewal.as_slice(), file) {
            Ok(chain) => chain,
            Err(fault) => return Crossing::Refused(fault),
        };
        if let Some(proof) = proof
            && let Err(fault) = self.office.keeper.keep_proof(self.office.committee, proof)
        {
            return Crossing::Refused(fault);
        }
        if let Err(refusal) = self.office.desk.timeout(self.rt, MOST_VIEW) {
            return Crossing::Desk(refusal);
        }
        match self.office.keeper.say(&handover.id(), file) {
            Ok(()) => Crossing::Gone(chain),
            Err(fault) => Crossing::Refused(fault),
        }
    }

    // What was said before of the chain that the call names, which is not this one.
    fn crossed_before(&self, over: &Over) -> Crossing
        requires { over.now.chain ≢ chain_id_of N.committee }
        ensures { IsCrossingOf D.Disk N.committee N.replica N.opening self.now.reception.now.gate.now.asks
            (K.tells self.now.office.now.keeper.now) self.now.caller.shown over.now result }
    {
        let file = over.file.as_slice();
        match self.office.keeper.left_for(&over.chain) {
            Ok(Some(payload)) if payload != handover_payload(file) => Crossing::OtherFile(payload),
            Ok(Some(_)) => gone_to(file),
            Ok(None) => Crossing::Elsewhere,
            Err(fault) => Crossing::Refused(fault),
        }
    }

    // Tells what comes of a call to go over.
    fn tell_over(&self, over: &Over, response: &mut Response) -> Result<(), AllocError>
        requires { IsBlank response.old }
        ensures { OnOk result (IsOverTold D.Disk N.committee N.replica N.opening
            self.now.reception.now.gate.now.asks (K.tells self.now.office.now.keeper.now)
            self.now.caller.shown over.now response.new) }
    {
        make_to_retry(response)?;
        let crossing = self.cross(over);
        match crossing {
            Crossing::Elsewhere => self.count_refusal(CallRefusal::Chain),
            Crossing::Refused(OverFault::NotMine) => self.count_not_mine(),
            _ => (),
        }
        tell_crossing(response, &crossing);
        Ok(())
    }

    // Endorses the replica's next keys, once: what was said before is told again.
    fn endorse(&self) -> Endorsing
        ensures { IsEndorsingOf D.Disk N.committee N.replica N.opening
            self.now.reception.now.gate.now.asks (K.tells self.now.office.now.keeper.now)
            self.now.caller.shown result }
    {
        if let Some(halt) = self.halt() {
            return Endorsing::Halted(halt);
        }
        match self.office.keeper.endorsed() {
            Ok(Some(said)) => Endorsing::Said(said),
            Ok(None) => self.endorse_now(),
            Err(fault) => Endorsing::Next(fault),
        }
    }

    // Signs the statement of the next keys, and says the endorsement, unless another was said meanwhile.
    fn endorse_now(&self) -> Endorsing
        requires { IsHalted D.Disk N.committee N.replica N.opening
            self.now.reception.now.gate.now.asks self.now.caller.shown None }
        ensures { IsEndorsingOf D.Disk N.committee N.replica N.opening
            self.now.reception.now.gate.now.asks (K.tells self.now.office.now.keeper.now)
            self.now.caller.shown result }
    {
        let statement = match self.office.keeper.statement() {
            Ok(statement) => statement,
            Err(fault) => return Endorsing::Next(fault),
        };
        let Ok(statement) = NextKeysView::parse(&statement) else {
            return Endorsing::Next(NextFault::Stopped);
        };
        let seal = match self.office.desk.endorse(self.rt, &statement) {
            Ok(seal) => seal,
            Err(refusal) => return Endorsing::Desk(refusal),
        };
        let Ok(text) = write_endorsement(self.alloc, &statement, seal.key, &seal.signature) else {
            return Endorsing::Next(NextFault::Memory);
        };
        match self.office.keeper.endorse(&text) {
            Ok(said) => Endorsing::Said(said),
            Err(fault) => Endorsing::Next(fault),
        }
    }

    // Tells what comes of a call to endorse.
    fn tell_endorsement(&self, response: &mut Response) -> Result<(), AllocError>
        requires { IsBlank response.old }
        ensures { OnOk result (IsEndorsementTold D.Disk N.committee N.replica N.opening
            self.now.reception.now.gate.now.asks (K.tells self.now.office.now.keeper.now)
            self.now.caller.shown response.new) }
    {
        let endorsing = self.endorse();
        tell_endorsing(response, &endorsing)
    }

    // Judges a committee that is shown with a renewal. One that renews this one, in which the replica has its keys, is remembered: a
    // block that hands over to it may be voted for.
    fn show(&self, shown: &Renewing) -> Result<Renewed, NotRenewing>
        ensures { IsShown N.committee (K.tells self.now.office.now.keeper.now) shown.now.renewal
            shown.now.file result }
    {
        let (renewal, file) = (shown.renewal.as_slice(), shown.file.as_slice());
        let (after, renewing) = match judge_renewal(
            self.alloc,
            self.office.committee,
            renewal,
            file,
        ) {
            Ok(judged) => judged,
            Err(refusal) => return Err(refusal),
        };
        match self.office.keeper.has_keys_in(&after) {
            Ok(true) => {
                self.office.renewed.note(self.rt, &renewing.payload);
                Ok(renewing)
            }
            Ok(false) => Err(NotRenewing::NotMine),
            Err(fault) => Err(NotRenewing::Next(fault)),
        }
    }

    // Tells what comes of a committee that is shown.
    fn tell_renewal(&self, shown: &Renewing, response: &mut Response) -> Result<(), AllocError>
        requires { IsBlank response.old }
        ensures { OnOk result (IsRenewalTold N.committee
            (K.tells self.now.office.now.keeper.now) shown.now response.new) }
    {
        make_to_retry(response)?;
        let renewing = self.show(shown);
        if let Err(NotRenewing::NotMine) = renewing {
            self.count_not_mine();
        }
        tell_renewing(response, &renewing);
        Ok(())
    }

    // How far the signer is, where this is left.
    fn going(&self, left: &Left) -> Going
        ensures { result.reserve ≡ reserve_of (K.tells self.now.office.now.keeper.now).spares
            left.now }
    {
        let keeper = self.office.keeper;
        Going {
            progress: keeper.progress(),
            reserve: reserve_of(keeper.spares(), left),
        }
    }

    // Tells what the desk is at.
    fn tell_desk_status(&self, response: &mut Response) -> Result<(), AllocError>
        requires { IsBlank response.old }
        ensures { OnOk result
            (IsDeskStatusTold D.Disk N.committee N.replica N.opening self.now.reception.now.gate.now.asks
            (K.tells self.now.office.now.keeper.now) self.now.caller.shown response.new) }
    {
        make_ready(response, Kind::Json)?;
        let status = self.office.desk.status(self.rt);
        let halted = self.halt();
        let committed = self.reception.commits.last(self.rt);
        tell_status(
            response,
            self.office.committee,
            self.office.replica,
            &status,
            &halted,
            &committed,
            &self.going(&status.left),
        );
        Ok(())
    }

    // What the metrics tell.
    fn measure(&self) -> Result<Measured, AllocError>
        ensures { IfOk result (IsMeasured D.Disk N.committee N.replica N.opening
            self.now.reception.now.gate.now.asks (K.tells self.now.office.now.keeper.now)
            self.now.caller.shown) }
    {
        let heard = self.reception.sources.heard(self.alloc)?;
        let status = self.office.desk.status(self.rt);
        Ok(Measured {
            numbers: self.reception.tallies.numbers(self.rt),
            status,
            going: self.going(&status.left),
            put_back: self.put_back(),
            committed: self.reception.commits.last(self.rt),
            is_asking: self.is_asking(),
            heard,
        })
    }

    // Tells what was told since the start, and what the desk is at.
    fn tell_desk_metrics(&self, response: &mut Response) -> Result<(), AllocError>
        requires { IsBlank response.old }
        ensures { OnOk result (IsDeskMetricsTold D.Disk N.committee N.replica N.opening
            self.now.reception.now.gate.now.asks (K.tells self.now.office.now.keeper.now)
            self.now.caller.shown response.new) }
    {
        let measured = self.measure()?;
        make_room(response, Kind::Metrics, METRICS_ROOM)?;
        tell_metrics(response, &measured)
    }

    // Does what a call asks for, and tells what came of it. Answers what was told of a block or a timeout.
    fn do_call(&mut self, call: Call, response: &mut Response) -> Result<Option<Told>, AllocError>
        requires { IsBlank response.old }
        ensures ok { IfOk result (IsAllServed D.Disk N.committee N.replica N.opening
            self.old.reception.now.rules.now self.old.reception.now.gate.now.asks
            (K.tells self.old.office.now.keeper.now) call
            self.old.caller.session.receipts.items self.old.caller.shown response.new
            self.new.caller.session.receipts.items self.new.caller.shown) }
        ensures same { (self.new.office ≡ self.old.office) × (self.new.reception ≡ self.old.reception) }
        ensures err { OnErr result (self.new ≡ self.old) }
    {
        match call {
            Call::Replica(asked) => return self.ask(asked, response),
            Call::Blocks(blocks) => return self.ask_blocks(&blocks, response),
            Call::Judge(vote) => self.judge(&vote, response)?,
            Call::Certificate(read) => self.judge_certificate(read, response)?,
            Call::Over(over) => self.tell_over(&over, response)?,
            Call::VoteIn(view) => self.tell_vote(view, response)?,
            Call::Header(id) => self.tell_header(&id, response)?,
            Call::Successor(payload) => {
                tell_successor(self.rt, self.office, &payload, response)?;
            }
            Call::Endorse => self.tell_endorsement(response)?,
            Call::Renew(shown) => self.tell_renewal(&shown, response)?,
            Call::Log(part) => self.hand_out(part, response)?,
            Call::Status => self.tell_desk_status(response)?,
            Call::Live => tell_live(response)?,
            Call::Health => self.tell_desk_health(response)?,
            Call::Metrics => self.tell_desk_metrics(response)?,
            Call::Refused(refusal) => self.tell_refusal(response, refusal)?,
        }
        Ok(None)
    }
}

impl<
    'a,
    N: DeskNaming,
    R: Wait + Clock,
    D: Disk,
    V: Checker,
    K: Approver + Keeper,
    W: Witness,
> Service for Signer<'a, N, R, D, V, K, W> {
    ghost answers = { λ old request response new.
        IsServed D.Disk N.committee N.replica N.opening old.reception.now.rules.now
        old.reception.now.gate.now.asks (K.tells old.office.now.keeper.now)
        old.caller.session.receipts.items old.caller.shown request response
        new.caller.session.receipts.items new.caller.shown
        × (new.office ≡ old.office) × (new.reception ≡ old.reception) };

    fn call(
        &mut self,
        request: &Request<Bytes>,
        response: &mut Response,
    ) -> Result<(), AllocError> {
        let call = call_of(
            self.alloc,
            self.reception.rules,
            self.office.committee,
            request,
        )?;
        let told = self.do_call(call, response)?;
        let seen = seen_of(request, response, &told);
        self.reception.witness.saw(&seen);
        Ok(())
    }
}

// Gone over to the chain of the committee of this file, unless it is none.
fn gone_to(file: &[u8]) -> Crossing
    ensures { IsGoneTo file.now result }
{
    match CommitteeView::parse(file) {
        Ok(committee) => Crossing::Gone(committee.chain()),
        Err(refusal) => Crossing::Refused(OverFault::Committee(refusal)),
    }
}

fn is_block(asked: &Asked) -> bool {
    match asked {
        Asked::Block(_, _) => true,
        _ => false,
    }
}

// How many microseconds have gone by, 0 where the clock fails.
fn micros_since<R: Clock>(clock: &R, began: io::Result<Instant>) -> u64 {
    let Ok(began) = began else {
        return 0;
    };
    match began.elapsed(clock) {
        Ok(gone) => u64::try_from(gone.as_micros()).unwrap_or(u64::MAX),
        Err(_) => 0,
    }
}

// The view of the parent of a block that is asked for.
fn parent_view_of(asked: &Asked) -> u64
    ensures { result ≡ parent_view_of asked.now }
{
    match asked {
        Asked::Block(header, _) => header.parent_view,
        _ => 0,
    }
}

// The view and the id of a block that is asked for.
fn block_asked(asked: &Asked) -> Option<Ballot>
    ensures { result ≡ block_asked asked.now }
{
    match asked {
        Asked::Block(header, _) => {
            Some(Ballot {
                view: header.view,
                id: header.id(),
            })
        }
        _ => None,
    }
}

// The block that is committed by what was told.
fn committed_by(told: &Told) -> Option<Id>
    ensures { result ≡ committed_by told.now }
{
    match told {
        Told::Came(Outcome::Replied(reply)) => reply.committed,
        Told::Again(_, committed) => *committed,
        _ => None,
    }
}

// What a refused export is of the log.
fn from_export(error: ExportError) -> LogError
    ensures { result ≡ from_export error }
{
    match error {
        ExportError::Stopped => LogError::Stopped,
        ExportError::Device => LogError::Device,
        ExportError::Memory | ExportError::Sink => LogError::Memory,
    }
}

fn tell_live(response: &mut Response) -> Result<(), AllocError>
    requires { IsBlank response.old }
    ensures { OnOk result (IsLine 200 (codes "ok\n") response.new) }
{
    make_ready(response, Kind::Text)?;
    tell_text(response, b"ok\n");
    Ok(())
}
