//! The core of a replica.

ghost use Rattle.std.specs.Prelude.{◌≡◌, ◌⊎◌, ◌<◌, ◌≤◌, ◌↔◌, [], ◌∷◌, List, length, IsTrue, IfErr, IfOk, OnErr, OnOk, MatchOption, None, Some};
ghost use Rattle.std.specs.List.{Contains};
ghost use Rattle.blocks.specs.Chains.{IsChain};
ghost use Rattle.blocks.specs.Headers.{Header as HeaderValue, IsGenesis, NamesParent};
ghost use Rattle.blocks.specs.Replay.{IsOnLock, replay};
ghost use Rattle.blocks.specs.Replica.{Raise, Vote, after, first_state, timed_out};
ghost use Rattle.base_wire.specs.declared.limits.TheConstants.{MOST_ENTRIES};
ghost use Rattle.replica_core.specs.Admission.{HasPlace, IsAdmissible, IsCoreRefusal};
ghost use Rattle.replica_core.specs.Cores.{IsHeaderTree, IsSameCore, restarted_with};
ghost use Rattle.replica_core.specs.Marks.{HasNoMarked, HasNoMarkedIn, IsFirstMarked, IsFirstMarkedIn};
ghost use Rattle.replica_core.specs.Plans.{CommitsBy, HasRoomFor, HoldsAlso, IsActOn, IsChainOf, IsHeldParent, IsPlan, TakesEvent, event_of, is_three_chain};
ghost use Rattle.replica_core.specs.Restarts.{HoldsLinked};
ghost use Rattle.blocks.specs.Chains.{HasNone};
ghost use Rattle.replica_core.specs.Tables.{HasId};

use crate::durable::{Durable, Lock};
use crate::marks::{MARK_LEN, is_marked};
use crate::plan::{Act, Plan};
use crate::refusal::CoreRefusal;
use crate::restart::{replay, restored_headers};
use crate::stored::Stored;
use crate::table::HeaderTable;
use blocks::{Header, Id, NamedHeader, rules_look_at_the_parent};
use certificates::CheckedBlock;
use std::alloc::{AllocError, Global};
use std::marker::Model;

/// How many headers a core holds at the most, genesis among them.
pub const MOST_HEADERS: usize = 65_536;

/// The core of a replica: its vote view, its stored vote view, its lock, and the headers that it holds,
/// each with its whole chain down to genesis.
#[derive(Drop)]
pub struct Core {
    genesis: Header,
    vote_view: u64,
    durable: Durable,
    held: HeaderTable,
}

impl Model for Core {
    ghost use Rattle.replica_core.specs.Cores.{Core as CoreValue, IsHeaderTree, state_of};

    ghost Value = { CoreValue };

    ghost view = { λ c. record {
      genesis = c.genesis;
      state = state_of c.vote_view c.durable;
      headers = c.held.headers;
      room = c.held.room;
    } };

    ghost invariant = { λ c. IsHeaderTree c.genesis c.held.headers };
}

// Whether the views of the three rise by one, and the first is not genesis.
fn is_three_chain(first: &Header, middle: &Header, last: &Header) -> bool
    requires below { first.now.view < middle.now.view }
    requires above { middle.now.view < last.now.view }
    ensures { result ≡ is_three_chain first.now middle.now last.now }
{
    last.view - middle.view == 1 && middle.view - first.view == 1 && first.view > 0
}

impl Core {
    /// A new replica's core: no vote, locked on genesis, which alone is held. Genesis must have the view 0.
    /// Answers an error where memory was refused.
    pub fn new(alloc: Global, genesis: Header) -> Result<Core, AllocError>
        requires { IsGenesis genesis }
        ensures genesis { IfOk result (λ c. c.genesis ≡ genesis) }
        ensures state { IfOk result (λ c. c.state ≡ first_state genesis) }
        ensures headers { IfOk result (λ c. c.headers ≡ genesis ∷ []) }
    {
        let named = NamedHeader::of(genesis);
        let mut held = HeaderTable::new(alloc);
        held.reserve()?;
        held.push_reserved(&named);
        Ok(Core {
            genesis,
            vote_view: 0,
            durable: Durable::first(&named),
            held,
        })
    }

    /// A core made again from the stored entries. Its vote view is the view of the last vote that they tell
    /// of, and its lock is theirs. Of genesis and the headers of the entries, those are held that have a
    /// chain down to genesis among them; where two have one id, the one that stands first counts, genesis
    /// before all entries, and the block of an entry before its parent. Other headers are to be delivered
    /// again. Genesis must have the view 0, and there must be at most 4,096 entries. Answers an error where
    /// memory was refused.
    pub fn restart(alloc: Global, genesis: Header, entries: &[Stored]) -> Result<Core, AllocError>
        requires genesis { IsGenesis genesis }
        requires few { length entries.now ≤ MOST_ENTRIES }
        ensures genesis { IfOk result (λ c. c.genesis ≡ genesis) }
        ensures state { IfOk result (λ c. c.state ≡ restarted_with (replay genesis entries.now)) }
        ensures headers { IfOk result (λ c. HoldsLinked genesis entries.now c.headers) }
    {
        let named = NamedHeader::of(genesis);
        let held = restored_headers(alloc, &named, entries)?;
        let durable = replay(&named, entries);
        Ok(Core {
            genesis,
            vote_view: durable.stored_vote_view(),
            durable,
            held,
        })
    }

    /// The header in which each chain ends.
    pub fn genesis(&self) -> &Header
        ensures value { result.now ≡ self.now.genesis }
        ensures tree { IsHeaderTree self.now.genesis self.now.headers }
    {
        &self.genesis
    }

    /// The greatest view of a vote, or of a timeout since the last restart.
    pub fn vote_view(&self) -> u64
        ensures { result ≡ self.now.state.vote_view }
    {
        self.vote_view
    }

    /// The view of the last vote, which a restart goes back to.
    pub fn stored_vote_view(&self) -> u64
        ensures { result ≡ self.now.state.stored_vote_view }
    {
        self.durable.stored_vote_view()
    }

    /// The lock.
    pub fn lock(&self) -> Lock
        ensures id { result.id ≡ self.now.state.lock_id }
        ensures view { result.view ≡ self.now.state.lock_view }
    {
        self.durable.lock()
    }

    /// Whether a header of this id is held.
    pub fn holds(&self, id: &Id) -> bool
        ensures { IsTrue result ↔ ((h : HeaderValue) × HasId self.now.headers id.now h) }
    {
        self.held.get(id).is_some()
    }

    /// How many headers are held, genesis among them.
    pub fn header_count(&self) -> usize
        ensures value { result ≡ length self.now.headers }
        ensures few { result ≤ MOST_HEADERS }
    {
        self.held.len()
    }

    // The held header of this id.
    fn find(&self, id: &Id) -> Option<&Header>
        ensures found { MatchOption result (HasNone self.now.headers id.now) (λ h.
            HasId self.now.headers id.now h.now) }
        ensures tree { IsHeaderTree self.now.genesis self.now.headers }
    {
        self.held.get(id)
    }

    // The parent of a held header, or none of genesis.
    fn parent_of(&self, header: &Header) -> Option<&Header>
        requires { Contains self.now.headers header.now }
        ensures parent { MatchOption result (header.now ≡ self.now.genesis) (λ p.
            IsHeldParent self.now header.now p.now) }
        ensures tree { IsHeaderTree self.now.genesis self.now.headers }
    {
        if *header == *self.genesis() {
            return None;
        }
        self.find(&header.parent)
    }

    // The first marked header in the chain of a held one, that one among them.
    fn first_from(&self, tip: &Header, mark: &[u8; MARK_LEN]) -> Option<Header>
        requires { Contains self.now.headers tip.now }
        ensures { MatchOption result (HasNoMarked self.now mark.now tip.now)
            (IsFirstMarked self.now mark.now tip.now) }
    {
        // For the proof: each held header has its chain.
        let _tree = self.genesis();
        let mut at = *tip;
        let mut first = None;
        while let Some(parent) = self.parent_of(&at) {
            if is_marked(&at, mark) {
                first = Some(at);
            }
            at = *parent;
        }
        first
    }

    /// The first marked header in the chain of the held header of this id, that one among them: none below it is marked.
    /// None if there is none, or no header of this id is held.
    pub fn first_in_chain(&self, id: &Id, mark: &[u8; MARK_LEN]) -> Option<Header>
        ensures { MatchOption result (HasNoMarkedIn self.now mark.now id.now)
            (IsFirstMarkedIn self.now mark.now id.now) }
    {
        let tip = *self.find(id)?;
        self.first_from(&tip, mark)
    }

    // The id of the block that a certificate on this held header commits.
    #[tactic(auto, using(crate::proofs::Trees::commits_of_root, crate::proofs::Trees::commits_of_second, crate::proofs::Trees::commits_first, crate::proofs::Trees::commits_none))]
    fn committed_by(&self, header: &Header) -> Option<Id>
        requires { Contains self.now.headers header.now }
        ensures { CommitsBy self.now header.now result }
    {
        let middle = self.parent_of(header)?;
        let first = self.parent_of(middle)?;
        if is_three_chain(first, middle, header) {
            Some(middle.parent)
        } else {
            None
        }
    }

    // Whether the rule of voting holds for a block: its view is above the vote view, and its parent is the
    // lock or younger than it.
    fn may_vote(&self, block: &Header) -> bool
        ensures { IsTrue result ↔ ((self.now.state.vote_view < block.now.view)
            × ((self.now.state.lock_view < block.now.parent_view)
            ⊎ IsOnLock self.now.state block.now)) }
    {
        let lock = self.durable.lock();
        self.vote_view < block.view
            && (lock.view < block.parent_view
                || (block.parent == lock.id && block.parent_view == lock.view))
    }

    // What the replica does with a block on this parent.
    fn act_for(&self, block: &Header, parent: &Header) -> Act
        ensures { (ps : List HeaderValue) → IsChain self.now.genesis block.now (parent.now ∷ ps)
            → IsActOn self.now.genesis self.now.state block.now (parent.now ∷ ps) result }
    {
        // For the proof: the rules need no header behind the parent.
        rules_look_at_the_parent();
        if self.may_vote(block) {
            Act::Vote
        } else if self.durable.lock().view < parent.parent_view {
            Act::Raise
        } else {
            Act::Pass
        }
    }

    // Whether the block is held, or there is a place for it.
    fn has_place(&self, block: &NamedHeader) -> bool
        ensures { IsTrue result ↔ HasPlace self.now block.now }
    {
        self.held.holds(block) || self.held.len() < MOST_HEADERS
    }

    // The tests of a block in their order, but for memory: the parent where it passes.
    #[tactic(auto, using(crate::proofs::Trees::one_of_id))]
    fn judge(&self, block: &NamedHeader) -> Result<&Header, CoreRefusal>
        ensures ok { OnOk result (IsAdmissible self.now block.now) }
        ensures parent { IfOk result (λ p. HasId self.now.headers block.now.parent p.now
            × (p.now.view ≡ block.now.parent_view)) }
        ensures err { IfErr result (λ refusal. IsCoreRefusal refusal self.now block.now) }
    {
        let header = block.header();
        let Some(parent) = self.held.get(&header.parent) else {
            return Err(CoreRefusal::UnknownParent);
        };
        if parent.view != header.parent_view {
            return Err(CoreRefusal::ParentView);
        }
        if !self.has_place(block) {
            return Err(CoreRefusal::TreeFull);
        }
        if !self.held.has_own_id(block) {
            return Err(CoreRefusal::SameId);
        }
        Ok(parent)
    }

    // Makes room for the block, unless it is held.
    fn make_room(&mut self, block: &NamedHeader) -> Result<(), AllocError>
        ensures same { IsSameCore self.old self.new }
        ensures ok { OnOk result (Contains self.new.headers block.now
            ⊎ ((Contains self.new.headers block.now → ⊥) × (0 < self.new.room))) }
        ensures err { OnErr result ((Contains self.old.headers block.now → ⊥)
            × (self.old.room ≡ 0)) }
    {
        if self.held.holds(block) {
            return Ok(());
        }
        self.held.reserve()
    }

    // The plan for a block that passes the tests, on this parent.
    fn plan(&self, block: &NamedHeader, parent: &Header) -> Plan
        requires admissible { IsAdmissible self.now block.now }
        requires room { Contains self.now.headers block.now
            ⊎ ((Contains self.now.headers block.now → ⊥) × (0 < self.now.room)) }
        requires held { Contains self.now.headers parent.now }
        requires names { NamesParent block.now parent.now }
        requires older { parent.now.view < block.now.view }
        ensures plan { IsPlan self.now result }
        ensures block { result.block ≡ block.now }
    {
        Plan {
            act: self.act_for(block.header(), parent),
            block: *block,
            parent: *parent,
            committed: self.committed_by(parent),
        }
    }

    /// Plans what to do with a block, and makes room for it, so that `apply` cannot fail. A block that is
    /// held already is planned anew. State and headers stay, whether the block is planned or refused.
    /// Refused in this order: UnknownParent, ParentView, TreeFull, SameId, Memory.
    pub fn admit(&mut self, block: &CheckedBlock) -> Result<Plan, CoreRefusal>
        // Vote exactly where the replica may vote, else Raise exactly where it may raise its lock, else
        // Pass; and what the block commits.
        ensures plan { IfOk result (IsPlan self.new) }
        ensures block { IfOk result (λ plan. plan.block ≡ block.now.header) }

        // The first test that fails refuses.
        ensures passes { OnOk result (IsAdmissible self.old block.now.header) }
        ensures first_refusal { IfErr result (λ refusal.
            IsCoreRefusal refusal self.old block.now.header) }

        // The state and the headers are as before.
        ensures same { IsSameCore self.old self.new }
    {
        // For the proof: the views of a header are in order.
        let _view = block.header().view;
        let block = block.named();
        let parent = *self.judge(block)?;
        self.make_room(block)?;
        Ok(self.plan(block, &parent))
    }

    // Holds the block as well.
    #[tactic(auto, using(crate::proofs::Trees::tree_push))]
    fn hold(&mut self, block: &NamedHeader)
        requires chain { (ps : List HeaderValue) × IsChainOf self.old block.now ps }
        requires place { Contains self.old.headers block.now ⊎ HasRoomFor self.old block.now }
        ensures headers { HoldsAlso self.old.headers self.new.headers block.now }
        ensures genesis { self.new.genesis ≡ self.old.genesis }
        ensures state { self.new.state ≡ self.old.state }
    {
        if !self.held.holds(block) {
            self.held.push_reserved(block);
        }
    }

    // Votes for a block on this parent.
    fn vote(&mut self, block: &Header, parent: &Header)
        ensures headers { self.new.headers ≡ self.old.headers }
        ensures genesis { self.new.genesis ≡ self.old.genesis }
        ensures state { (ps : List HeaderValue)
            → IsChain self.old.genesis block.now (parent.now ∷ ps)
            → self.new.state ≡ after self.old.state (Vote block.now (parent.now ∷ ps)) }
    {
        // For the proof: the rules need no header behind the parent.
        rules_look_at_the_parent();
        self.vote_view = block.view;
        self.durable.take(&Stored {
            voted: true,
            block: *block,
            parent: *parent,
        });
    }

    // Raises the lock for a block on this parent.
    fn raise(&mut self, block: &Header, parent: &Header)
        ensures headers { self.new.headers ≡ self.old.headers }
        ensures genesis { self.new.genesis ≡ self.old.genesis }
        ensures state { (ps : List HeaderValue)
            → IsChain self.old.genesis block.now (parent.now ∷ ps)
            → self.new.state ≡ after self.old.state (Raise block.now (parent.now ∷ ps)) }
    {
        // For the proof: the rules need no header behind the parent.
        rules_look_at_the_parent();
        self.durable.take(&Stored {
            voted: false,
            block: *block,
            parent: *parent,
        });
    }

    // Does the act for a block on this parent.
    fn act(&mut self, act: Act, block: &Header, parent: &Header)
        ensures headers { self.new.headers ≡ self.old.headers }
        ensures genesis { self.new.genesis ≡ self.old.genesis }
        ensures state { (ps : List HeaderValue)
            → IsChain self.old.genesis block.now (parent.now ∷ ps)
            → self.new.state ≡ after self.old.state (event_of act block.now (parent.now ∷ ps)) }
    {
        match act {
            Act::Vote => self.vote(block, parent),
            Act::Raise => self.raise(block, parent),
            Act::Pass => {}
        }
    }

    /// Holds the plan's block, whatever the act, and does the act. It cannot fail and takes no memory. The
    /// plan must be one of the state that the core is in, as `admit` gives it where nothing is changed in
    /// between.
    pub fn apply(&mut self, plan: Plan)
        requires { IsPlan self.old plan }
        ensures headers { HoldsAlso self.old.headers self.new.headers plan.block }
        ensures genesis { self.new.genesis ≡ self.old.genesis }

        // The state is that after the vote, the raised lock, or the block that is passed by.
        ensures state { TakesEvent self.old plan self.new.state }
    {
        self.hold(&plan.block);
        self.act(plan.act, plan.block.header(), &plan.parent);
    }

    /// Holds the plan's block, whatever the act, and does no more. It cannot fail and takes no memory. The plan must be one of the state
    /// that the core is in, as for `apply`.
    pub fn hold_only(&mut self, plan: &Plan)
        requires { IsPlan self.old plan.now }
        ensures headers { HoldsAlso self.old.headers self.new.headers plan.now.block }
        ensures genesis { self.new.genesis ≡ self.old.genesis }
        ensures state { self.new.state ≡ self.old.state }
    {
        self.hold(&plan.block);
    }

    /// Gives up on all views up to this one: the vote view rises to it where it is lower. A restart forgets
    /// it.
    pub fn timeout(&mut self, view: u64)
        ensures { self.new ≡ record self.old { state = timed_out self.old.state view } }
    {
        if self.vote_view < view {
            self.vote_view = view;
        }
    }
}
