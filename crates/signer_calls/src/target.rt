//! What the path of a call names.

ghost use Rattle.std.specs.Prelude.{◌≡◌, ◌≢◌, ◌↔◌, ◌++◌, ℕ, List, IsTrue, MatchOption};
ghost use Rattle.signer_calls.specs.Places.{IsIdOf, IsNamedPlace, IsPlace, has_no_id, is_nowhere, is_of_renewal, is_posted, methods_of, queries_of};

use base_text::{id_digits, number_in};
use blocks::Id;

/// What a call is about: what its path names, and at `/successor` its method, too.
#[derive(Clone, Copy, Debug, PartialEq, Eq)]
pub enum CallTarget {
    /// `/block`
    Block,
    /// `/blocks`
    Blocks,
    /// `/timeout/V`, if V is a number of 64 bits as it is printed.
    Timeout(Option<u64>),
    /// `/vote`
    Vote,
    /// `/certificate`
    Certificate,
    /// `/over`
    Over,
    /// `/endorse`
    Endorse,
    /// `/successor`, when something is posted there to a signer that goes over: no path alone names it.
    Renewal,
    /// `/vote/V`, if V is a number of 64 bits as it is printed.
    VoteIn(Option<u64>),
    /// `/block/ID`, if ID is 64 hex digits in lower case.
    Header(Option<Id>),
    /// `/successor`
    Successor,
    /// `/log`
    Log,
    /// `/status`
    Status,
    /// `/live`
    Live,
    /// `/health`
    Health,
    /// `/metrics`
    Metrics,
    /// Any other path.
    Nowhere,
}

/// By which methods a place is asked.
#[derive(Clone, Copy, Debug, PartialEq, Eq)]
pub enum Methods {
    /// POST alone.
    Post,
    /// GET and HEAD.
    Get,
}

/// What the query of a place may name.
#[derive(Clone, Copy, Debug, PartialEq, Eq)]
pub(crate) enum Queries {
    /// There is none.
    Nothing,
    /// The chain.
    Chain,
    /// A payload, which is there, and the chain.
    Payload,
    /// The chain, and a part of the log.
    Part,
}

impl CallTarget {
    pub(crate) fn methods(self) -> Methods
        ensures { result ≡ methods_of self }
    {
        match self {
            CallTarget::Block
            | CallTarget::Timeout(_)
            | CallTarget::Vote
            | CallTarget::Certificate => Methods::Post,
            CallTarget::Blocks | CallTarget::Over | CallTarget::Endorse | CallTarget::Renewal =>
                Methods::Post,
            _ => Methods::Get,
        }
    }

    pub(crate) fn is_posted(self) -> bool
        ensures { result ≡ is_posted (methods_of self) }
    {
        match self.methods() {
            Methods::Post => true,
            Methods::Get => false,
        }
    }

    // What a query may name there.
    pub(crate) fn queries(self) -> Queries
        ensures { result ≡ queries_of self }
    {
        match self {
            CallTarget::Log => Queries::Part,
            CallTarget::Successor => Queries::Payload,
            CallTarget::Block
            | CallTarget::Timeout(_)
            | CallTarget::Vote
            | CallTarget::Certificate => Queries::Chain,
            CallTarget::Blocks | CallTarget::Over | CallTarget::Endorse | CallTarget::Renewal =>
                Queries::Chain,
            CallTarget::VoteIn(_) | CallTarget::Header(_) => Queries::Chain,
            _ => Queries::Nothing,
        }
    }

    // Whether it names a block by what is no id.
    pub(crate) fn has_no_id(self) -> bool
        ensures { result ≡ has_no_id self }
    {
        match self {
            CallTarget::Header(None) => true,
            _ => false,
        }
    }

    // Whether it is there only where the signer goes over from one committee to the next.
    pub(crate) fn is_of_renewal(self) -> bool
        ensures { result ≡ is_of_renewal self }
    {
        match self {
            CallTarget::Over | CallTarget::Endorse | CallTarget::Renewal => true,
            _ => false,
        }
    }

    pub(crate) fn is_nowhere(self) -> bool
        ensures { result ≡ is_nowhere self }
    {
        match self {
            CallTarget::Nowhere => true,
            _ => false,
        }
    }
}

// What the path names.
pub(crate) fn place_of(path: &[u8]) -> CallTarget
    ensures { IsPlace path.now result }
{
    if let Some(digits) = behind(path, b"/timeout/") {
        return CallTarget::Timeout(number_in(digits));
    }
    if let Some(digits) = behind(path, b"/vote/") {
        return CallTarget::VoteIn(number_in(digits));
    }
    if let Some(digits) = behind(path, b"/block/") {
        return CallTarget::Header(id_in(digits));
    }
    named_place(path)
}

// What a path names that has no argument.
fn named_place(path: &[u8]) -> CallTarget
    ensures { IsNamedPlace path.now result }
{
    if is_same(path, b"/block") {
        return CallTarget::Block;
    }
    if is_same(path, b"/blocks") {
        return CallTarget::Blocks;
    }
    if is_same(path, b"/vote") {
        return CallTarget::Vote;
    }
    if is_same(path, b"/certificate") {
        return CallTarget::Certificate;
    }
    if is_same(path, b"/over") {
        return CallTarget::Over;
    }
    if is_same(path, b"/endorse") {
        return CallTarget::Endorse;
    }
    if is_same(path, b"/successor") {
        return CallTarget::Successor;
    }
    if is_same(path, b"/log") {
        return CallTarget::Log;
    }
    if is_same(path, b"/status") {
        return CallTarget::Status;
    }
    if is_same(path, b"/live") {
        return CallTarget::Live;
    }
    if is_same(path, b"/health") {
        return CallTarget::Health;
    }
    if is_same(path, b"/metrics") {
        return CallTarget::Metrics;
    }
    CallTarget::Nowhere
}

/// The id that is printed so: 64 hex digits in lower case.
pub fn id_in(digits: &[u8]) -> Option<Id>
    ensures { IsIdOf digits.now result }
{
    let mut id = [0; 32];
    if hex::decode_to_slice(digits, &mut id).is_err() {
        return None;
    }
    if !is_same(&id_digits(&id), digits) {
        return None;
    }
    Some(id)
}

// What stands behind the word that the text begins with.
pub(crate) fn behind<'a>(text: &'a [u8], word: &[u8]) -> Option<&'a [u8]>
    ensures { MatchOption result ((rest : List ℕ) → text.now ≢ word.now ++ rest) (λ rest.
        text.now ≡ word.now ++ rest.now) }
{
    text.strip_prefix(word)
}

pub(crate) fn is_same(a: &[u8], b: &[u8]) -> bool
    ensures { IsTrue result ↔ (a.now ≡ b.now) }
{
    a == b
}
