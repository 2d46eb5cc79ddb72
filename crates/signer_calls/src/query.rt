//! What the query of a call names.

ghost use Rattle.std.specs.Prelude.{◌≡◌, ◌↔◌, ◌++◌, ◌∷◌, ◌<◌, ◌^◌, ℕ, IfNone, IfSome, IsTrue, MatchOption, Some, decimal, option_copied};
ghost use Rattle.std.specs.List.{Contains};
ghost use Rattle.signer_calls.specs.Queries.{AreThreeMore, AreTwoMore, HasGoodQuery, IsOfPayload, IsOneMore, IsParameter, IsQuery, no_query, with_parameter};

use crate::target::{Queries, behind, id_in};
use base_text::number_in;
use blocks::Id;

/// What a query names.
#[derive(Clone, Copy)]
pub(crate) struct Query {
    pub chain: Option<Id>,
    pub first: Option<u32>,
    pub most: Option<u32>,
    pub payload: Option<[u8; 32]>,
}

/// What a parameter of a query says.
#[derive(Clone, Copy)]
pub(crate) enum Parameter {
    Chain(Id),
    First(u32),
    Most(u32),
    Payload([u8; 32]),
}

impl Query {
    // Nothing is named.
    fn new() -> Query
        ensures { result ≡ no_query }
    {
        Query {
            chain: None,
            first: None,
            most: None,
            payload: None,
        }
    }

    // This is named, too, unless it was named before.
    fn with(self, parameter: Parameter) -> Option<Query>
        ensures { result ≡ with_parameter self parameter }
    {
        match parameter {
            Parameter::Chain(chain) => self.with_chain(chain),
            Parameter::First(first) => self.with_first(first),
            Parameter::Most(most) => self.with_most(most),
            Parameter::Payload(payload) => self.with_payload(payload),
        }
    }

    fn with_chain(self, chain: Id) -> Option<Query>
        ensures { result ≡ with_parameter self (Parameter.Chain chain) }
    {
        match self.chain {
            Some(_) => None,
            None => Some(Query {
                chain: Some(chain),
                first: self.first,
                most: self.most,
                payload: self.payload,
            }),
        }
    }

    fn with_first(self, first: u32) -> Option<Query>
        ensures { result ≡ with_parameter self (Parameter.First first) }
    {
        match self.first {
            Some(_) => None,
            None => Some(Query {
                chain: self.chain,
                first: Some(first),
                most: self.most,
                payload: self.payload,
            }),
        }
    }

    fn with_most(self, most: u32) -> Option<Query>
        ensures { result ≡ with_parameter self (Parameter.Most most) }
    {
        match self.most {
            Some(_) => None,
            None => Some(Query {
                chain: self.chain,
                first: self.first,
                most: Some(most),
                payload: self.payload,
            }),
        }
    }

    fn with_payload(self, payload: [u8; 32]) -> Option<Query>
        ensures { result ≡ with_parameter self (Parameter.Payload payload) }
    {
        match self.payload {
            Some(_) => None,
            None => Some(Query {
                chain: self.chain,
                first: self.first,
                most: self.most,
                payload: Some(payload),
            }),
        }
    }

    // Whether it names a payload, and beside it the chain at most.
    fn is_of_payload(&self) -> bool
        ensures { IsTrue result ↔ IsOfPayload self.now }
    {
        self.payload.is_some() && self.first.is_none() && self.most.is_none()
    }
}

// What a query names.
pub(crate) fn named_in(query: Option<&str>) -> Option<Query>
    ensures { MatchOption result ((q : Query) → IsQuery (option_copied query.entry) q → ⊥)
        (IsQuery (option_copied query.entry)) }
{
    let Some(query) = query else {
        return Some(Query::new());
    };
    three_in(query.as_bytes(), Query::new())
}

// Whether a query names a payload, and beside it the chain at most.
pub(crate) fn names_payload(query: Option<&str>) -> bool
    ensures { IsTrue result ↔ HasGoodQuery Queries.Payload (option_copied query.entry) }
{
    match named_in(query) {
        Some(named) => named.is_of_payload(),
        None => false,
    }
}

fn three_in(text: &[u8], before: Query) -> Option<Query>
    ensures { MatchOption result ((q : Query) → AreThreeMore before text.now q → ⊥)
        (AreThreeMore before text.now) }
{
    let Some((front, back)) = cut(text) else {
        return one_in(text, before);
    };
    let one = one_in(front, before)?;
    two_in(back, one)
}

fn two_in(text: &[u8], before: Query) -> Option<Query>
    ensures { MatchOption result ((q : Query) → AreTwoMore before text.now q → ⊥)
        (AreTwoMore before text.now) }
{
    let Some((front, back)) = cut(text) else {
        return one_in(text, before);
    };
    let one = one_in(front, before)?;
    one_in(back, one)
}

fn one_in(text: &[u8], before: Query) -> Option<Query>
    ensures { MatchOption result ((q : Query) → IsOneMore before text.now q → ⊥)
        (IsOneMore before text.now) }
{
    let parameter = parameter_in(text)?;
    before.with(parameter)
}

fn parameter_in(text: &[u8]) -> Option<Parameter>
    ensures { MatchOption result ((p : Parameter) → IsParameter text.now p → ⊥)
        (IsParameter text.now) }
{
    if let Some(digits) = behind(text, b"chain=") {
        return Some(Parameter::Chain(id_in(digits)?));
    }
    if let Some(digits) = behind(text, b"first=") {
        return Some(Parameter::First(small_number_in(digits)?));
    }
    if let Some(digits) = behind(text, b"most=") {
        return Some(Parameter::Most(small_number_in(digits)?));
    }
    let digits = behind(text, b"payload=")?;
    Some(Parameter::Payload(id_in(digits)?))
}

// The number of 32 bits that is printed so.
fn small_number_in(digits: &[u8]) -> Option<u32>
    ensures some { IfSome result (λ number. digits.now ≡ decimal number) }
    ensures none { IfNone result ((number : ℕ) → number < 2 ^ 32 → digits.now ≡ decimal number
        → ⊥) }
{
    let number = number_in(digits)?;
    if number > u64::from(u32::MAX) {
        return None;
    }
    Some(number as u32)
}

// What stands before the first `&`, and what stands behind it.
fn cut(text: &[u8]) -> Option<(&[u8], &[u8])>
    ensures none { IfNone result (Contains text.now 38 → ⊥) }
    ensures some { IfSome result (λ parts. (text.now ≡ parts.0.now ++ 38 ∷ parts.1.now)
        × (Contains parts.0.now 38 → ⊥)) }
{
    let at = text.iter().position(|byte| *byte == b'&')?;
    Some((&text[..at], &text[at + 1..]))
}
