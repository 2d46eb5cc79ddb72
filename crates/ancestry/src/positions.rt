//! Known headers by their positions: those of the list by their places in it, and behind them genesis.

ghost use Rattle.std.specs.Prelude.{◌≡◌, ◌≢◌, ◌<◌, ◌≤◌, ◌∷◌, IsTrue, MatchOption, length};
ghost use Rattle.std.specs.List.{All, AllPairs, Contains, HoldsAt};
ghost use Rattle.blocks.specs.Headers.{Header as HeaderValue, HasLowerId, header_id};
ghost use Rattle.ancestry.specs.Known.{Known, all_of, IsKnown};
ghost use Rattle.ancestry.specs.Links.{header_at};

use blocks::{Id, NamedHeader};

/// The place of the header of this id, among headers whose ids rise; None where none of them has it. A binary
/// search.
pub(crate) fn place_of(headers: &[NamedHeader], id: &Id) -> Option<usize>
    requires { AllPairs HasLowerId headers.now }
    ensures { MatchOption result (All (λ h. header_id h ≢ id.now) headers.now)
        (λ k. (k < length headers.now) × HoldsAt (λ h. header_id h ≡ id.now) headers.now k) }
{
    match headers.binary_search_by(|h| h.id().cmp(id)) {
        Ok(k) => Some(k),
        Err(_) => None,
    }
}

/// The header at this position.
pub(crate) fn header_at<'a>(
    genesis: &'a NamedHeader,
    headers: &'a [NamedHeader],
    at: usize,
) -> &'a NamedHeader
    ensures { result.now ≡ header_at (record { genesis = genesis.now; headers = headers.now }) at }
{
    match headers.get(at) {
        Some(h) => h,
        None => genesis,
    }
}

/// The position of the known header of this id.
pub(crate) fn position_of(genesis: &NamedHeader, headers: &[NamedHeader], id: &Id) -> Option<usize>
    requires { IsKnown (record { genesis = genesis.now; headers = headers.now }) }
    ensures { let known : Known = record { genesis = genesis.now; headers = headers.now } in
        MatchOption result ((h : HeaderValue) → Contains (all_of known) h → header_id h ≢ id.now)
        (λ k. (k ≤ length headers.now) × (header_id (header_at known k) ≡ id.now)) }
{
    if genesis.id() == id {
        return Some(headers.len());
    }
    place_of(headers, id)
}
