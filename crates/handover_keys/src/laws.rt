//! Laws on statements of next keys: each function's contract is the law, which holds where the function is called. Nothing is
//! computed.

ghost use Rattle.handover_keys.specs.BoundIds.{AnIdIsBoundToOnePlace};
ghost use Rattle.handover_keys.specs.Endorsements.{NoStatementIsAVote, NothingReadIsAVote};
ghost use Rattle.handover_keys.specs.NextKeys.{NextKeysHaveOneSpelling};

/// Two statements of the same bytes are one.
pub fn next_keys_have_one_spelling()
    ensures { NextKeysHaveOneSpelling }
{}

/// A key id is bound to one place, of a chain, a replica and a key's number, where no two different texts among those of these places have
/// digests with the same first 16 bytes: so a key with a bound id fits no other slot, committee or lineage.
pub fn an_id_is_bound_to_one_place()
    ensures { AnIdIsBoundToOnePlace }
{}

/// No text is both a statement of next keys and what a vote signs: so a signature on the one is none on the other.
pub fn no_statement_is_a_vote()
    ensures written { NoStatementIsAVote }
    ensures read { NothingReadIsAVote }
{}
