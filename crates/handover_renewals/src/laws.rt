//! Laws on renewals: each function's contract is the law, which holds where the function is called. Nothing is computed.

ghost use Rattle.handover_renewals.specs.RenewalLaws.{ASlotIsKeptOrSignedFor, AQuorumIsTheSame, EachSetWeighsTheSame, NewKeysHaveOnePlace};

/// Where a committee renews another, each of its slots has the keys that it has there, or those that a good endorsement under the
/// other committee states.
pub fn each_slot_is_kept_or_signed_for()
    ensures { ASlotIsKeptOrSignedFor }
{}

/// Where a committee renews another, the ids of the keys of its new slots are bound to these slots behind the other committee and to no
/// other place, where no two different texts among those of these places have digests with the same first 16 bytes: so they are keys of no
/// other slot, and of no other committee whose keys have bound ids.
pub fn new_keys_have_one_place()
    ensures { NewKeysHaveOnePlace }
{}

/// Where a committee renews another, each set of replicas weighs the same in both, and so does a quorum.
pub fn a_renewal_keeps_the_weight()
    ensures sets { EachSetWeighsTheSame }
    ensures quorum { AQuorumIsTheSame }
{}
