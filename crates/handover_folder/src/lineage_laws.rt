//! The laws.

ghost use Rattle.handover_folder.specs.OwnKeys.{ItsNextKeysAreTheSame, ItsSlotIsItsOwn, OneEndorsementAChain};
ghost use Rattle.handover_folder.specs.Renewed.{AQuorumIsTheSameInTheLast, EachSetWeighsTheSameInTheLast, EachSlotIsHandedOn, TheLastHasAsMany};

/// From each committee to the next one a slot keeps its keys, or gets such as one of its keys signed for.
pub fn each_slot_is_handed_on()
    ensures { EachSlotIsHandedOn }
{}

/// The last committee has as many replicas as the first one; each set of them weighs the same in both; and a quorum is the same.
pub fn a_lineage_keeps_the_weight()
    ensures replicas { TheLastHasAsMany }
    ensures sets { EachSetWeighsTheSameInTheLast }
    ensures quorum { AQuorumIsTheSameInTheLast }
{}

/// A replica with one journal of words for each chain told at most one endorsement of a chain, over all its stays, crashes and restarts.
pub fn one_endorsement_a_chain()
    ensures { OneEndorsementAChain }
{}

/// Where nobody else signs with a replica's own keys, its slot has its own keys in each committee; and all committees that renew one
/// committee have the same keys there, if they have new ones there.
pub fn a_slot_is_its_replicas_own()
    ensures own { ItsSlotIsItsOwn }
    ensures alike { ItsNextKeysAreTheSame }
{}
