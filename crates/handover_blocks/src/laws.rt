//! Laws on handovers: each function's contract is the law. Nothing is computed.

ghost use Rattle.handover_blocks.specs.HandoverLaws.{DifferentSuccessorsAccuse, FirstHandoversAreOneOrAccuse, FirstsStandInTheHighestChain, HandoversStayProved, LineagesPartAtOneCommittee, OneFirstWhereNoneConflict, SuccessorsInTwoHandsAccuse};

use audit_commits::{a_conflict_accuses_more_than_a_third, evidence_names_each_header_once};

/// What evidence proves of a commit, of a first handover and of a next committee each evidence proves that includes it.
pub fn a_handover_stays_proved()
    ensures { HandoversStayProved }
{}

/// Where two blocks are each the first of a kind on a committed chain, they are one, or more than a third of the weight are
/// culprits. The kind is any test of headers.
pub fn first_handovers_are_one_or_accuse()
    ensures { FirstHandoversAreOneOrAccuse }
{
    a_conflict_accuses_more_than_a_third();
    evidence_names_each_header_once();
}

/// Where evidence proves two next committees by different payloads, more than a third of the weight are culprits: in one
/// evidence, and in any that includes what two parties hold.
pub fn different_successors_accuse_more_than_a_third()
    ensures of_one { DifferentSuccessorsAccuse }
    ensures in_two_hands { SuccessorsInTwoHandsAccuse }
{
    a_conflict_accuses_more_than_a_third();
    evidence_names_each_header_once();
}

/// Where no two commits conflict there is one first handover at most, and it stands in the chain of the highest commit.
pub fn a_first_handover_is_alone()
    ensures highest { FirstsStandInTheHighestChain }
    ensures alone { OneFirstWhereNoneConflict }
{
    evidence_names_each_header_once();
}

/// Two lineages from one committee name the same committees as far as both go, or there is a committee that each of them
/// reached and of which they prove different next ones.
pub fn lineages_part_at_one_committee()
    ensures { LineagesPartAtOneCommittee }
{}
