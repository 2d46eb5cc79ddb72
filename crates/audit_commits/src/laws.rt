//! Laws on what evidence proves.

ghost use Rattle.audit_commits.specs.AccountabilityLaws.{AConflictAccusesMoreThanAThird, EvidenceOfAConflictAccusesMoreThanAThird, AThirdIsMoreThanF, AQuorumOfOnceIsTwoFPlusOne, ACulpritHasOneNamedPair, EvidenceNamesEachHeaderOnce};

/// Where two proved commits conflict, the culprits have more than a third of the weight, of a committee whose quorums
/// have more than two thirds of it, where no two different headers in evidence have one id. So of the committee of the
/// evidence, with no such premise: evidence names each header once.
pub fn a_conflict_accuses_more_than_a_third()
    ensures of_any { AConflictAccusesMoreThanAThird }
    ensures of_evidence { EvidenceOfAConflictAccusesMoreThanAThird }
{}

/// Of 3f + 1 replicas that count once, more than a third of the weight is at least f + 1.
pub fn a_third_is_more_than_f()
    ensures { AThirdIsMoreThanF }
{}

/// Of 3f + 1 replicas that count once, a quorum is 2f + 1, and each vote weighs 1.
pub fn a_quorum_of_once_is_two_f_plus_one()
    ensures { AQuorumOfOnceIsTwoFPlusOne }
{}

/// No two different headers in evidence have one id.
pub fn evidence_names_each_header_once()
    ensures { EvidenceNamesEachHeaderOnce }
{}

/// Evidence names at most one pair of votes of a replica.
pub fn a_culprit_has_one_named_pair()
    ensures { ACulpritHasOneNamedPair }
{}
