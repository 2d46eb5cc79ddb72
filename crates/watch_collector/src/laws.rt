//! Laws on evidence that grows.

ghost use Rattle.watch_collector.specs.Growth.{ACollisionStays, AccusedWeightGrows, CommitsStay, ConflictsStay, CulpritsStay, FirstConflictsFall, LongerLogsShowMore, NamedPairsFall, OffencesStay};
ghost use Rattle.watch_collector.specs.Untouched.{TheLeastOfOldAndFreshIsNamed, UntouchedReplicasKeepTheirOffences, UntouchedReplicasKeepTheirPair};

/// What longer logs show has all that the shorter ones showed, whatever else comes, from whom, and when; and where two
/// headers of one id came, they have come for good.
pub fn longer_logs_show_more()
    ensures more { LongerLogsShowMore }
    ensures collision { ACollisionStays }
{}

/// As evidence grows, offences, culprits, proved commits and conflicts stay, and the weight of the culprits does not fall.
pub fn what_is_proved_stays()
    ensures offences { OffencesStay }
    ensures culprits { CulpritsStay }
    ensures commits { CommitsStay }
    ensures conflicts { ConflictsStay }
    ensures weight { AccusedWeightGrows }
{}

/// As evidence grows, another pair of a culprit, and another conflict, may be named: with a lesser later vote, or a lesser
/// first commit, never with greater ones.
pub fn what_is_named_falls()
    ensures pairs { NamedPairsFall }
    ensures conflicts { FirstConflictsFall }
{}

/// Of whom no vote is new, nor the block of one of its votes, nor that block's parent, has the offences that it had, and the
/// same named pair: an audit need not search it again. Headers that come later count too, since a lock violation wants three. Of
/// others the named pair is the least of those that they had and of those with a vote of which something is new.
pub fn what_is_settled_need_not_be_searched()
    ensures offences { UntouchedReplicasKeepTheirOffences }
    ensures pair { UntouchedReplicasKeepTheirPair }
    ensures least { TheLeastOfOldAndFreshIsNamed }
{}
