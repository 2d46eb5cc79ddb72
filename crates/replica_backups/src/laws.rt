//! Laws on replicas that were put back to a backup: each function's contract is the law. Nothing is computed.

ghost use Rattle.replica_backups.specs.GuardLaws.{ABackupIsOfALife, ACulpritForgotAVote, ALaterVoteIsUnknown, ALifeShowsNoUnknownVote, ALogShowsNoForeignVote, AnUnknownVoteIsForeign};

/// A replica whose good votes are all of its life is never shown a vote of its own on what its list does not have.
pub fn a_life_shows_no_unknown_vote()
    ensures { ALifeShowsNoUnknownVote }
{}

/// A vote above the stored vote view is one on what the list does not have.
pub fn a_later_vote_is_unknown()
    ensures { ALaterVoteIsUnknown }
{}

/// The first entries of what is found after a life are found after another life, in which the rest never was.
pub fn a_backup_is_of_a_life()
    ensures { ABackupIsOfALife }
{}

/// Where evidence accuses a replica, not all of its votes there are in the list of a life of it.
pub fn a_culprit_forgot_a_vote()
    ensures { ACulpritForgotAVote }
{}

/// A replica whose good votes are all in its log, signatures and all, is never shown another vote of its own; and a vote on
/// what its list does not have is one.
pub fn a_log_shows_no_foreign_vote()
    ensures never { ALogShowsNoForeignVote }
    ensures stronger { AnUnknownVoteIsForeign }
{}
