//! Laws on chains and on the runs of correct replicas: each function's contract is the law, which
//! holds where the function is called. Nothing is computed.

ghost use Rattle.blocks.specs.Chains.{BlockHasOneChain};
ghost use Rattle.blocks.specs.Replay.{VoteRuleLooksAtTheParent, RaiseLooksAtTheParent, LockLooksAtTheParent, StoredListIsLegal, VotesAreStored, ReplayIsTheState, LockNeverFalls, VoteViewCoversTheStored, FittedListIsStored, RunGoesOn, AttachedEntriesHaveEvents};
ghost use Rattle.blocks.specs.Lives.{EveryLifeIsARun, EveryRunIsALife};
ghost use Rattle.blocks.specs.Rules.{NoRunHasADoubleVote, NoRunHasALockViolation};
ghost use Rattle.blocks.specs.WorkedRuns.{AReplicaVotesForThreeBlocks, ARaisedLockSurvivesARestart, ATimeoutIsForgottenAtARestart, ARaiseWithoutAVoteIsStored, AVoteAcrossAForkViolatesTheLock};

/// A block has one chain among headers of different ids.
pub fn a_block_has_one_chain()
    ensures { BlockHasOneChain }
{}

/// No run of a correct replica has two votes of one view for different blocks.
pub fn no_run_has_a_double_vote()
    ensures { NoRunHasADoubleVote }
{}

/// No run of a correct replica votes against the lock that an earlier vote took, where no two different
/// headers among those of the run and of the two votes have one id.
pub fn no_run_has_a_lock_violation()
    ensures { NoRunHasALockViolation }
{}

/// To vote and to lock a replica needs the parent of a block and no header behind it.
pub fn rules_look_at_the_parent()
    ensures vote { VoteRuleLooksAtTheParent }
    ensures raise { RaiseLooksAtTheParent }
    ensures lock { LockLooksAtTheParent }
{}

/// The stored list of a run is legal, and replayed it leaves the run's lock and stored vote view. The
/// lock and the stored vote view never fall, and the vote view is never below the stored one.
pub fn stored_list_is_the_history()
    ensures legal { StoredListIsLegal }
    ensures replayed { ReplayIsTheState }
    ensures votes { VotesAreStored }
    ensures rises { LockNeverFalls }
    ensures covers { VoteViewCoversTheStored }
{}

/// A run goes on, from a restart, to each legal list that begins with what it stored and goes on with
/// entries that have their chains.
pub fn run_goes_on_from_its_list()
    ensures events { AttachedEntriesHaveEvents }
    ensures goes_on { RunGoesOn }
    ensures fitted { FittedListIsStored }
{}

/// Over all its crashes and restarts a replica is one correct replica: whatever list is found after a life is the stored
/// list of a run, whose votes are the voted entries of the list. All votes that were released in the life are among them.
pub fn a_life_is_a_run()
    ensures { EveryLifeIsARun }
{}

/// Each run is a life of one stay.
pub fn a_run_is_a_life()
    ensures { EveryRunIsALife }
{}

/// There are runs with votes: a replica that votes for three blocks in a row.
pub fn a_replica_votes_for_three_blocks()
    ensures { AReplicaVotesForThreeBlocks }
{}

/// A lock that two blocks raised holds after a restart.
pub fn a_raised_lock_survives_a_restart()
    ensures { ARaisedLockSurvivesARestart }
{}

/// A replica votes after a restart where a timeout kept it from voting.
pub fn a_timeout_is_forgotten_at_a_restart()
    ensures { ATimeoutIsForgottenAtARestart }
{}

/// A lock that is raised without a vote is stored, and holds after a restart.
pub fn a_raise_without_a_vote_is_stored()
    ensures { ARaiseWithoutAVoteIsStored }
{}

/// There are votes that violate a lock: one on each side of a fork. A later block on a parent that is no
/// older than the parent of the earlier block's parent is none.
pub fn a_vote_across_a_fork_violates_the_lock()
    ensures { AVoteAcrossAForkViolatesTheLock }
{}
