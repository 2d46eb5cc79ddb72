//! Laws on light proofs: each function's contract is the law, which holds where the function is called. Nothing is computed.

ghost use Rattle.handover_light.specs.LightProofLaws.{ALightProofAgreesWithEvidence, ALightProofIsAFirstHandover, LightProofsAgree};

use audit_commits::a_conflict_accuses_more_than_a_third;
use blocks::{no_run_has_a_double_vote, no_run_has_a_lock_violation};

/// Where evidence has a light proof that its committee passes, and shows the chain that the light proof leaves out, with no handover
/// in it, evidence proves by all headers that the block is committed and the first that hands over.
pub fn a_light_proof_is_a_first_handover()
    ensures { ALightProofIsAFirstHandover }
{}

/// Light proofs that one committee passes are of one block, where the replicas that are not correct weigh a third at the most, and those
/// that are not correct or do not keep the rule of one handover a chain weigh less than a quorum together. A correct replica goes through
/// a run of the voting rules, had a good certificate of the parent of each block that it voted for, and signed each vote at hand in its
/// run. No two different headers among those of the light proofs, of the runs, of the evidence and genesis may have one id. So it is of a light proof and the first handover that
/// evidence proves by all headers.
pub fn light_proofs_agree()
    ensures two { LightProofsAgree }
    ensures whole { ALightProofAgreesWithEvidence }
{
    no_run_has_a_double_vote();
    no_run_has_a_lock_violation();
    a_conflict_accuses_more_than_a_third();
}
