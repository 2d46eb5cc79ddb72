//! Laws on steps: each function's contract is the law, which holds where the function is called. Nothing is computed.

ghost use Rattle.handover_steps.specs.StepLaws.{LineagesAgree, StepsComeToOne, StepsCompose, StepsThatAreToldComeTo};

use handover_light::light_proofs_agree;

/// A lineage is followed step by step: steps that `judge_lineage` finds come from the first committee to the last, each good under the
/// committee before; what goes on from where other steps came to comes with them from the first committee on; and steps come to one
/// committee. Two lists of good steps from one committee name the same files as far as both go, where for each committee on the way the
/// premises hold by which its light proofs agree (`light_proofs_agree`), and no two files that differ have one payload.
pub fn a_lineage_is_followed_step_by_step()
    ensures told { StepsThatAreToldComeTo }
    ensures composed { StepsCompose }
    ensures one { StepsComeToOne }
    ensures agree { LineagesAgree }
{
    light_proofs_agree();
}
