//! Where calls come in.

use crate::commits::Commits;
use crate::sources::Sources;
use crate::tallies::Tallies;
use crate::witness::Witness;
use signer_answers::Gate;
use signer_calls::Rules;
use stable_log::Disk;
use vote_desk::DeskNaming;

/// What the callers of one place share beside the office: whether they are let in yet and what they may ask; what all callers of
/// the desk were told; which sources were heard; and who is shown each call.
#[derive(Drop)]
pub struct Reception<'a, N: DeskNaming, D: Disk, W: Witness> {
    pub gate: &'a Gate<N, D>,
    pub rules: &'a Rules,
    pub commits: &'a Commits<N>,
    pub tallies: &'a Tallies,
    pub sources: &'a Sources,
    pub witness: &'a W,
}
