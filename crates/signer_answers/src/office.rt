//! What all callers of a signer share.

ghost use Rattle.std.specs.Prelude.{◌≡◌};

use crate::approver::Approver;
use crate::keeper::Keeper;
use crate::put_back::PutBack;
use crate::renewed::Renewed;
use blocks::CommitteeView;
use stable_log::Disk;
use vote_desk::{Desk, DeskNaming};

/// What all callers of a signer share: the desk, whose it is, who is asked and told, and whether the log was put back.
#[derive(Drop)]
pub struct Office<'a, N: DeskNaming, D: Disk, K: Approver + Keeper> {
    /// The desk.
    pub desk: &'a Desk<N, D>,
    /// The committee that it was opened with.
    pub committee: &'a CommitteeView<'a>,
    /// The replica whose it is.
    pub replica: u16,
    /// Who says which committee may come next, and puts down that the log was put back.
    pub keeper: &'a K,
    /// The committees that were shown to renew this one.
    pub renewed: &'a Renewed<N>,
    /// Whether that was found.
    pub put_back: &'a PutBack<N, D, K>,
    pub ghost committee_is: { committee.now ≡ N.committee },
    pub ghost replica_is: { replica ≡ N.replica },
}
