//! What the thread of a source gives.

use audit_evidence::{KeptCertificate, Mark, SourceReport};
use base_shared::Shared;
use blocks::NamedHeader;
use certificates::SignedVote;
use log_transfer::Failure;
use std::marker::Model;

/// What one source names: headers by rising id, votes that stand alone and rise, and certificates, none of which was checked,
/// and its report. Of a log whose frames are all entries it has whether these are legal steps, one after the other, and whether one
/// of them has a vote of the replica.
#[derive(Drop)]
pub(crate) struct Part<M: Mark> {
    pub(crate) headers: Vec<Shared<NamedHeader>>,
    pub(crate) votes: Vec<Shared<SignedVote>>,
    pub(crate) certificates: Vec<Shared<KeptCertificate<M>>>,
    pub(crate) report: SourceReport,
    pub(crate) are_legal: bool,
    pub(crate) has_voted: bool,
    pub(crate) ending: Ending,
}

/// How the reading of a source ended. For people: nothing depends on it.
#[derive(Clone, Copy, Debug, PartialEq, Eq)]
pub struct Ending {
    /// Why the last call of its connector failed, where it did and the connector knows.
    pub failure: Option<Failure>,
    /// Whether its first frame begins as an entry of the old form does.
    pub begins_old: bool,
}

impl<M: Mark> Model for Part<M> {
    ghost use Rattle.parallel_verify.specs.Parts.{Part as PartValue};

    ghost Value = { PartValue };

    ghost view = { λ p. record {
      headers = p.headers.items;
      votes = p.votes.items;
      certificates = p.certificates.items;
      report = p.report;
      are_legal = p.are_legal;
      has_voted = p.has_voted;
    } };
}
