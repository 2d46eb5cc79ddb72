//! A part of a log, and what it names.

ghost use Rattle.std.specs.Prelude.{◌≡◌};

use audit_evidence::{Listing, SourceReport};
use base_shared::Shared;
use certificates::SignedVote;
use std::marker::Model;

/// What a part of a log names, headers by rising id and votes that rise, none of which was checked, and its report. Made by
/// `PartMaker::finish` alone.
#[derive(Drop)]
pub struct Part<'a> {
    pub(crate) listing: Listing<'a>,
    pub(crate) report: SourceReport,
}

impl<'a> Model for Part<'a> {
    ghost use Rattle.watch_collector.specs.Parts.{PartValue};

    ghost Value = { PartValue };

    ghost view = { λ p. record { listing = p.listing; report = p.report } };
}

impl<'a> Part<'a> {
    /// The votes by rising replica, view, id, key and signature.
    pub fn votes(&self) -> &[Shared<SignedVote>]
        ensures { result.now ≡ self.now.listing.votes }
    {
        self.listing.votes()
    }

    /// How this part of the log did.
    pub fn report(&self) -> SourceReport
        ensures { result ≡ self.now.report }
    {
        self.report
    }
}
