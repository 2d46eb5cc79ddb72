//! Evidence: the headers and the good votes that the logs of replicas show together, and how they are gathered. Needs no
//! threads, files or network.
#![tactic(auto)]

mod certificate_votes;
mod evidence;
mod gathering;
mod headers;
mod keeper;
mod listing;
mod mark;
mod named_votes;
mod refusal;
mod source;
mod votes;

pub use certificate_votes::{CertificateVotes, KeptCertificate};
pub use evidence::{Evidence, evidence_of_logs};
pub use gathering::Gathered;
pub use headers::HeaderSet;
pub use keeper::{Anew, Keeper, VoteKeeper};
pub use listing::Listing;
pub use mark::{Mark, Unmarked};
pub use refusal::EvidenceRefusal;
pub use source::{SourceLog, SourceReport};
pub use votes::VoteSet;
