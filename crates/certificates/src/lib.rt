//! Votes, and the certificates that they make. Needs no threads, files or network.
#![tactic(auto)]

mod assembling;
mod certificate;
mod checked_block;
mod statement;
mod vote;

pub use assembling::{AssembleRefusal, assemble};
pub use blocks::CommitteeView;
pub use certificate::{
    CERTIFICATE_HEAD_LEN, Certificate, CertificateRefusal, ENDORSEMENT_LEN, LONGEST_CERTIFICATE,
    is_whole_certificate,
};
pub use checked_block::{BlockRefusal, CheckedBlock, check_block};
pub use statement::{STATEMENT_LEN, Statement, statements_have_one_spelling};
pub use vote::{
    BOUND_VOTE_LEN, LmsVerifier, SignedVote, VOTE_LEN, Verifier, VoteRefusal, check_vote,
    is_signed_by,
};
