//! What an audit tells of itself, and of a source.

use crate::Reason;
use blocks::Id;
use parallel_verify::Judgement;

/// What an audit tells of a source.
#[derive(Clone, Copy, Debug)]
pub struct SourceTold<'a> {
    /// The word that names it.
    pub word: &'a str,
    /// What was found of its log.
    pub judged: Judgement,
    /// Why its log is not sound, where it is not.
    pub reason: Option<Reason>,
}

/// What an audit tells of itself.
#[derive(Clone, Copy, Debug)]
pub struct AuditTold<'a> {
    /// Its exit status.
    pub status: u8,
    /// The chain's id.
    pub chain: Id,
    /// How much all replicas count together.
    pub total: u64,
    /// The version of the program.
    pub version: &'a str,
    /// When it ended, in seconds since 1970.
    pub time: u64,
    /// The folder in which its verdicts stand.
    pub folder: &'a str,
}
