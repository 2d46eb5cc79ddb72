//! Showing a committee and a verdict.

ghost use Rattle.std.specs.Prelude.{◌≡◌};
ghost use Rattle.program_answers.specs.Showing.{AreHeadersShown, IsCommitteeShown, IsKeyShown, IsShownHeader, IsVerdictShown};

use base_wire::u32_at;
use blocks::{Header, Id};
use verdict_checker::CommitteeView;
use verdict_format::{EARLIER_SIGNATURE_AT, LATER_SIGNATURE_AT, Shown, VerdictView, VoteView};

/// What is answered where something is shown.
const SHOWN: i32 = 0;

/// What is answered where there is no such thing.
const ABSENT: i32 = 1;

/// A committee.
#[repr(C)]
#[derive(Clone, Copy)]
pub struct HsCommittee {
    /// How much all replicas count together.
    pub total: u64,
    /// How much a quorum counts.
    pub quorum: u64,
    /// How many replicas there are.
    pub n: u32,
    /// Whether the format has weights: 1, or else 0.
    pub weighted: u32,
    /// The name of its chain.
    pub chain: Id,
}

/// A replica's key.
#[repr(C)]
#[derive(Clone, Copy)]
pub struct HsKey {
    /// How much the replica counts.
    pub weight: u32,
    /// How many keys it has.
    pub keys: u32,
    /// The id of this one.
    pub key_id: [u8; 16],
    /// The root of its tree.
    pub root: [u8; 32],
}

/// A vote of a verdict.
#[repr(C)]
#[derive(Clone, Copy)]
pub struct HsVote {
    /// The block's view.
    pub view: u64,
    /// The number of the replica's key that the vote names.
    pub key: u32,
    /// The number of the one-time key that its signature names.
    pub index: u32,
    /// The block's id.
    pub id: Id,
}

/// A verdict.
#[repr(C)]
#[derive(Clone, Copy)]
pub struct HsVerdict {
    /// Its first vote.
    pub earlier: HsVote,
    /// Its second vote.
    pub later: HsVote,
    /// The chain that they are on.
    pub chain: Id,
    /// The accused replica.
    pub replica: u32,
    /// The rule that it broke.
    pub rule: u32,
}

/// A header and its id.
#[repr(C)]
#[derive(Clone, Copy)]
pub struct HsHeader {
    /// The block's view.
    pub view: u64,
    /// The view of its parent.
    pub parent_view: u64,
    /// The block's id.
    pub id: Id,
    /// The id of its parent.
    pub parent: Id,
}

/// The headers behind the votes of a lock violation.
#[repr(C)]
#[derive(Clone, Copy)]
pub struct HsHeaders {
    /// Of the first vote's block.
    pub earlier: HsHeader,
    /// Of its parent.
    pub parent: HsHeader,
    /// Of the second vote's block.
    pub later: HsHeader,
}

/// Shows a committee. Answers 0, or minus the number of `CommitteeRefusal`, and then `shown` is left as it was.
pub fn show_committee(committee: &[u8], shown: &mut HsCommittee) -> i32
    ensures { IsCommitteeShown committee.now shown.old shown.new result }
{
    let committee = match CommitteeView::parse(committee) {
        Ok(committee) => committee,
        Err(refusal) => return -i32::from(refusal.number()),
    };
    let chain = committee.chain();
    *shown = HsCommittee {
        total: committee.total(),
        quorum: committee.quorum(),
        n: u32::from(committee.n()),
        weighted: u32::from(committee.has_weights()),
        chain,
    };
    SHOWN
}

/// Shows key `key` of replica `replica`, both counted from 0. Answers 0; 1 where the committee has none such; and minus the
/// number of `CommitteeRefusal` where it is refused. In each case but the first `shown` is left as it was.
pub fn show_key(committee: &[u8], replica: u32, key: u32, shown: &mut HsKey) -> i32
    ensures { IsKeyShown committee.now replica key shown.old shown.new result }
{
    let committee = match CommitteeView::parse(committee) {
        Ok(committee) => committee,
        Err(refusal) => return -i32::from(refusal.number()),
    };
    if replica >= u32::from(committee.n()) {
        return ABSENT;
    }
    let replica = replica as u16;
    let keys = committee.keys(replica);
    if key >= u32::from(keys) {
        return ABSENT;
    }
    let public_key = committee.key(replica, key as u8);
    let (key_id, root) = (public_key.key_id, public_key.root);
    *shown = HsKey {
        weight: committee.weight(replica),
        keys: u32::from(keys),
        key_id,
        root,
    };
    SHOWN
}

// A vote as it is shown, with the number of its one-time key.
fn shown_vote(vote: &VoteView, index: u32) -> HsVote
    ensures { result ≡ record {
      view = vote.now.view;
      key = vote.now.key;
      index = index;
      id = vote.now.id;
    } }
{
    let id = vote.id;
    HsVote {
        view: vote.view,
        key: u32::from(vote.key),
        index,
        id,
    }
}

/// Shows a verdict, whether or not it proves anything. Answers 0, or the number of `VerdictRefusal`, and then `shown` is
/// left as it was.
pub fn show_verdict(verdict: &[u8], shown: &mut HsVerdict) -> i32
    ensures { IsVerdictShown verdict.now shown.old shown.new result }
{
    let bytes = verdict;
    let verdict = match VerdictView::parse(bytes) {
        Ok(verdict) => verdict,
        Err(refusal) => return i32::from(refusal.number()),
    };
    let chain = verdict.chain();
    // The number of a one-time key stands first in its signature (RFC 8554, section 5.4).
    *shown = HsVerdict {
        earlier: shown_vote(&verdict.earlier(), u32_at(bytes, EARLIER_SIGNATURE_AT)),
        later: shown_vote(&verdict.later(), u32_at(bytes, LATER_SIGNATURE_AT)),
        chain,
        replica: u32::from(verdict.replica()),
        rule: u32::from(verdict.rule().number()),
    };
    SHOWN
}

// A header as it is shown.
fn shown_header(header: &Header) -> HsHeader
    ensures { IsShownHeader header.now result }
{
    let (id, parent) = (header.id(), header.parent);
    HsHeader {
        view: header.view,
        parent_view: header.parent_view,
        id,
        parent,
    }
}

/// Shows the headers of a verdict. Answers 0; and 1 where there are none, as in a double vote, where one of them can't be read,
/// and where the verdict can't; then `shown` is left as it was.
pub fn show_headers(verdict: &[u8], shown: &mut HsHeaders) -> i32
    ensures { AreHeadersShown verdict.now shown.old shown.new result }
{
    let Ok(verdict) = VerdictView::parse(verdict) else {
        return ABSENT;
    };
    let Some(Shown::LockViolation(headers)) = &verdict.shown() else {
        return ABSENT;
    };
    *shown = HsHeaders {
        earlier: shown_header(&headers.earlier),
        parent: shown_header(&headers.parent),
        later: shown_header(&headers.later),
    };
    SHOWN
}
