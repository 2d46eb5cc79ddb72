//! The committee that comes next, judged by its file and its renewal.

ghost use Rattle.std.specs.Prelude.{◌≡◌, ◌≢◌, ◌++◌, Ok, Err, Option, IfOk, IsOk, OnOk, option_map};
ghost use Rattle.handover_steps.specs.LineageLines.{way_text};
ghost use Rattle.handover_steps.specs.Steps.{HasNewWeight, IsRenewalIfAny, IsRenewalIn, IsRenewalOfStep, bytes_in, renewal_in_pair};
ghost use Rattle.handover_renewals.specs.Renewals.{Renewal as RenewalValue};
ghost use Rattle.handover_renewals.specs.Renewing.{Renews};
ghost use Rattle.handover_renewals.specs.Slots.{new_weight};
ghost use Rattle.watch_command.specs.Nexts.{Follows, IsNamed, IsToldOf, MayFollow, committee_text, goes_over_news, stands_news};

use base_text::{put_id, put_number};
use base_wire::append;
use blocks::{CommitteeView, Id};
use handover_renewals::{Renewal, RenewalFormRefusal, renews};
use handover_steps::successor_payload;
use std::alloc::{AllocError, Global};

/// Why a committee's file and its renewal are passed over.
#[derive(Clone, Copy, Debug, PartialEq, Eq)]
pub(crate) enum NextRefusal {
    /// Memory was refused.
    Memory,
    /// It is not the file that the handover names, or its committee may not come after the one before.
    File,
    /// What is given as the renewal is none, or the committee does not renew the one before by it.
    Renewal,
}

/// What is told of a committee that follows.
#[derive(Clone, Copy, Debug, PartialEq, Eq)]
pub(crate) struct Following {
    /// The id of its chain.
    pub chain: Id,
    /// How much its new slots weigh, where there is a renewal; else it follows by hand.
    pub new_weight: Option<u64>,
    /// How much all slots of the committee before weigh.
    pub total: u64,
}

/// The files of a committee that follows, and what is told of it.
#[derive(Drop)]
pub(crate) struct NextFiles {
    pub file: Vec<u8>,
    pub renewal: Option<Vec<u8>>,
    pub following: Following,
}

// The committee of the file that the payload names, if it may come after the old one.
fn named_committee<'a>(
    old: &CommitteeView,
    payload: &[u8; 32],
    file: &'a [u8],
) -> Result<CommitteeView<'a>, NextRefusal>
    ensures found { IfOk result (λ new. (new ≡ file.now) × IsNamed old.now payload.now file.now) }
    ensures only { IsNamed old.now payload.now file.now → IsOk result }
{
    let Ok(named) = successor_payload(&[], old, file) else {
        return Err(NextRefusal::File);
    };
    if named != *payload {
        return Err(NextRefusal::File);
    }
    match CommitteeView::parse(file) {
        Ok(new) => Ok(new),
        Err(_) => Err(NextRefusal::File),
    }
}

// The renewal that these bytes are.
fn read_renewal(alloc: Global, bytes: &[u8]) -> Result<Renewal, NextRefusal>
    ensures found { IfOk result (IsRenewalIn bytes.now) }
    ensures only { (r : RenewalValue) → IsRenewalIn bytes.now r
        → result ≢ Err NextRefusal.Memory → result ≡ Ok r }
{
    match Renewal::read(alloc, bytes) {
        Ok(renewal) => Ok(renewal),
        Err(RenewalFormRefusal::Memory) => Err(NextRefusal::Memory),
        Err(_) => Err(NextRefusal::Renewal),
    }
}

// How much the new slots weigh, if the new committee renews the old one by it.
fn new_weight_by(
    old: &CommitteeView,
    new: &CommitteeView,
    renewal: &Renewal,
) -> Result<u64, NextRefusal>
    ensures found { IfOk result (λ weight. Renews old.now new.now renewal.now
        × (weight ≡ new_weight old.now new.now)) }
    ensures only { Renews old.now new.now renewal.now → IsOk result }
{
    match renews(old, new, renewal) {
        Ok(slots) => Ok(slots.weight),
        Err(_) => Err(NextRefusal::Renewal),
    }
}

// The renewal that these bytes are, and how much the new slots weigh.
fn judge_renewal(
    alloc: Global,
    old: &CommitteeView,
    new: &CommitteeView,
    bytes: &[u8],
) -> Result<(Renewal, u64), NextRefusal>
    ensures found { IfOk result (λ renewed. IsRenewalOfStep old.now new.now bytes.now renewed.0
        × (renewed.1 ≡ new_weight old.now new.now)) }
    ensures only { (r : RenewalValue) → IsRenewalOfStep old.now new.now bytes.now r
        → result ≢ Err NextRefusal.Memory → IsOk result }
{
    let renewal = read_renewal(alloc, bytes)?;
    let weight = new_weight_by(old, new, &renewal)?;
    Ok((renewal, weight))
}

// The same, if there are any.
fn judge_renewal_if_any(
    alloc: Global,
    old: &CommitteeView,
    new: &CommitteeView,
    bytes: Option<&[u8]>,
) -> Result<Option<(Renewal, u64)>, NextRefusal>
    ensures found { IfOk result (λ renewed.
        IsRenewalIfAny old.now new.now (bytes_in bytes.entry) (renewal_in_pair renewed)) }
    ensures weight { IfOk result (λ renewed. HasNewWeight old.now new.now renewed) }
    ensures only { (r : Option RenewalValue) → IsRenewalIfAny old.now new.now (bytes_in bytes.entry) r
        → result ≢ Err NextRefusal.Memory → IsOk result }
{
    match bytes {
        Some(bytes) => Ok(Some(judge_renewal(alloc, old, new, bytes)?)),
        None => Ok(None),
    }
}

// What is told of the new committee, which renews the old one by this, if there is something.
fn told(old: &CommitteeView, new: &CommitteeView, renewed: &Option<(Renewal, u64)>) -> Following
    requires { HasNewWeight old.now new.now renewed.now }
    ensures { IsToldOf old.now new.now (renewal_in_pair renewed.now) result }
{
    let new_weight = match renewed {
        Some((_renewal, weight)) => Some(*weight),
        None => None,
    };
    Following {
        chain: new.chain(),
        new_weight,
        total: old.total(),
    }
}

/// What is told of the committee of this file, if a block with this payload hands over to it and it may come after the old one, and renews
/// that by its renewal, if there is one.
pub(crate) fn judge_next(
    alloc: Global,
    old: &CommitteeView,
    payload: &[u8; 32],
    file: &[u8],
    renewal: Option<&[u8]>,
) -> Result<Following, NextRefusal>
    ensures found { IfOk result (Follows old.now payload.now file.now (bytes_in renewal.entry)) }
    ensures only { (r : Option RenewalValue) → MayFollow old.now payload.now file.now (bytes_in renewal.entry) r
        → result ≢ Err NextRefusal.Memory → IsOk result }
{
    let new = named_committee(old, payload, file)?;
    let renewed = judge_renewal_if_any(alloc, old, &new, renewal)?;
    Ok(told(old, &new, &renewed))
}

impl NextFiles {
    /// These files, if they are good.
    pub fn judged(
        alloc: Global,
        old: &CommitteeView,
        payload: &[u8; 32],
        file: Vec<u8>,
        renewal: Option<Vec<u8>>,
    ) -> Result<NextFiles, NextRefusal>
        ensures found { IfOk result (λ n. (n.file.items ≡ file.items)
            × (option_map (λ r. r.items) n.renewal ≡ option_map (λ r. r.items) renewal)
            × Follows old.now payload.now file.items (option_map (λ r. r.items) renewal) n.following) }
        ensures only { (r : Option RenewalValue)
            → MayFollow old.now payload.now file.items (option_map (λ r. r.items) renewal) r
            → result ≢ Err NextRefusal.Memory → IsOk result }
    {
        let following = judge_next(alloc, old, payload, &file, bytes_of(&renewal))?;
        Ok(NextFiles {
            file,
            renewal,
            following,
        })
    }

    /// Whether it follows without a renewal.
    pub fn is_by_hand(&self) -> bool {
        self.renewal.is_none()
    }
}

fn bytes_of(renewal: &Option<Vec<u8>>) -> Option<&[u8]>
    ensures { bytes_in result ≡ option_map (λ r. r.items) renewal.now }
{
    match renewal {
        Some(renewal) => Some(renewal.as_slice()),
        None => None,
    }
}

// ---- lines

// Adds ` new S of W`, or ` by hand`.
#[tactic(auto, unfolding(handover_steps::specs::LineageLines::way_text))]
fn put_way(text: &mut Vec<u8>, weight: Option<u64>, total: u64) -> Result<(), AllocError>
    ensures { OnOk result (text.new.items ≡ text.old.items ++ way_text weight total) }
{
    let Some(weight) = weight else {
        return append(text, b" by hand");
    };
    append(text, b" new ")?;
    put_number(text, weight)?;
    append(text, b" of ")?;
    put_number(text, total)
}

/// Adds what stands before each line where the watch goes over: which committee it is of.
#[tactic(auto, unfolding(crate::specs::Nexts::committee_text))]
pub(crate) fn put_committee(text: &mut Vec<u8>, number: u64) -> Result<(), AllocError>
    ensures { OnOk result (text.new.items ≡ text.old.items ++ committee_text number) }
{
    append(text, b"committee ")?;
    put_number(text, number)?;
    append(text, b" ")
}

/// Adds the line of a committee to which the watch goes over, behind what stands before the lines of its round.
#[tactic(auto, unfolding(crate::specs::Nexts::goes_over_news))]
pub(crate) fn put_goes_over(
    text: &mut Vec<u8>,
    stamp: &[u8],
    number: u64,
    following: &Following,
) -> Result<(), AllocError>
    ensures { OnOk result (text.new.items
        ≡ text.old.items ++ goes_over_news stamp.now number following.now) }
{
    append(text, stamp)?;
    append(text, b"goes-over ")?;
    put_number(text, number)?;
    append(text, b" chain ")?;
    put_id(text, &following.chain)?;
    put_way(text, following.new_weight, following.total)?;
    append(text, b"\n")
}

/// Adds the line of the committee with which the watch begins.
#[tactic(auto, unfolding(crate::specs::Nexts::stands_news))]
pub(crate) fn put_stands(
    text: &mut Vec<u8>,
    stamp: &[u8],
    number: u64,
    chain: &Id,
) -> Result<(), AllocError>
    ensures { OnOk result (text.new.items
        ≡ text.old.items ++ stands_news stamp.now number chain.now) }
{
    append(text, stamp)?;
    append(text, b"stands ")?;
    put_number(text, number)?;
    append(text, b" chain ")?;
    put_id(text, chain)?;
    append(text, b"\n")
}
