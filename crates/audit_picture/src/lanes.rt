//! Below the blocks: each culprit with its two votes, in the columns of their views.

ghost use Rattle.std.specs.Prelude.{◌≡◌, ◌++◌, OnOk, codes, string_bytes};
ghost use Rattle.audit_picture.specs.Lanes.{AreLanes, IsBeside, IsCulpritsText, IsLane, IsName, IsVote, beside_line, broken_line, lane_frame, lanes_head, pair_line, replica_line, rule_line, rule_name, vote_frame, vote_title, vote_words};
ghost use Rattle.audit_picture.specs.Series.{Adds};

use crate::digits::{full, short};
use crate::layout::{LANE, Layout, MARGIN};
use crate::scene::{Culprit, Mark, Scene};
use std::alloc::{AllocError, Global};
use std::fmt::Write;
use verdict_format::Rule;

/// The size of a vote.
const VOTE_WIDTH: u64 = 74;

const VOTE_HEIGHT: u64 = 22;

/// From the upper edge of a lane to the middle of the earlier vote, and of the later one.
const EARLIER: u64 = 17;

const LATER: u64 = 45;

/// In a picture with more columns a culprit is named beside its later vote, too.
const NARROW: usize = 10;

pub(crate) fn rule_name(rule: Rule) -> &'static str
    ensures { result.now ≡ rule_name rule }
{
    match rule {
        Rule::DoubleVote => "double vote",
        Rule::LockViolation => "lock violation",
    }
}

#[tactic(auto, unfolding(crate::specs::Lanes::vote_title))]
fn put_title(text: &mut String, id: &str, view: u64) -> Result<(), AllocError>
    ensures { OnOk result (string_bytes text.new
        ≡ string_bytes text.old ++ vote_title id.now view) }
{
    writeln!(
        text,
        "<g class=\"vote\">\n<title>vote for block {id}\nview {view}</title>"
    )
}

#[tactic(auto, unfolding(crate::specs::Lanes::vote_frame))]
fn put_frame(text: &mut String, left: u64, top: u64) -> Result<(), AllocError>
    ensures { OnOk result (string_bytes text.new
        ≡ string_bytes text.old ++ vote_frame left top) }
{
    writeln!(
        text,
        "<rect x=\"{left}\" y=\"{top}\" width=\"{VOTE_WIDTH}\" height=\"{VOTE_HEIGHT}\" rx=\"11\"/>"
    )
}

#[tactic(auto, unfolding(crate::specs::Lanes::vote_words))]
fn put_words(text: &mut String, middle: u64, line: u64, digits: &str) -> Result<(), AllocError>
    ensures { OnOk result (string_bytes text.new
        ≡ string_bytes text.old ++ vote_words middle line digits.now) }
{
    writeln!(
        text,
        "<text class=\"id\" x=\"{middle}\" y=\"{line}\">{digits}</text>\n</g>"
    )
}

// A vote, with its middle at this height.
fn put_vote(
    text: &mut String,
    alloc: Global,
    layout: &Layout,
    mark: &Mark,
    y: u64,
) -> Result<(), AllocError>
    ensures { OnOk result (Adds (string_bytes text.old) (string_bytes text.new) (IsVote mark.now)) }
{
    let middle = layout.middle(mark.column);
    let left = middle.saturating_sub(VOTE_WIDTH / 2);
    let top = y.saturating_sub(VOTE_HEIGHT / 2);
    let id = full(alloc, &mark.id)?;
    let digits = short(alloc, &mark.id)?;
    put_title(text, id.as_str(), mark.view)?;
    put_frame(text, left, top)?;
    put_words(text, middle, y.saturating_add(4), digits.as_str())
}

#[tactic(auto, unfolding(crate::specs::Lanes::replica_line))]
fn put_replica(text: &mut String, y: u64, replica: u16) -> Result<(), AllocError>
    ensures { OnOk result (string_bytes text.new
        ≡ string_bytes text.old ++ replica_line y replica) }
{
    writeln!(
        text,
        "<text class=\"culprit\" x=\"{MARGIN}\" y=\"{y}\">replica {replica}</text>"
    )
}

#[tactic(auto, unfolding(crate::specs::Lanes::rule_line))]
fn put_rule(text: &mut String, y: u64, rule: u8) -> Result<(), AllocError>
    ensures { OnOk result (string_bytes text.new ≡ string_bytes text.old ++ rule_line y rule) }
{
    writeln!(
        text,
        "<text class=\"small\" x=\"{MARGIN}\" y=\"{y}\">rule {rule}:</text>"
    )
}

#[tactic(auto, unfolding(crate::specs::Lanes::broken_line))]
fn put_broken(text: &mut String, y: u64, words: &str) -> Result<(), AllocError>
    ensures { OnOk result (string_bytes text.new
        ≡ string_bytes text.old ++ broken_line y words.now) }
{
    writeln!(
        text,
        "<text class=\"small\" x=\"{MARGIN}\" y=\"{y}\">{words}</text>"
    )
}

// Whose votes they are, and what they break.
fn put_name(text: &mut String, culprit: &Culprit, top: u64) -> Result<(), AllocError>
    ensures { OnOk result (Adds (string_bytes text.old) (string_bytes text.new)
        (IsName culprit.now)) }
{
    let first = top.saturating_add(20);
    let second = top.saturating_add(37);
    let third = top.saturating_add(53);
    put_replica(text, first, culprit.replica)?;
    put_rule(text, second, culprit.rule.number())?;
    put_broken(text, third, rule_name(culprit.rule))
}

#[tactic(auto, unfolding(crate::specs::Lanes::beside_line))]
fn put_beside_line(
    text: &mut String,
    x: u64,
    y: u64,
    replica: u16,
    rule: u8,
) -> Result<(), AllocError>
    ensures { OnOk result (string_bytes text.new
        ≡ string_bytes text.old ++ beside_line x y replica rule) }
{
    writeln!(
        text,
        "<text class=\"beside\" x=\"{x}\" y=\"{y}\">replica {replica}, rule {rule}</text>"
    )
}

// In a wide picture the name once more beside the later vote, where the first may be out of sight.
fn put_beside(
    text: &mut String,
    layout: &Layout,
    columns: usize,
    culprit: &Culprit,
    y: u64,
) -> Result<(), AllocError>
    ensures { OnOk result (Adds (string_bytes text.old) (string_bytes text.new)
        (IsBeside culprit.now)) }
{
    if columns <= NARROW {
        return Ok(());
    }
    let x = layout
        .middle(culprit.later.column)
        .saturating_sub(VOTE_WIDTH / 2)
        .saturating_sub(8);
    put_beside_line(
        text,
        x,
        y.saturating_add(4),
        culprit.replica,
        culprit.rule.number(),
    )
}

#[tactic(auto, unfolding(crate::specs::Lanes::lane_frame))]
fn put_lane_frame(
    text: &mut String,
    left: u64,
    top: u64,
    width: u64,
    height: u64,
) -> Result<(), AllocError>
    ensures { OnOk result (string_bytes text.new
        ≡ string_bytes text.old ++ lane_frame left top width height) }
{
    writeln!(
        text,
        "<g class=\"lane\">\n<rect class=\"lane\" x=\"{left}\" y=\"{top}\" width=\"{width}\" height=\"{height}\" rx=\"6\"/>"
    )
}

#[tactic(auto, unfolding(crate::specs::Lanes::pair_line))]
fn put_pair(
    text: &mut String,
    from: u64,
    earlier: u64,
    to: u64,
    later: u64,
) -> Result<(), AllocError>
    ensures { OnOk result (string_bytes text.new
        ≡ string_bytes text.old ++ pair_line from earlier to later) }
{
    writeln!(
        text,
        "<path class=\"pair\" d=\"M{from} {earlier}L{to} {later}\"/>"
    )
}

fn put_lane(
    text: &mut String,
    alloc: Global,
    layout: &Layout,
    columns: usize,
    index: usize,
    culprit: &Culprit,
) -> Result<(), AllocError>
    ensures { OnOk result (Adds (string_bytes text.old) (string_bytes text.new)
        (IsLane index culprit.now)) }
{
    let top = layout.lane(index);
    let height = LANE.saturating_sub(4);
    let width = layout.width().saturating_sub(MARGIN);
    let earlier = top.saturating_add(EARLIER);
    let later = top.saturating_add(LATER);
    let from = layout.middle(culprit.earlier.column);
    let to = layout.middle(culprit.later.column);
    put_lane_frame(text, MARGIN / 2, top, width, height)?;
    put_name(text, culprit, top)?;
    put_pair(text, from, earlier, to, later)?;
    put_beside(text, layout, columns, culprit, later)?;
    put_vote(text, alloc, layout, &culprit.earlier, earlier)?;
    put_vote(text, alloc, layout, &culprit.later, later)?;
    put_end(text)
}

/// The end of a group.
pub(crate) fn put_end(text: &mut String) -> Result<(), AllocError>
    ensures { OnOk result (string_bytes text.new ≡ string_bytes text.old ++ codes "</g>\n") }
{
    text.push_str("</g>\n")
}

#[tactic(auto, unfolding(crate::specs::Lanes::lanes_head))]
fn put_headline(text: &mut String, y: u64) -> Result<(), AllocError>
    ensures { OnOk result (string_bytes text.new ≡ string_bytes text.old ++ lanes_head y) }
{
    writeln!(
        text,
        "<text class=\"part\" x=\"{MARGIN}\" y=\"{y}\">Culprits, and the two votes by which each broke a rule</text>"
    )
}

fn put_each(
    text: &mut String,
    alloc: Global,
    layout: &Layout,
    columns: usize,
    culprits: &[Culprit],
) -> Result<(), AllocError>
    ensures { OnOk result (Adds (string_bytes text.old) (string_bytes text.new)
        (AreLanes culprits.now)) }
{
    for (index, culprit) in culprits.iter().enumerate() {
        put_lane(text, alloc, layout, columns, index, culprit)?;
    }
    Ok(())
}

/// The culprits.
pub(crate) fn put_lanes(
    text: &mut String,
    alloc: Global,
    layout: &Layout,
    scene: &Scene,
) -> Result<(), AllocError>
    ensures { OnOk result (Adds (string_bytes text.old) (string_bytes text.new)
        (IsCulpritsText scene.now.culprits.items)) }
{
    if scene.culprits.is_empty() {
        return Ok(());
    }
    put_headline(text, layout.lanes_top().saturating_add(18))?;
    put_each(text, alloc, layout, scene.columns.len(), &scene.culprits)
}
