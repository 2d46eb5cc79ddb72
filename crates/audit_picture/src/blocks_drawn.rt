//! Views, blocks and the lines between them.

ghost use Rattle.std.specs.Prelude.{◌≡◌, ◌++◌, OnOk, codes, string_bytes};
ghost use Rattle.audit_picture.specs.DrawnBlocks.{AreBlocks, AreLines, AreMarks, IsAfterMark, IsBlock, IsHandoverMark, IsMarked, IsNext, block_frame, block_front, class_name, conflict_mark, count_line, id_line, is_after, is_commit, named_text, parent_text, standing_words, support_text, title_text, unless_genesis, votes_line, votes_weight, weight_line, words_line};
ghost use Rattle.audit_picture.specs.Series.{Adds};
ghost use Rattle.handover_blocks.specs.Handovers.{IsHandover};

use crate::digits::{full, short};
use crate::lanes::put_end;
use crate::layout::{BLOCK_HEIGHT, BLOCK_WIDTH, HEAD, Layout, MARGIN};
use crate::scene::{Block, Column, GridCell, LineEnd, Scene, Standing};
use blocks::Header;
use handover_blocks::is_handover;
use std::alloc::{AllocError, Global};
use std::fmt::Write;

/// How far left of a block its line goes down to its row, or ends where its parent is not drawn.
const TURN: u64 = 13;

impl Standing {
    // The class of a block's frame, for the style.
    fn class(self) -> &'static str
        ensures { result.now ≡ class_name self }
    {
        match self {
            Standing::Genesis => "genesis",
            Standing::Uncertified => "uncertified",
            Standing::Certified => "certified",
            Standing::Committed => "committed",
            Standing::Conflicting => "conflict",
        }
    }

    // Whether its commit is proved, and is not in conflict.
    fn is_commit(self) -> bool
        ensures { result ≡ is_commit self }
    {
        match self {
            Standing::Committed => true,
            Standing::Genesis
            | Standing::Uncertified
            | Standing::Certified
            | Standing::Conflicting => false,
        }
    }

    // What stands in a block.
    fn words(self) -> &'static str
        ensures { result.now ≡ standing_words self }
    {
        match self {
            Standing::Genesis => "genesis",
            Standing::Uncertified => "not certified",
            Standing::Certified => "certified",
            Standing::Committed | Standing::Conflicting => "committed",
        }
    }
}

// The view above its column, and a light line down from it.
fn put_column(
    text: &mut String,
    layout: &Layout,
    index: usize,
    column: &Column,
) -> Result<(), AllocError> {
    let x = layout.middle(index);
    let top = HEAD.saturating_add(18);
    let axis = HEAD.saturating_add(10);
    let bottom = layout.legend_top().saturating_sub(MARGIN);
    let view = column.view;
    writeln!(text, "<path class=\"guide\" d=\"M{x} {top}V{bottom}\"/>")?;
    writeln!(
        text,
        "<text class=\"view\" x=\"{x}\" y=\"{axis}\">view {view}</text>"
    )?;
    if 0 < column.skipped {
        let skipped = column.skipped;
        let dots = layout.left(index).saturating_sub(34);
        writeln!(
            text,
            "<text class=\"gap\" x=\"{dots}\" y=\"{axis}\"><title>{skipped} views left out</title>...</text>"
        )?;
    }
    Ok(())
}

/// The columns.
pub(crate) fn put_columns(
    text: &mut String,
    layout: &Layout,
    scene: &Scene,
) -> Result<(), AllocError> {
    for (index, column) in scene.columns.iter().enumerate() {
        put_column(text, layout, index, column)?;
    }
    Ok(())
}

// The line from a block to its parent: along the block's row, and from the turn behind the parent's column to its row.
fn put_link(text: &mut String, layout: &Layout, block: &Block) -> Result<(), AllocError> {
    let x = layout.left(block.place.column);
    let y = middle_of(layout, block.place);
    match block.link {
        LineEnd::None => Ok(()),
        LineEnd::Outside => {
            let end = x.saturating_sub(TURN);
            writeln!(text, "<path class=\"outside\" d=\"M{x} {y}H{end}\"/>")
        }
        LineEnd::To(parent) => {
            let end = layout.left(parent.column).saturating_add(BLOCK_WIDTH);
            let turn = end.saturating_add(TURN);
            let level = middle_of(layout, parent);
            writeln!(
                text,
                "<path class=\"link\" d=\"M{x} {y}H{turn}V{level}H{end}\"/>"
            )?;
            if parent.row != block.place.row {
                put_joint(text, turn, y)?;
                put_joint(text, turn, level)?;
            }
            Ok(())
        }
    }
}

// A dot where lines meet. Where they only cross there is none.
fn put_joint(text: &mut String, x: u64, y: u64) -> Result<(), AllocError> {
    writeln!(
        text,
        "<circle class=\"joint\" cx=\"{x}\" cy=\"{y}\" r=\"4\"/>"
    )
}

fn middle_of(layout: &Layout, place: GridCell) -> u64 {
    layout.top(place).saturating_add(BLOCK_HEIGHT / 2)
}

/// The lines from the blocks to their parents.
pub(crate) fn put_links(
    text: &mut String,
    layout: &Layout,
    scene: &Scene,
) -> Result<(), AllocError> {
    for block in &scene.blocks {
        put_link(text, layout, block)?;
    }
    Ok(())
}

#[tactic(auto, unfolding(crate::specs::DrawnBlocks::named_text))]
fn put_named(text: &mut String, id: &str, view: u64) -> Result<(), AllocError>
    ensures { OnOk result (string_bytes text.new
        ≡ string_bytes text.old ++ named_text id.now view) }
{
    write!(text, "<title>block {id}\nview {view}")
}

#[tactic(auto, unfolding(crate::specs::DrawnBlocks::parent_text))]
fn put_parent(
    text: &mut String,
    parent: &str,
    view: u64,
    votes: u16,
    replicas: u16,
) -> Result<(), AllocError>
    ensures { OnOk result (string_bytes text.new
        ≡ string_bytes text.old ++ parent_text parent.now view votes replicas) }
{
    write!(
        text,
        "\nparent {parent} view {view}\nvotes {votes} of {replicas}"
    )
}

fn put_votes_weight(text: &mut String, weight: u64, total: Option<u64>) -> Result<(), AllocError>
    ensures { OnOk result (string_bytes text.new
        ≡ string_bytes text.old ++ votes_weight weight total) }
{
    let Some(total) = total else {
        return Ok(());
    };
    write!(text, "\nweight {weight} of {total}")
}

// Of a block that is not genesis.
fn put_support(
    text: &mut String,
    alloc: Global,
    scene: &Scene,
    block: &Block,
) -> Result<(), AllocError>
    ensures { OnOk result (string_bytes text.new ≡ string_bytes text.old
        ++ support_text scene.now.replicas scene.now.total block.now) }
{
    let header = block.header.header();
    let parent = full(alloc, &header.parent)?;
    put_parent(
        text,
        parent.as_str(),
        header.parent_view,
        block.support.votes,
        scene.replicas,
    )?;
    put_votes_weight(text, block.support.weight, scene.total)
}

fn put_unless_genesis(
    text: &mut String,
    alloc: Global,
    scene: &Scene,
    block: &Block,
) -> Result<(), AllocError>
    ensures { OnOk result (string_bytes text.new ≡ string_bytes text.old
        ++ unless_genesis block.now.standing
        (support_text scene.now.replicas scene.now.total block.now)) }
{
    match block.standing {
        Standing::Genesis => Ok(()),
        Standing::Uncertified | Standing::Certified | Standing::Committed | Standing::Conflicting =>
            put_support(text, alloc, scene, block),
    }
}

fn put_title_end(text: &mut String) -> Result<(), AllocError>
    ensures { OnOk result (string_bytes text.new
        ≡ string_bytes text.old ++ codes "</title>\n") }
{
    text.push_str("</title>\n")
}

// What a block's tooltip says.
fn put_title(
    text: &mut String,
    alloc: Global,
    scene: &Scene,
    block: &Block,
) -> Result<(), AllocError>
    ensures { OnOk result (string_bytes text.new ≡ string_bytes text.old
        ++ title_text scene.now.replicas scene.now.total block.now) }
{
    let id = full(alloc, block.header.id())?;
    put_named(text, id.as_str(), block.header.header().view)?;
    put_unless_genesis(text, alloc, scene, block)?;
    put_title_end(text)
}

#[tactic(auto, unfolding(crate::specs::DrawnBlocks::block_frame))]
fn put_block_frame(text: &mut String, left: u64, top: u64) -> Result<(), AllocError>
    ensures { OnOk result (string_bytes text.new
        ≡ string_bytes text.old ++ block_frame left top) }
{
    writeln!(
        text,
        "<rect x=\"{left}\" y=\"{top}\" width=\"{BLOCK_WIDTH}\" height=\"{BLOCK_HEIGHT}\" rx=\"6\"/>"
    )
}

#[tactic(auto, unfolding(crate::specs::DrawnBlocks::id_line))]
fn put_id_line(text: &mut String, x: u64, y: u64, digits: &str) -> Result<(), AllocError>
    ensures { OnOk result (string_bytes text.new
        ≡ string_bytes text.old ++ id_line x y digits.now) }
{
    writeln!(
        text,
        "<text class=\"id\" x=\"{x}\" y=\"{y}\">{digits}</text>"
    )
}

#[tactic(auto, unfolding(crate::specs::DrawnBlocks::weight_line))]
fn put_weight_line(text: &mut String, x: u64, y: u64, weight: u64) -> Result<(), AllocError>
    ensures { OnOk result (string_bytes text.new
        ≡ string_bytes text.old ++ weight_line x y weight) }
{
    writeln!(
        text,
        "<text class=\"in\" x=\"{x}\" y=\"{y}\">weight {weight}</text>"
    )
}

#[tactic(auto, unfolding(crate::specs::DrawnBlocks::votes_line))]
fn put_votes_line(text: &mut String, x: u64, y: u64, votes: u16) -> Result<(), AllocError>
    ensures { OnOk result (string_bytes text.new
        ≡ string_bytes text.old ++ votes_line x y votes) }
{
    writeln!(
        text,
        "<text class=\"in\" x=\"{x}\" y=\"{y}\">votes {votes}</text>"
    )
}

fn put_count_line(
    text: &mut String,
    x: u64,
    y: u64,
    total: Option<u64>,
    block: &Block,
) -> Result<(), AllocError>
    ensures { OnOk result (string_bytes text.new
        ≡ string_bytes text.old ++ count_line x y total block.now) }
{
    match total {
        None => put_votes_line(text, x, y, block.support.votes),
        Some(_) => put_weight_line(text, x, y, block.support.weight),
    }
}

#[tactic(auto, unfolding(crate::specs::DrawnBlocks::words_line))]
fn put_words_line(text: &mut String, x: u64, y: u64, words: &str) -> Result<(), AllocError>
    ensures { OnOk result (string_bytes text.new
        ≡ string_bytes text.old ++ words_line x y words.now) }
{
    writeln!(
        text,
        "<text class=\"in\" x=\"{x}\" y=\"{y}\">{words}</text>"
    )
}

// Who voted for a block that is not genesis.
fn put_count(
    text: &mut String,
    x: u64,
    y: u64,
    total: Option<u64>,
    block: &Block,
) -> Result<(), AllocError>
    ensures { OnOk result (string_bytes text.new ≡ string_bytes text.old
        ++ unless_genesis block.now.standing (count_line x y total block.now)) }
{
    match block.standing {
        Standing::Genesis => Ok(()),
        Standing::Uncertified | Standing::Certified | Standing::Committed | Standing::Conflicting =>
            put_count_line(text, x, y, total, block),
    }
}

// From the upper edge of a block to its last line.
fn last_line(standing: Standing) -> u64 {
    if standing == Standing::Genesis {
        38
    } else {
        55
    }
}

// The lines of text in a block.
fn put_lines(
    text: &mut String,
    alloc: Global,
    total: Option<u64>,
    block: &Block,
    x: u64,
    top: u64,
) -> Result<(), AllocError>
    ensures { OnOk result (Adds (string_bytes text.old) (string_bytes text.new)
        (AreLines total block.now)) }
{
    let id = short(alloc, block.header.id())?;
    let first = top.saturating_add(20);
    let second = top.saturating_add(38);
    let third = top.saturating_add(last_line(block.standing));
    put_id_line(text, x, first, id.as_str())?;
    put_count(text, x, second, total, block)?;
    put_words_line(text, x, third, block.standing.words())
}

#[tactic(auto, unfolding(crate::specs::DrawnBlocks::conflict_mark))]
fn put_conflict_mark(text: &mut String, x: u64, y: u64) -> Result<(), AllocError>
    ensures { OnOk result (string_bytes text.new ≡ string_bytes text.old ++ conflict_mark x y) }
{
    writeln!(
        text,
        "<text class=\"alarm\" x=\"{x}\" y=\"{y}\">conflict</text>"
    )
}

fn put_conflict(text: &mut String, standing: Standing, x: u64, top: u64) -> Result<(), AllocError>
    ensures { OnOk result (Adds (string_bytes text.old) (string_bytes text.new)
        (IsMarked standing)) }
{
    match standing {
        Standing::Conflicting => put_conflict_mark(text, x, top.saturating_sub(8)),
        Standing::Genesis | Standing::Uncertified | Standing::Certified | Standing::Committed => Ok(
            (),
        ),
    }
}

fn put_handover(text: &mut String, header: &Header, x: u64, y: u64) -> Result<(), AllocError>
    ensures { OnOk result (Adds (string_bytes text.old) (string_bytes text.new)
        (IsHandoverMark header.now)) }
{
    if is_handover(header) {
        put_words_line(text, x, y, "hands over")
    } else {
        Ok(())
    }
}

// Whether a block is committed above the view of the block that handed over.
fn is_after(handover: Option<u64>, block: &Block) -> bool
    ensures { result ≡ is_after handover block.now }
{
    let Some(view) = handover else {
        return false;
    };
    if !block.standing.is_commit() {
        return false;
    }
    view < block.header.header().view
}

// What stands below a commit that counts for nothing.
fn put_after(text: &mut String, x: u64, y: u64) -> Result<(), AllocError>
    ensures { OnOk result (Adds (string_bytes text.old) (string_bytes text.new) IsAfterMark) }
{
    put_words_line(text, x, y, "after handover")
}

// What stands below a block.
fn put_next(
    text: &mut String,
    is_after: bool,
    header: &Header,
    x: u64,
    y: u64,
) -> Result<(), AllocError>
    ensures { OnOk result (Adds (string_bytes text.old) (string_bytes text.new)
        (IsNext is_after header.now)) }
{
    if is_after {
        return put_after(text, x, y);
    }
    put_handover(text, header, x, y)
}

// What stands above and below a block.
fn put_marks(
    text: &mut String,
    handover: Option<u64>,
    block: &Block,
    x: u64,
    top: u64,
) -> Result<(), AllocError>
    ensures { OnOk result (Adds (string_bytes text.old) (string_bytes text.new)
        (AreMarks handover block.now)) }
{
    put_conflict(text, block.standing, x, top)?;
    let y = top.saturating_add(BLOCK_HEIGHT + 13);
    put_next(text, is_after(handover, block), block.header.header(), x, y)
}

#[tactic(auto, unfolding(crate::specs::DrawnBlocks::block_front))]
fn put_block_front(text: &mut String, class: &str) -> Result<(), AllocError>
    ensures { OnOk result (string_bytes text.new
        ≡ string_bytes text.old ++ block_front class.now) }
{
    writeln!(text, "<g class=\"block {class}\">")
}

fn put_block(
    text: &mut String,
    alloc: Global,
    layout: &Layout,
    scene: &Scene,
    index: usize,
    block: &Block,
) -> Result<(), AllocError>
    ensures { OnOk result (Adds (string_bytes text.old) (string_bytes text.new)
        (IsBlock scene.now.replicas scene.now.total scene.now.handover index block.now)) }
{
    let left = layout.left(block.place.column);
    let middle = layout.middle(block.place.column);
    let top = layout.top(block.place);
    put_block_front(text, block.standing.class())?;
    put_title(text, alloc, scene, block)?;
    put_block_frame(text, left, top)?;
    put_lines(text, alloc, scene.total, block, middle, top)?;
    put_marks(text, scene.handover, block, middle, top)?;
    put_end(text)
}

fn put_each(
    text: &mut String,
    alloc: Global,
    layout: &Layout,
    scene: &Scene,
    blocks: &[Block],
) -> Result<(), AllocError>
    ensures { OnOk result (Adds (string_bytes text.old) (string_bytes text.new)
        (AreBlocks scene.now.replicas scene.now.total scene.now.handover blocks.now)) }
{
    for (index, block) in blocks.iter().enumerate() {
        put_block(text, alloc, layout, scene, index, block)?;
    }
    Ok(())
}

/// The blocks.
pub(crate) fn put_blocks(
    text: &mut String,
    alloc: Global,
    layout: &Layout,
    scene: &Scene,
) -> Result<(), AllocError>
    ensures { OnOk result (Adds (string_bytes text.old) (string_bytes text.new)
        (AreBlocks scene.now.replicas scene.now.total scene.now.handover scene.now.blocks.items)) }
{
    put_each(text, alloc, layout, scene, &scene.blocks)
}
