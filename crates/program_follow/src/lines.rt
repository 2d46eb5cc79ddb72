//! The lines that say which committee follows.

ghost use Rattle.std.specs.Prelude.{◌≡◌, ◌++◌, IfOk, OnOk};
ghost use Rattle.handover_search.specs.HandoverLines.{commits_after, handover_line};
ghost use Rattle.program_follow.specs.Followings.{another_line, following_lines, new_line, place_text};

use crate::following::Following;
use base_text::{put_id, put_number};
use base_wire::append;
use blocks::{Id, NamedHeader};
use culprit_search::Commit;
use handover_search::{commits_after, put_handover};
use std::alloc::{AllocError, Global};

// Adds ` view V id ID`.
#[tactic(auto, unfolding(crate::specs::Followings::place_text))]
fn put_place(text: &mut Vec<u8>, view: u64, id: &Id) -> Result<(), AllocError>
    ensures { OnOk result (text.new.items ≡ text.old.items ++ place_text view id.now) }
{
    append(text, b" view ")?;
    put_number(text, view)?;
    append(text, b" id ")?;
    put_id(text, id)
}

// Adds `follows view V id ID`.
#[tactic(auto, unfolding(crate::specs::Followings::new_line))]
fn put_new(text: &mut Vec<u8>, view: u64, id: &Id) -> Result<(), AllocError>
    ensures { OnOk result (text.new.items ≡ text.old.items ++ new_line view id.now) }
{
    append(text, b"follows")?;
    put_place(text, view, id)?;
    append(text, b"\n")
}

// Adds `follows another view V id ID payload HEX`.
#[tactic(auto, unfolding(crate::specs::Followings::another_line))]
fn put_another(text: &mut Vec<u8>, view: u64, id: &Id, payload: &[u8; 32]) -> Result<(), AllocError>
    ensures { OnOk result (text.new.items
        ≡ text.old.items ++ another_line view id.now payload.now) }
{
    append(text, b"follows another")?;
    put_place(text, view, id)?;
    append(text, b" payload ")?;
    put_id(text, payload)?;
    append(text, b"\n")
}

// Adds the line of the handover, with how many of the commits are above it.
fn put_committed(
    text: &mut Vec<u8>,
    block: &NamedHeader,
    commits: &[Commit],
) -> Result<(), AllocError>
    ensures { OnOk result (text.new.items
        ≡ text.old.items ++ handover_line block.now (commits_after block.now commits.now)) }
{
    put_handover(text, block, commits_after(block, commits))
}

// The lines: of the handover that is proved, with how many of these commits are above it, and of who follows. Nothing where commits
// conflict.
fn following_text(
    alloc: Global,
    following: &Following,
    commits: &[Commit],
) -> Result<Vec<u8>, AllocError>
    ensures { IfOk result (λ text. text.items ≡ following_lines following.now commits.now) }
{
    let mut text = Vec::new(alloc);
    match following {
        Following::Conflict => {}
        Following::New(block) => {
            put_committed(&mut text, block, commits)?;
            put_new(&mut text, block.header().view, block.id())?;
        }
        Following::Another(block) => {
            let header = block.header();
            put_committed(&mut text, block, commits)?;
            put_another(&mut text, header.view, block.id(), &header.payload)?;
        }
        Following::Nobody => append(&mut text, b"follows none\n")?,
    }
    Ok(text)
}

/// The same lines, and behind them those on a renewal, which are given.
pub(crate) fn lines_text(
    alloc: Global,
    following: &Following,
    commits: &[Commit],
    renewal: &[u8],
) -> Result<Vec<u8>, AllocError>
    ensures { IfOk result (λ text.
        text.items ≡ following_lines following.now commits.now ++ renewal.now) }
{
    let mut text = following_text(alloc, following, commits)?;
    append(&mut text, renewal)?;
    Ok(text)
}
