//! The page of a watch.

ghost use Rattle.std.specs.Prelude.{◌≡◌, ◌++◌, IfOk, OnOk, codes};
ghost use Rattle.watch_web.specs.Holding.{holding_text};
ghost use Rattle.watch_web.specs.Pages.{IsPage, banner_text, body_text, commits_text, culprits_text, earlier_line, earlier_text, first_text, foot_text, found_text, front_text, handover_text, kept_line, kept_text, links_text, looks_text, lost_line, lost_text, none_text, page_text, picture_text, reload_text, sources_text, style_text, title_text};

use crate::holding::put_holding;
use crate::rows::{put_commits, put_conflict, put_culprits, put_shown, put_sources};
use crate::words::{
    Level, Shares, level_of, put_advice, put_class, put_icon, put_share, put_state, shares_of,
};
use base_text::{put_id, put_number};
use base_wire::append;
use blocks::{Ballot, Id};
use std::alloc::{AllocError, Global};
use watch_report::{Culprit, Fork, Snapshot, SourceSeen, Standing, is_old_round, utc_text};

// ---- the head

#[tactic(auto, unfolding(crate::specs::Pages::reload_text))]
fn put_reload(text: &mut Vec<u8>, is_still: bool) -> Result<(), AllocError>
    ensures { OnOk result (text.new.items ≡ text.old.items ++ reload_text is_still) }
{
    if is_still {
        return append(text, b"");
    }
    append(
        text,
        b"<meta http-equiv=\"refresh\" content=\"10; url=/\">\n",
    )
}

#[tactic(auto, unfolding(crate::specs::Pages::style_text))]
fn put_style(text: &mut Vec<u8>) -> Result<(), AllocError>
    ensures { OnOk result (text.new.items ≡ text.old.items ++ style_text) }
{
    append(
        text,
        b":root{color-scheme:light dark}body{font-family:Arial,Helvetica,sans-serif;margin:1rem auto;max-width:70rem;padding:0 1rem;color:#1a1a1a;background:#fff}h1{padding:.6rem .8rem;border:3px solid;font-size:1.4rem}.alarm h1{color:#b00020;background:#fde3e3}.warning h1{color:#7a4a00;background:#fff3d6}.fine h1{color:#115c2d;background:#e2f4e8}.banner{padding:.5rem .8rem;border:2px dashed #b00020;color:#b00020;font-weight:bold}.later{visibility:hidden;animation:later 0s 40s forwards}@keyframes later{to{visibility:visible}}.wide{overflow-x:auto}table{border-collapse:collapse}th,td{border:1px solid #888;padding:.25rem .5rem;text-align:left}code{overflow-wrap:anywhere}@media(prefers-color-scheme:dark){body{color:#eee;background:#16181c}a{color:#8ab4f8}.alarm h1{color:#ff9aa6;background:#3d1218}.warning h1{color:#ffcf70;background:#382a0c}.fine h1{color:#8fe0ab;background:#10301c}.banner{color:#ff9aa6;border-color:#ff9aa6}}",
    )
}

fn put_title(
    text: &mut Vec<u8>,
    standing: Standing,
    shares: Shares,
    seen: &Snapshot,
    is_still: bool,
) -> Result<(), AllocError>
    ensures { OnOk result (text.new.items
        ≡ text.old.items ++ title_text standing shares seen.now is_still) }
{
    append(
        text,
        b"<!DOCTYPE html>\n<html lang=\"en\">\n<head>\n<meta charset=\"utf-8\">\n<meta name=\"viewport\" content=\"width=device-width, initial-scale=1\">\n",
    )?;
    put_reload(text, is_still)?;
    append(text, b"<title>")?;
    put_state(text, standing, shares)?;
    append(text, b" - ")?;
    put_shown(text, &seen.name)?;
    append(text, b" ")?;
    put_shown(text, &seen.folder)?;
    Ok(())
}

fn put_looks(text: &mut Vec<u8>, level: Level) -> Result<(), AllocError>
    ensures { OnOk result (text.new.items ≡ text.old.items ++ looks_text level) }
{
    append(
        text,
        b"</title>\n<link rel=\"icon\" href=\"data:image/svg+xml,%3Csvg xmlns='http://www.w3.org/2000/svg' viewBox='0 0 8 8'%3E",
    )?;
    put_icon(text, level)?;
    append(text, b"%3C/svg%3E\">\n<style>")?;
    put_style(text)?;
    append(text, b"</style>\n</head>\n<body class=\"")?;
    put_class(text, level)?;
    append(text, b"\">\n")?;
    Ok(())
}

// ---- the body

#[tactic(auto, unfolding(crate::specs::Pages::banner_text))]
fn put_banner(text: &mut Vec<u8>, is_old: bool) -> Result<(), AllocError>
    ensures { OnOk result (text.new.items ≡ text.old.items ++ banner_text is_old) }
{
    if is_old {
        return append(
            text,
            b"<p class=\"banner\">This watch has had no round for too long: what stands here is old.</p>\n",
        );
    }
    append(
        text,
        b"<p class=\"banner later\">This page is old: load it again.</p>\n",
    )
}

#[tactic(auto, unfolding(crate::specs::Pages::links_text))]
fn put_links(text: &mut Vec<u8>, is_still: bool) -> Result<(), AllocError>
    ensures { OnOk result (text.new.items ≡ text.old.items ++ links_text is_still) }
{
    if is_still {
        return append(
            text,
            b"<p>This page stays as it is. <a href=\"/\">One that reloads every 10 seconds</a></p>\n",
        );
    }
    append(
        text,
        b"<p>This page reloads every 10 seconds. <a href=\"/?still\">One that stays</a></p>\n",
    )
}

fn put_found(text: &mut Vec<u8>, culprits: &[Culprit]) -> Result<(), AllocError>
    ensures { OnOk result (text.new.items ≡ text.old.items ++ found_text culprits.now) }
{
    append(text, b"<h2>Culprits</h2>\n<ul>\n")?;
    put_culprits(text, culprits)?;
    append(text, b"</ul>\n")?;
    Ok(())
}

fn put_none(text: &mut Vec<u8>, shares: Shares, time: &[u8]) -> Result<(), AllocError>
    ensures { OnOk result (text.new.items ≡ text.old.items ++ none_text shares time.now) }
{
    append(text, b"<h2>Culprits</h2>\n<p>None was found in what ")?;
    put_share(text, shares.answering, shares.sources)?;
    append(text, b" sources gave to this watcher until ")?;
    append(text, time)?;
    append(text, b".</p>\n")?;
    Ok(())
}

#[tactic(auto, unfolding(crate::specs::Pages::culprits_text))]
fn put_all_culprits(
    text: &mut Vec<u8>,
    seen: &Snapshot,
    shares: Shares,
    time: &[u8],
) -> Result<(), AllocError>
    ensures { OnOk result (text.new.items
        ≡ text.old.items ++ culprits_text seen.now shares time.now) }
{
    if seen.culprits.len() == 0 {
        return put_none(text, shares, time);
    }
    put_found(text, &seen.culprits)
}

// The picture, where there is one.
#[tactic(auto, unfolding(crate::specs::Pages::picture_text))]
fn put_picture(text: &mut Vec<u8>, is_there: bool) -> Result<(), AllocError>
    ensures { OnOk result (text.new.items ≡ text.old.items ++ picture_text is_there) }
{
    if !is_there {
        return append(text, b"");
    }
    append(
        text,
        b"<h2>Picture</h2>\n<p>Blocks of the latest views for which a replica voted, the last commits, and what stands around a conflict and the votes of culprits. <a href=\"/fork.svg\">The picture alone</a></p>\n<div class=\"wide\"><img src=\"/fork.svg\" alt=\"The blocks in columns by their views, each with what is proved of it and a line to its parent; below them each culprit with its two votes. The conflict and the culprits stand in words on this page.\"></div>\n",
    )
}

fn put_first(
    text: &mut Vec<u8>,
    standing: Standing,
    shares: Shares,
    time: &[u8],
    round: u64,
) -> Result<(), AllocError>
    ensures { OnOk result (text.new.items
        ≡ text.old.items ++ first_text standing shares time.now round) }
{
    append(text, b"<h1>")?;
    put_state(text, standing, shares)?;
    append(text, b"</h1>\n<p>")?;
    put_advice(text, standing)?;
    append(text, b"</p>\n<ul>\n<li>Round ")?;
    put_number(text, round)?;
    append(text, b", ")?;
    append(text, time)?;
    append(text, b"; ")?;
    put_share(text, shares.answering, shares.sources)?;
    append(text, b" sources answer</li>\n")?;
    Ok(())
}

fn put_all_holding(text: &mut Vec<u8>, seen: &Snapshot, second: u64) -> Result<(), AllocError>
    ensures { OnOk result (text.new.items
        ≡ text.old.items ++ (holding_text seen.now second ++ codes "</ul>\n")) }
{
    put_holding(text, seen, second)?;
    append(text, b"</ul>\n")
}

fn put_kept_line(text: &mut Vec<u8>, read: u64, all: u64) -> Result<(), AllocError>
    ensures { OnOk result (text.new.items ≡ text.old.items ++ kept_line read all) }
{
    append(text, b"<p>Kept files that were read: ")?;
    put_share(text, read, all)?;
    append(text, b".</p>\n")?;
    Ok(())
}

#[tactic(auto, unfolding(crate::specs::Pages::kept_text))]
fn put_kept(text: &mut Vec<u8>, read: u64, all: u64) -> Result<(), AllocError>
    ensures { OnOk result (text.new.items ≡ text.old.items ++ kept_text read all) }
{
    if read < all {
        return put_kept_line(text, read, all);
    }
    append(text, b"")
}

fn put_lost_line(text: &mut Vec<u8>, lost: u64) -> Result<(), AllocError>
    ensures { OnOk result (text.new.items ≡ text.old.items ++ lost_line lost) }
{
    append(
        text,
        b"<p>Lines that were dropped, since nobody took them: ",
    )?;
    put_number(text, lost)?;
    append(text, b".</p>\n")?;
    Ok(())
}

#[tactic(auto, unfolding(crate::specs::Pages::lost_text))]
fn put_lost(text: &mut Vec<u8>, lost: u64) -> Result<(), AllocError>
    ensures { OnOk result (text.new.items ≡ text.old.items ++ lost_text lost) }
{
    if 0 < lost {
        return put_lost_line(text, lost);
    }
    append(text, b"")
}

fn put_earlier_line(text: &mut Vec<u8>, earlier: u64) -> Result<(), AllocError>
    ensures { OnOk result (text.new.items ≡ text.old.items ++ earlier_line earlier) }
{
    append(
        text,
        b"<p>Culprits of earlier committees, whose verdicts stand in the folder: ",
    )?;
    put_number(text, earlier)?;
    append(text, b".</p>\n")?;
    Ok(())
}

#[tactic(auto, unfolding(crate::specs::Pages::earlier_text))]
fn put_earlier(text: &mut Vec<u8>, earlier: u64) -> Result<(), AllocError>
    ensures { OnOk result (text.new.items ≡ text.old.items ++ earlier_text earlier) }
{
    if 0 < earlier {
        return put_earlier_line(text, earlier);
    }
    append(text, b"")
}

// That the committee handed its ledger over, where it is proved.
#[tactic(auto, unfolding(crate::specs::Pages::handover_text))]
fn put_handover(text: &mut Vec<u8>, has_handover: bool, goes_over: bool) -> Result<(), AllocError>
    ensures { OnOk result (text.new.items
        ≡ text.old.items ++ handover_text has_handover goes_over) }
{
    if !has_handover {
        return append(text, b"");
    }
    if goes_over {
        return append(
            text,
            b"<p>It is proved that this committee handed its ledger over to the next one. The watch goes over to that one once a source gives its file.</p>\n",
        );
    }
    append(
        text,
        b"<p>It is proved that this committee handed its ledger over to the next one. Watch that one with a watch of its own: the ledger does not go on here.</p>\n",
    )
}

fn put_all_sources(
    text: &mut Vec<u8>,
    every: u32,
    top: u64,
    second: u64,
    sources: &[SourceSeen],
) -> Result<(), AllocError>
    ensures { OnOk result (text.new.items
        ≡ text.old.items ++ sources_text every top second sources.now) }
{
    append(
        text,
        b"<h2>Sources</h2>\n<div class=\"wide\"><table>\n<caption>What each source gave, and when</caption>\n<tr><th scope=\"col\">Source</th><th scope=\"col\">Replica</th><th scope=\"col\">State</th><th scope=\"col\">Log</th><th scope=\"col\">Entries</th><th scope=\"col\">Views behind</th><th scope=\"col\">Last answer</th><th scope=\"col\">Last frame</th></tr>\n",
    )?;
    put_sources(text, every, top, second, sources)?;
    append(text, b"</table></div>\n")?;
    Ok(())
}

fn put_all_commits(
    text: &mut Vec<u8>,
    count: u64,
    commits: &[Ballot],
    conflict: &Option<Fork>,
) -> Result<(), AllocError>
    ensures { OnOk result (text.new.items
        ≡ text.old.items ++ commits_text count commits.now conflict.now) }
{
    append(text, b"<h2>Commits</h2>\n")?;
    put_conflict(text, conflict)?;
    append(text, b"<p>Proved commits: ")?;
    put_number(text, count)?;
    append(text, b" (the last 100 are listed)</p>\n<ul>\n")?;
    put_commits(text, commits)?;
    append(text, b"</ul>\n")?;
    Ok(())
}

fn put_foot(text: &mut Vec<u8>, committee: u64, chain: &Id) -> Result<(), AllocError>
    ensures { OnOk result (text.new.items ≡ text.old.items ++ foot_text committee chain.now) }
{
    append(text, b"<p>Committee ")?;
    put_number(text, committee)?;
    append(text, b" (the first one has 0), chain <code>")?;
    put_id(text, chain)?;
    append(
        text,
        b"</code></p>\n<p>A verdict is checked with hs_check or check.html, of a copy of this project that its reader trusts: this watcher is the accuser, and hands out no judge.</p>\n</body>\n</html>\n",
    )?;
    Ok(())
}

// ---- the whole

#[tactic(auto, unfolding(crate::specs::Pages::front_text))]
fn put_front(
    text: &mut Vec<u8>,
    seen: &Snapshot,
    second: u64,
    is_still: bool,
    time: &[u8],
) -> Result<(), AllocError>
    ensures { OnOk result (text.new.items
        ≡ text.old.items ++ front_text seen.now second is_still time.now) }
{
    let shares = shares_of(seen, second);
    let standing = seen.standing(second);
    put_title(text, standing, shares, seen, is_still)?;
    put_looks(text, level_of(standing))?;
    put_banner(text, is_old_round(seen.stamped, second))?;
    put_first(text, standing, shares, time, seen.round)?;
    put_all_holding(text, seen, second)?;
    put_kept(text, seen.kept_read, seen.kept)?;
    put_lost(text, seen.lines_lost)?;
    put_earlier(text, seen.earlier_culprits)?;
    put_handover(text, seen.has_handover, seen.goes_over)
}

#[tactic(auto, unfolding(crate::specs::Pages::body_text))]
fn put_body(
    text: &mut Vec<u8>,
    seen: &Snapshot,
    second: u64,
    is_still: bool,
    time: &[u8],
) -> Result<(), AllocError>
    ensures { OnOk result (text.new.items
        ≡ text.old.items ++ body_text seen.now second is_still time.now) }
{
    put_all_culprits(text, seen, shares_of(seen, second), time)?;
    put_picture(text, seen.picture.is_some())?;
    put_all_commits(text, seen.commit_count, &seen.commits, &seen.conflict)?;
    put_all_sources(text, seen.every, seen.certified, second, &seen.sources)?;
    put_links(text, is_still)?;
    put_foot(text, seen.committee, &seen.chain)
}

// .. with this time of its last round.
fn page_at(
    alloc: Global,
    seen: &Snapshot,
    second: u64,
    is_still: bool,
    time: &[u8],
) -> Result<Vec<u8>, AllocError>
    ensures { IfOk result (λ text. text.items ≡ page_text seen.now second is_still time.now) }
{
    let mut text = Vec::new(alloc);
    put_front(&mut text, seen, second, is_still, time)?;
    put_body(&mut text, seen, second, is_still, time)?;
    Ok(text)
}

/// The page of what a watch knew, as it is at this second: one that reloads, or one that stays. It has no script.
pub(crate) fn page_of(
    alloc: Global,
    seen: &Snapshot,
    second: u64,
    is_still: bool,
) -> Result<Vec<u8>, AllocError>
    ensures { IfOk result (λ text. IsPage seen.now second is_still text.items) }
{
    let time = utc_text(alloc, seen.stamped)?;
    let text = page_at(alloc, seen, second, is_still, &time)?;
    Ok(text)
}
