//! Lists of JSON: each element behind a comma but the first.

ghost use Rattle.std.specs.Prelude.{◌≡◌, ◌++◌, OnOk, codes};
ghost use Rattle.std.specs.List.{flat_map};
ghost use Rattle.watch_web.specs.Reports.{block_text, culprit_text, listed, source_text};

use crate::report::{put_block, put_culprit, put_source};
use base_wire::append;
use blocks::Ballot;
use std::alloc::AllocError;
use watch_report::{Culprit, SourceSeen};

#[tactic(auto, unfolding(crate::specs::Reports::listed))]
pub(crate) fn put_sources(text: &mut Vec<u8>, sources: &[SourceSeen]) -> Result<(), AllocError>
    ensures { OnOk result (text.new.items ≡ text.old.items ++ listed source_text sources.now) }
{
    let [first, more @ ..] = sources else {
        return Ok(());
    };
    put_source(text, first)?;
    put_more_sources(text, more)
}

fn put_more_sources(text: &mut Vec<u8>, sources: &[SourceSeen]) -> Result<(), AllocError>
    ensures { OnOk result (text.new.items
        ≡ text.old.items ++ flat_map (λ y. codes "," ++ source_text y) sources.now) }
{
    for source in sources {
        append(text, b",")?;
        put_source(text, source)?;
    }
    Ok(())
}

#[tactic(auto, unfolding(crate::specs::Reports::listed))]
pub(crate) fn put_blocks(text: &mut Vec<u8>, blocks: &[Ballot]) -> Result<(), AllocError>
    ensures { OnOk result (text.new.items ≡ text.old.items ++ listed block_text blocks.now) }
{
    let [first, more @ ..] = blocks else {
        return Ok(());
    };
    put_block(text, first)?;
    put_more_blocks(text, more)
}

fn put_more_blocks(text: &mut Vec<u8>, blocks: &[Ballot]) -> Result<(), AllocError>
    ensures { OnOk result (text.new.items
        ≡ text.old.items ++ flat_map (λ y. codes "," ++ block_text y) blocks.now) }
{
    for block in blocks {
        append(text, b",")?;
        put_block(text, block)?;
    }
    Ok(())
}

#[tactic(auto, unfolding(crate::specs::Reports::listed))]
pub(crate) fn put_culprits(text: &mut Vec<u8>, culprits: &[Culprit]) -> Result<(), AllocError>
    ensures { OnOk result (text.new.items ≡ text.old.items ++ listed culprit_text culprits.now) }
{
    let [first, more @ ..] = culprits else {
        return Ok(());
    };
    put_culprit(text, first)?;
    put_more_culprits(text, more)
}

fn put_more_culprits(text: &mut Vec<u8>, culprits: &[Culprit]) -> Result<(), AllocError>
    ensures { OnOk result (text.new.items
        ≡ text.old.items ++ flat_map (λ y. codes "," ++ culprit_text y) culprits.now) }
{
    for culprit in culprits {
        append(text, b",")?;
        put_culprit(text, culprit)?;
    }
    Ok(())
}
