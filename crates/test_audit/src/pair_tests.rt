//! Pairs of votes that are named, against a plain search over all pairs.

use crate::sources::{committee, of_logs, stream};
use blocks::{Header, Id};
use certificates::Statement;
use culprit_search::{Verdict, verdicts_of};
use lmots::PrivateSeed;
use lms_tree::SigningTree;
use std::alloc::Global;
use std::process::Abort;
use std::test::Fail;
use verdict_format::{Rule, VerdictView};

const DOUBLE: Option<Rule> = Some(Rule::DoubleVote);

const LOCK: Option<Rule> = Some(Rule::LockViolation);

// Two blocks of each view: the view, the place of the parent among genesis and these blocks, and what fills the payload.
const BLOCKS: [(u64, usize, u8); 40] = [
    (1, 0, b'A'),
    (1, 0, b'B'),
    (2, 1, b'A'),
    (2, 2, b'B'),
    (3, 2, b'A'),
    (3, 1, b'B'),
    (4, 6, b'A'),
    (4, 4, b'B'),
    (5, 0, b'A'),
    (5, 8, b'B'),
    (6, 7, b'A'),
    (6, 8, b'B'),
    (7, 9, b'A'),
    (7, 11, b'B'),
    (8, 11, b'A'),
    (8, 11, b'B'),
    (9, 15, b'A'),
    (9, 14, b'B'),
    (10, 15, b'A'),
    (10, 16, b'B'),
    (11, 18, b'A'),
    (11, 17, b'B'),
    (12, 22, b'A'),
    (12, 22, b'B'),
    (13, 22, b'A'),
    (13, 13, b'B'),
    (14, 26, b'A'),
    (14, 25, b'B'),
    (15, 12, b'A'),
    (15, 25, b'B'),
    (16, 30, b'A'),
    (16, 27, b'B'),
    (17, 30, b'A'),
    (17, 31, b'B'),
    (18, 31, b'A'),
    (18, 32, b'B'),
    (19, 35, b'A'),
    (19, 35, b'B'),
    (20, 36, b'A'),
    (20, 36, b'B'),
];

// Blocks that replica 0 votes for, one bit for each, and the rule that the first two votes break which break one.
const VOTES: [(u64, Option<Rule>); 25] = [
    (0x55_69a9_a516, None),
    (0xa5_a99d_a296, DOUBLE),
    (0xff_ffff_ffff, DOUBLE),
    (0xaa_a995_aa55, None),
    (0xdb_a5aa_aa9a, DOUBLE),
    (0x9d_6595_b6aa, DOUBLE),
    (0x55_6955_a52a, None),
    (0x6a_6695_a666, LOCK),
    (0x66_a959_691a, None),
    (0x66_a956_6696, None),
    (0xd6_a599_6999, LOCK),
    (0x69_a5a5_5696, None),
    (0x66_a989_5ae6, DOUBLE),
    (0xa6_69a9_65aa, LOCK),
    (0xae_6da9_56a5, DOUBLE),
    (0xaa_69a5_665a, None),
    (0x95_aa1a_6a59, None),
    (0x59_aa55_5a59, LOCK),
    (0x55_a59b_6ba6, DOUBLE),
    (0x96_655b_9a79, DOUBLE),
    (0x6a_a569_b99a, LOCK),
    (0x59_a9a9_5f5a, DOUBLE),
    (0x59_694a_96ad, DOUBLE),
    (0x59_b859_a866, LOCK),
    (0xab_6979_aa6a, DOUBLE),
];

// A block, and its parent.
#[derive(Clone, Copy)]
struct Block {
    header: Header,
    parent: Header,
    id: Id,
}

// Two votes that break a rule.
#[derive(Clone, Copy, Debug, PartialEq, Eq)]
struct Pair {
    rule: Rule,
    earlier: Id,
    later: Id,
}

fn block_on(parent: &Header, view: u64, letter: u8) -> Result<Block, Fail> {
    if view <= parent.view {
        return Err("the parent is not older".into());
    }
    let header = Header {
        view,
        parent_view: parent.view,
        parent: parent.id(),
        payload: [letter; 32],
    };
    Ok(Block {
        header,
        parent: *parent,
        id: header.id(),
    })
}

fn blocks(alloc: Global, genesis: Header) -> Result<Vec<Block>, Fail> {
    let mut headers = Vec::new(alloc);
    headers.push(genesis)?;
    let mut all = Vec::new(alloc);
    for (view, place, letter) in BLOCKS {
        let parent = headers.get(place).ok_or("no such block")?;
        let block = block_on(parent, view, letter)?;
        headers.push(block.header)?;
        all.push(block)?;
    }
    Ok(all)
}

// Adds a certificate of the block that proves nothing: that of genesis, or one with a bad vote of replica 1.
fn put_certificate(text: &mut Vec<u8>, block: &Header) -> Result<(), Fail> {
    text.extend_from_slice(&block.view.to_be_bytes())?;
    text.extend_from_slice(&block.id())?;
    if block.view == 0 {
        text.extend_from_slice(&[0, 0])?;
        return Ok(());
    }
    text.extend_from_slice(&[0, 1, 0, 1, 0])?;
    text.extend_from_slice(&[0; 1452])?;
    Ok(())
}

// The entry of a vote for the block, signed with this leaf.
fn entry(
    alloc: Global,
    tree: &SigningTree,
    chain: Id,
    leaf: u32,
    block: &Block,
) -> Result<Vec<u8>, Fail> {
    if leaf >= 1024 {
        return Err("no such leaf".into());
    }
    let statement = Statement {
        chain,
        view: block.header.view,
        id: block.id,
    };
    let mut text = b"\x03".to_vec(alloc)?;
    text.extend_from_slice(&block.header.to_bytes())?;
    text.extend_from_slice(&block.parent.to_bytes())?;
    text.push(0)?;
    text.extend_from_slice(&statement.view.to_be_bytes())?;
    text.extend_from_slice(&statement.id)?;
    text.extend_from_slice(&tree.sign_at(leaf, &statement.to_bytes()))?;
    put_certificate(&mut text, &block.parent)?;
    Ok(text)
}

// The entries of votes for the blocks by replica 0 of the stored committee.
fn entries(alloc: Global, chain: Id, blocks: &[Block]) -> Result<Vec<Vec<u8>>, Fail> {
    let secret = PrivateSeed {
        key_id: [0; 16],
        seed: [16; 32],
    };
    let tree = SigningTree::generate(alloc, secret)?;
    let mut all = Vec::new(alloc);
    for (leaf, block) in (0u32..40).zip(blocks) {
        all.push(entry(alloc, &tree, chain, leaf, block)?)?;
    }
    Ok(all)
}

// The places of the votes.
fn places(alloc: Global, votes: u64) -> Result<Vec<usize>, Fail> {
    let mut all = Vec::new(alloc);
    let mut rest = votes;
    for place in 0..40 {
        if rest % 2 == 1 {
            all.push(place)?;
        }
        rest /= 2;
    }
    Ok(all)
}

// The log of the votes.
fn log(alloc: Global, entries: &[Vec<u8>], places: &[usize]) -> Result<Vec<u8>, Fail> {
    let mut payloads: Vec<&[u8]> = Vec::new(alloc);
    for place in places {
        payloads.push(entries.get(*place).ok_or("no such entry")?)?;
    }
    stream(alloc, &payloads)
}

fn pair_in(verdict: &Verdict) -> Result<Pair, Fail> {
    let view = VerdictView::parse(verdict.as_bytes()).ok();
    let view = view.ok_or("no verdict")?;
    Ok(Pair {
        rule: view.rule(),
        earlier: view.earlier().id,
        later: view.later().id,
    })
}

// The pair that the verdict on evidence of these votes names, if there is one.
fn named(alloc: Global, entries: &[Vec<u8>], places: &[usize]) -> Result<Option<Pair>, Fail> {
    let log = log(alloc, entries, places)?;
    let evidence = of_logs(alloc, &[(0, &log)])?;
    if evidence.votes().len() != places.len() {
        return Err("a vote is missing".into());
    }
    match verdicts_of(alloc, &evidence)?.as_slice() {
        [] => Ok(None),
        [verdict] => Ok(Some(pair_in(verdict)?)),
        _ => Err("more than one culprit".into()),
    }
}

// The rule that votes for v and w break, with w as the later one.
fn broken(v: &Block, w: &Block) -> Option<Rule> {
    if v.header.view == w.header.view && v.id != w.id {
        return DOUBLE;
    }
    if v.header.view < w.header.view && w.header.parent_view < v.parent.parent_view {
        return LOCK;
    }
    None
}

// The blocks of the votes, by view and then by id.
fn ordered(alloc: Global, blocks: &[Block], places: &[usize]) -> Result<Vec<Block>, Fail> {
    let mut all = Vec::new(alloc);
    for place in places {
        all.push(*blocks.get(*place).ok_or("no such block")?)?;
    }
    all.sort_unstable_by_key(|b| (b.header.view, b.id));
    Ok(all)
}

// The first pair of these that breaks a rule: the later vote is the first, then the earlier.
fn searched(blocks: &[Block]) -> Option<Pair> {
    for w in blocks {
        for v in blocks {
            if let Some(rule) = broken(v, w) {
                return Some(Pair {
                    rule,
                    earlier: v.id,
                    later: w.id,
                });
            }
        }
    }
    None
}

fn agree<R: Abort>(
    rt: &R,
    alloc: Global,
    blocks: &[Block],
    entries: &[Vec<u8>],
    votes: u64,
    rule: Option<Rule>,
) -> Result<(), Fail> {
    let places = places(alloc, votes)?;
    let blocks = ordered(alloc, blocks, &places)?;
    let wanted = searched(&blocks);
    let found = named(alloc, entries, &places)?;
    assert!(rt; found == wanted);
    assert!(rt; found.map(|pair| pair.rule) == rule);
    Ok(())
}

#[test]
fn the_named_pair_is_that_of_a_plain_search(rt: HostRuntime) -> Result<(), Fail> {
    let alloc = rt.alloc();
    let committee = committee()?;
    let blocks = blocks(alloc, committee.genesis())?;
    let entries = entries(alloc, committee.chain(), &blocks)?;
    for (votes, rule) in VOTES {
        agree(&rt, alloc, &blocks, &entries, votes, rule)?;
    }
    Ok(())
}
