//! A worked block, written and read, and the rule and the place of each damage to it.
ghost use Rattle.std.specs.Prelude.{◌<◌};

use crate::tests::rows::same;
use cs_base::{BlockHead, Memory, USUAL_WEIGHTS, Weights};
use cs_block::{
    BlockFault, Broken, decode, decode_reserved, encode, front_len, read_doc_words, read_scores,
};
use cs_cols::Cols;
use cs_gaps::put_gap;
use std::alloc::Global;
use std::test::Fail;

// The head of a block of three plain words, 1 to 3, with a row each in document 0.
const HEAD: BlockHead = BlockHead {
    lo: 1,
    words: 3,
    rows: 3,
    len: 24,
    facet: false,
    least: 0,
    greatest: 0,
};

const BLOCK: [u8; 24] = [
    0, 0, 0, 0, 1, 0, 2, 0, 0, 0, 0, 0, 1, 0, 0, 0, 10, 0, 0, 0, 11, 4, 1, 1,
];

// Bytes of it that are changed, each by place and value.
type Changes = &'static [(usize, u8)];

// Changes, the first broken rule, and its place.
type Damage = (Changes, u8, u32);

const DAMAGES: &[Damage] = &[
    // a needless zero, a code that is cut
    (&[(0, 0x80)], 13, 0),
    (&[(2, 0x80)], 13, 2),
    // a document that isn't there, a word of another block
    (&[(2, 1)], 14, 2),
    (&[(4, 3)], 15, 3),
    // no score, the position of a facet, a position past the last
    (&[(23, 3)], 16, 17),
    (&[(12, 0)], 16, 9),
    (&[(14, 1), (15, 0x87)], 16, 13),
    // a row twice
    (&[(20, 10), (8, 2)], 17, 2),
    // of two rules the first
    (&[(0, 0x80), (23, 3)], 13, 0),
    (&[(2, 1), (4, 3)], 14, 2),
    (&[(4, 3), (23, 3)], 15, 3),
    // of two places the first
    (&[(22, 3), (23, 3)], 16, 13),
];

// What is found where the front is read alone.
const DAMAGES_OF_THE_FRONT: &[Damage] = &[
    // a code that is cut, a document that isn't there, a word of another block
    (&[(2, 0x80)], 13, 2),
    (&[(2, 1)], 14, 2),
    (&[(4, 3)], 15, 3),
    // of two rules the first, of two places the first
    (&[(2, 1), (4, 3)], 14, 2),
    (&[(6, 3), (8, 3)], 15, 5),
];

fn damaged(changes: &[(usize, u8)]) -> [u8; 24] {
    let mut bytes = BLOCK;
    for (at, value) in changes {
        if *at < 24 {
            bytes[*at] = *value;
        }
    }
    bytes
}

// Documents, words, positions and scores.
const COLUMNS: (&[u32], &[u32], &[u32], &[u8]) = (&[0, 0, 0], &[2, 3, 1], &[1, 10, 11], &[4, 1, 1]);

#[test]
fn the_worked_block_is_decoded_and_encoded(rt: HostRuntime) -> Result<(), Fail> {
    let mut rows = Cols::new(rt.alloc());
    decode(&BLOCK, &HEAD, 1, USUAL_WEIGHTS, &mut rows)?;
    let found = (rows.docs(), rows.words(), rows.places(), rows.scores());
    same(&rt, &found, &COLUMNS, "the rows");
    let mut out = Vec::new(rt.alloc());
    out.push(7)?;
    encode(&rows, 1, &mut out)?;
    same(
        &rt,
        &out.as_slice().get(1..),
        &Some(BLOCK.as_slice()),
        "encoded",
    );
    Ok(())
}

// What the front of a block is found to be, in the room of these lists.
fn front_of(bytes: &[u8; 24], docs: &mut Vec<u32>, words: &mut Vec<u32>) -> Result<(), BlockFault> {
    let len = front_len(&HEAD) as usize;
    read_doc_words(&bytes[..len], &HEAD, 1, docs, words)
}

#[test]
fn documents_and_words_are_read_of_the_front_alone(rt: HostRuntime) {
    let mut docs = Vec::new(rt.alloc());
    let mut words = Vec::new(rt.alloc());
    same(&rt, &front_len(&HEAD), &9, "the front");
    same(
        &rt,
        &front_of(&BLOCK, &mut docs, &mut words),
        &Ok(()),
        "read",
    );
    let found = (docs.as_slice(), words.as_slice());
    same(&rt, &found, &(COLUMNS.0, COLUMNS.1), "the rows");
    for (changes, n, at) in DAMAGES_OF_THE_FRONT {
        let answer = front_of(&damaged(changes), &mut docs, &mut words);
        let (n, at) = (*n, *at);
        same(&rt, &answer, &Err(BlockFault::Rule { n, at }), *changes);
    }
}

#[test]
fn scores_are_read_alone(rt: HostRuntime) -> Result<(), Fail> {
    let mut scores = Vec::new(rt.alloc());
    assert!(rt; read_scores(&BLOCK, &HEAD, USUAL_WEIGHTS, &mut scores)?);
    same(&rt, &scores.as_slice(), &COLUMNS.3, "the scores");
    // the score of a facet, no score
    for score in [2, 3] {
        let bytes = damaged(&[(23, score)]);
        assert!(rt; !read_scores(&bytes, &HEAD, USUAL_WEIGHTS, &mut scores)?);
    }
    Ok(())
}

#[test]
fn damage_is_named_by_rule_and_place(rt: HostRuntime) {
    for (changes, n, at) in DAMAGES {
        let mut rows = Cols::new(rt.alloc());
        let answer = decode(&damaged(changes), &HEAD, 1, USUAL_WEIGHTS, &mut rows);
        let (n, at) = (*n, *at);
        let want = (Err(BlockFault::Rule { n, at }), 0);
        same(&rt, &(answer, rows.len()), &want, *changes);
    }
}

// The head of a block of one word and one row, of a facet.
const FACET: BlockHead = BlockHead {
    lo: 0,
    words: 1,
    rows: 1,
    len: 8,
    facet: true,
    least: 0,
    greatest: 0,
};

// The same of a plain word.
const PLAIN: BlockHead = BlockHead {
    lo: 0,
    words: 1,
    rows: 1,
    len: 8,
    facet: false,
    least: 0,
    greatest: 0,
};

// With a byte more.
const LONGER: BlockHead = BlockHead {
    lo: 0,
    words: 1,
    rows: 1,
    len: 9,
    facet: true,
    least: 0,
    greatest: 0,
};

// A facet counts for more than usual.
const HEAVIER: Weights = Weights {
    title: 4,
    facet: 3,
    text: 1,
};

#[test]
fn a_facet_block_is_told_from_a_plain_one(rt: HostRuntime) {
    let mut rows = Cols::new(rt.alloc());
    let bytes = [0, 0, 0, 0, 0, 0, 0, 2];
    let facet = decode(&bytes, &FACET, 1, USUAL_WEIGHTS, &mut rows);
    same(&rt, &facet, &Ok(()), "a facet block");
    let plain = decode(&bytes, &PLAIN, 1, USUAL_WEIGHTS, &mut rows);
    let rule = Err(BlockFault::Rule { n: 16, at: 3 });
    same(&rt, &plain, &rule, "a plain block");
    let heavier = decode(&bytes, &FACET, 1, HEAVIER, &mut rows);
    same(&rt, &heavier, &rule, "the weight of another collection");
    let longer = decode(
        &[0, 0, 0, 0, 0, 0, 0, 0, 2],
        &LONGER,
        1,
        USUAL_WEIGHTS,
        &mut rows,
    );
    let rule = Err(BlockFault::Rule { n: 13, at: 1 });
    same(&rt, &longer, &rule, "a byte is left over");
    same(&rt, &rows.len(), &1, "the rows");
}

#[test]
fn a_block_is_decoded_in_the_room_that_there_is(rt: HostRuntime) -> Result<(), Fail> {
    let mut rows = Cols::new(rt.alloc());
    rows.reserve(3)?;
    let whole = decode_reserved(&BLOCK, &HEAD, 1, USUAL_WEIGHTS, &mut rows);
    same(&rt, &(whole, rows.words()), &(Ok(()), COLUMNS.1), "whole");
    rows.reserve(3)?;
    let broken = decode_reserved(&damaged(&[(23, 3)]), &HEAD, 1, USUAL_WEIGHTS, &mut rows);
    let want = (Err(Broken { n: 16, at: 17 }), 3);
    same(&rt, &(broken, rows.len()), &want, "broken");
    Ok(())
}

// The head of a block of 600 rows of one word, a third of which have a gap of one byte, a third of two, and a third of three.
const MIXED: BlockHead = BlockHead {
    lo: 0,
    words: 1,
    rows: 600,
    len: 5400,
    facet: true,
    least: 0,
    greatest: 0,
};

const GAPS: [u32; 3] = [1, 200, 20_000];

// The front of such a block in which so many gaps in a row have as many bytes, and its documents.
fn mixed(alloc: Global, run: u32) -> Result<(Vec<u8>, Vec<u32>), Memory>
    requires { 0 < run }
{
    let mut bytes = Vec::new(alloc);
    let mut docs = Vec::new(alloc);
    let mut doc: u32 = 0;
    for i in 0..600u32 {
        let gap = GAPS[(i / run % 3) as usize];
        doc = doc.saturating_add(gap);
        put_gap(&mut bytes, gap)?;
        docs.push(doc)?;
    }
    bytes.extend_from_slice(&[0; 2 * 600])?;
    Ok((bytes, docs))
}

// The documents that are read of a front whose bytes are enough, where there are so many documents.
fn docs_of(alloc: Global, bytes: &[u8], docs: u32) -> Result<Vec<u32>, BlockFault> {
    let mut found = Vec::new(alloc);
    let mut words = Vec::new(alloc);
    if let Some(front) = bytes.get(..2400) {
        read_doc_words(front, &MIXED, docs, &mut found, &mut words)?;
    }
    Ok(found)
}

#[test]
fn documents_are_read_whatever_bytes_their_gaps_have(rt: HostRuntime) -> Result<(), Fail> {
    let alloc = rt.alloc();
    for run in [1, 5, 50, 200] {
        let (bytes, docs) = mixed(alloc, run)?;
        let last = docs.last().copied().unwrap_or(0);
        assert!(rt; docs_of(alloc, &bytes, last).is_err());
        let found = docs_of(alloc, &bytes, last.saturating_add(1))?;
        same(&rt, &found.as_slice(), &docs.as_slice(), run);
    }
    Ok(())
}
