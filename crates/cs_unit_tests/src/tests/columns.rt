//! Columns against the list of posts that they hold.
use crate::tests::rows::same;
use cs_base::{Memory, Post};
use cs_cols::Cols;
use std::alloc::Global;
use std::process::Abort;
use std::test::Fail;

// Documents, words, positions and scores.
type Columns = (
    &'static [u32],
    &'static [u32],
    &'static [u32],
    &'static [u8],
);

const TWO: Columns = (&[0, 0], &[7, 8], &[100, 101], &[0, 1]);

const THREE: Columns = (&[0, 0, 1], &[7, 8, 9], &[100, 101, 102], &[0, 1, 2]);

const FIVE: Columns = (
    &[0, 0, 1, 1, 2],
    &[7, 8, 9, 10, 11],
    &[100, 101, 102, 103, 104],
    &[0, 1, 2, 3, 4],
);

// Post k of the tests' list.
fn post(k: u8) -> Post {
    let n = u32::from(k);
    Post {
        doc: n / 2,
        word: 7 + n,
        pos: 100 + n,
        score: k % 5,
    }
}

// The first five posts.
fn five(alloc: Global) -> Result<Cols, Memory> {
    let mut cols = Cols::new(alloc);
    for k in 0..5 {
        cols.reserve(1)?;
        cols.push_reserved(post(k));
    }
    Ok(cols)
}

// That these are the columns.
fn are(rt: &impl Abort, cols: &Cols, want: &Columns) {
    let found = (cols.docs(), cols.words(), cols.places(), cols.scores());
    same(rt, &found, want, cols.len());
    same(rt, &cols.len(), &want.0.len(), "the length");
}

#[test]
fn columns_keep_their_posts(rt: HostRuntime) -> Result<(), Fail> {
    are(&rt, &Cols::new(rt.alloc()), &(&[], &[], &[], &[]));
    let mut cols = five(rt.alloc())?;
    let copy = cols.copy(rt.alloc())?;
    cols.truncate(2);
    are(&rt, &cols, &TWO);
    are(&rt, &copy, &FIVE);
    assert!(rt; copy.len() == 5 && copy.get(4) == post(4));
    Ok(())
}

#[test]
fn a_run_of_posts_is_added(rt: HostRuntime) -> Result<(), Fail> {
    let mut cols = Cols::new(rt.alloc());
    cols.reserve(3)?;
    cols.extend_reserved(&[0], &[7], &[100], &[0]);
    cols.extend_reserved(&[0, 1], &[8, 9], &[101, 102], &[1, 2]);
    are(&rt, &cols, &THREE);
    Ok(())
}
