//! Blocks that are read of opened index files, of both versions, and one of more rows than a block may have words.
use crate::tests::image::{file_of, image_of};
use crate::tests::rows::{repeated, same};
use cs_base::{MemStore, Post};
use cs_cols::Cols;
use cs_file::open_index;
use cs_worked::ONE_DOCUMENT;
use std::alloc::Global;
use std::test::Fail;

// Documents, words, positions and scores.
type Rows = (
    &'static [u32],
    &'static [u32],
    &'static [u32],
    &'static [u8],
);

// The blocks of the one document by their numbers.
const BLOCKS: &[(u32, Rows)] = &[
    (0, (&[0], &[0], &[0], &[2])),
    (1, (&[0, 0, 0], &[2, 3, 1], &[1, 10, 11], &[4, 1, 1])),
];

#[test]
fn blocks_of_both_versions_have_these_rows(rt: HostRuntime) -> Result<(), Fail> {
    for file in [ONE_DOCUMENT.file, ONE_DOCUMENT.file1] {
        for (k, want) in BLOCKS {
            let rows = block_of(rt.alloc(), file, *k)?;
            let found = (rows.docs(), rows.words(), rows.places(), rows.scores());
            same(&rt, &found, want, *k);
        }
    }
    Ok(())
}

// The rows of a block of an index file.
fn block_of(alloc: Global, file: &[u8], k: u32) -> Result<Cols, Fail> {
    let mut store = MemStore::new(file.to_vec(alloc)?);
    let index = open_index(alloc, &mut store)?;
    let mut rows = Cols::new(alloc);
    if k as usize >= index.heads.len() {
        return Err(Fail::new("no such block"));
    }
    index.fetch(alloc, &mut store, k, &mut rows)?;
    Ok(rows)
}

// The file of one document without a title, whose text is 65,537 times the same word, up to its one block: of 65,537 rows of eight bytes
// each, of document 0.
const FRONT: &[u8] = b"HYBIDX2\n\
    \x00\x00\x00\x01\x00\x00\x00\x01\x00\x01\x00\x01\x00\x00\x00\x01\x00\x00\x20\x00\
    \x00\x00\x00\x02\x00\x00\x00\x00\x00\x08\x00\x08\x00\x00\x00\x00\
    \x01a\
    \x00\x00\x00\x00\x00\x00\x00\x00\
    \x00\x00\x00\x00\x00\x00\x00\x01\x00\x01\x00\x01\x00\x08\x00\x08\x00\x00\x00\x00\x00\x00\x00\x00";

#[test]
fn a_word_may_have_more_rows_than_a_block_has_words(rt: HostRuntime) -> Result<(), Fail> {
    let alloc = rt.alloc();
    let collection = repeated(alloc, "\t\t", "a ", 65_537, "\n")?;
    let image = image_of(alloc, collection.as_str().as_bytes())?;
    let file = file_of(alloc, &image)?;
    let found = (file.get(..78), file.len());
    same(&rt, &found, &(Some(FRONT), 78 + 8 * 65_537), "the file");
    let rows = block_of(alloc, &file, 0)?;
    assert!(rt; rows.len() == 65_537);
    // text begins nine positions behind the title
    let last = Post {
        doc: 0,
        word: 0,
        pos: 9 + 65_536,
        score: 1,
    };
    same(&rt, &rows.get(65_536), &last, "the last row");
    Ok(())
}
