//! What opening says of each damage to a worked index file of version 1.
use crate::tests::rows::same;
use cs_base::{MemStore, Memory};
use cs_file::{OpenFault, open_index};
use cs_worked::ONE_DOCUMENT;
use std::alloc::Global;
use std::test::Fail;

// Bytes of it that are changed, each by place and value.
type Changes = &'static [(usize, u8)];

// Changes, the first broken rule, and its place.
const DAMAGES: &[(Changes, u8, u64)] = &[
    // the first byte; no sizes of these blocks
    (&[(0, 0x00)], 2, 0),
    (&[(26, 0x00)], 3, 24),
    // words that don't fill their bytes, or are without one
    (&[(15, 0x05)], 5, 56),
    (&[(15, 0x03)], 5, 54),
    (&[(44, 0x00)], 5, 44),
    // a word that isn't text of the kind, one behind a greater one
    (&[(50, 0x20)], 6, 49),
    (&[(50, 0x62)], 7, 51),
    // titles that begin elsewhere, or aren't text
    (&[(59, 0x01)], 8, 56),
    (&[(63, 0x01)], 8, 60),
    (&[(64, 0xFF)], 9, 64),
    // words that a block hasn't, bytes that it hasn't, rows that it hasn't
    (&[(69, 0x01)], 10, 66),
    (&[(89, 0x02)], 10, 98),
    (&[(73, 0x02), (85, 0x02), (89, 0x02)], 11, 66),
    (&[(77, 0x02)], 12, 66),
    (&[(19, 0x05)], 12, 98),
    // a document, a word, a score and an order that a block can't have, and a word without a row
    (&[(98, 0x01)], 14, 98),
    (&[(110, 0x03)], 15, 109),
    (&[(105, 0x01)], 16, 101),
    (&[(122, 0x0C)], 17, 108),
    (&[(112, 0x01)], 18, 82),
];

#[test]
fn opening_names_the_rule_and_the_place(rt: HostRuntime) -> Result<(), Fail> {
    for (changes, rule, at) in DAMAGES {
        let (rule, at) = (*rule, *at);
        let found = opened(rt.alloc(), changes)?;
        same(&rt, &found, &Err(OpenFault::Damaged { rule, at }), *changes);
    }
    Ok(())
}

// The word `A` where `a` stood leaves every rule true.
#[test]
fn a_word_that_no_collection_gives_is_opened(rt: HostRuntime) -> Result<(), Fail> {
    let found = opened(rt.alloc(), &[(50, 0x41)])?;
    same(&rt, &found, &Ok(4), "of the words");
    Ok(())
}

// How many words the file has where it is opened with these changes.
fn opened(alloc: Global, changes: &[(usize, u8)]) -> Result<Result<u32, OpenFault>, Memory> {
    let mut bytes = ONE_DOCUMENT.file1.to_vec(alloc)?;
    for (place, byte) in changes {
        if let Some(there) = bytes.get_mut(*place) {
            *there = *byte;
        }
    }
    let mut store = MemStore::new(bytes);
    match open_index(alloc, &mut store) {
        Ok(index) => Ok(Ok(index.words.len())),
        Err(fault) => Ok(Err(fault)),
    }
}
