//! Merged images of small collections, against the bytes of their files.
use crate::tests::image::{file_of, image_of};
use crate::tests::rows::same;
use cs_base::{USUAL_WEIGHTS, Weights};
use cs_merge::{MergeFault, merge};
use cs_worked::{NO_DOCUMENTS, ONE_DOCUMENT, WEIGHED_DOCUMENT};
use std::alloc::Global;
use std::test::Fail;

const TWO: &str = "a b\tj=y;k=x\tc\nb\tk=z\ta\n";

// Words of the first two and others, in front, between and behind. One document has no word.
const TWO_MORE: &str = "b c\tj=y;k=w\td a\n\t\t\n";

// Four documents and eight words in three blocks: of the facet `j`, of the facet `k`, and of plain words.
const FOUR: &[u8] = b"HYBIDX2\n\
    \x00\x00\x00\x04\x00\x00\x00\x08\x00\x00\x00\x0e\x00\x00\x00\x03\x00\x00\x20\x00\
    \x00\x00\x00\x1c\x00\x00\x00\x07\x00\x00\x00\x70\x00\x00\x00\x00\
    \x04:j:y\x04:k:w\x04:k:x\x04:k:z\x01a\x01b\x01c\x01d\
    \x00\x00\x00\x00\x00\x00\x00\x03\x00\x00\x00\x04\x00\x00\x00\x07\x00\x00\x00\x07\
    a bbb c\
    \x00\x00\x00\x00\x00\x00\x00\x01\x00\x00\x00\x02\x00\x00\x00\x10\x00\x00\x00\x00\x00\x00\x00\x02\
    \x00\x00\x00\x01\x00\x00\x00\x03\x00\x00\x00\x03\x00\x00\x00\x18\x00\x00\x00\x00\x00\x00\x00\x02\
    \x00\x00\x00\x04\x00\x00\x00\x04\x00\x00\x00\x09\x00\x00\x00\x48\x00\x00\x00\x00\x00\x00\x00\x02\
    \x00\x02\
    \x00\x00\x00\x00\
    \x00\x00\x00\x00\x00\x00\x00\x00\
    \x02\x02\
    \x00\x01\x01\
    \x00\x01\x00\x02\x00\x00\
    \x00\x00\x00\x00\x00\x00\x00\x00\x00\x00\x00\x00\
    \x02\x02\x02\
    \x00\x00\x00\x01\x00\x01\x00\x00\x00\
    \x00\x00\x00\x01\x00\x02\x00\x01\x00\x00\x00\x01\x00\x02\x00\x03\x00\x00\
    \x00\x00\x00\x01\x00\x00\x00\x02\x00\x00\x00\x0b\x00\x00\x00\x01\x00\x00\x00\x0a\x00\x00\x00\x01\x00\x00\x00\x02\x00\x00\x00\x0b\x00\x00\x00\x0c\
    \x04\x04\x01\x04\x01\x04\x04\x01\x01";

#[test]
fn the_file_of_two_collections_has_these_bytes(rt: HostRuntime) -> Result<(), Fail> {
    let none = NO_DOCUMENTS.collection;
    let one = ONE_DOCUMENT.collection;
    for (a, b, want) in [
        (none, none, NO_DOCUMENTS.file),
        (none, one, ONE_DOCUMENT.file),
        (one, none, ONE_DOCUMENT.file),
        (TWO, TWO_MORE, FOUR),
    ] {
        let file = merged_file(rt.alloc(), a, b)?;
        same(&rt, &file.as_slice(), &want, (a, b));
    }
    Ok(())
}

fn merged_file(alloc: Global, a: &str, b: &str) -> Result<Vec<u8>, Fail> {
    let a = image_of(alloc, a.as_bytes())?;
    let b = image_of(alloc, b.as_bytes())?;
    let image = merge(alloc, &a, &b)?;
    let file = file_of(alloc, &image)?;
    Ok(file)
}

#[test]
fn images_of_other_weights_are_not_merged(rt: HostRuntime) -> Result<(), Fail> {
    let usual = image_of(rt.alloc(), ONE_DOCUMENT.collection.as_bytes())?;
    let other = image_of(rt.alloc(), WEIGHED_DOCUMENT.collection.as_bytes())?;
    let fault = merge(rt.alloc(), &usual, &other).err();
    let second = Weights {
        title: 9,
        facet: 3,
        text: 2,
    };
    let want = MergeFault::WeightsDiffer {
        first: USUAL_WEIGHTS,
        second,
    };
    same(&rt, &fault, &Some(want), "weights");
    Ok(())
}
