//! Filters and merges on worked rows.
ghost use Rattle.std.specs.Prelude.{◌≡◌, true};
ghost use Rattle.cs_base.specs.content.Orders.{AreByDoc, AreSorted};

use crate::tests::rows::{Columns, have, posts, same};
use cs_base::{Memory, Scored};
use cs_cols::Cols;
use cs_meet::{docs_of, drop_docs, follow, keep_docs, near, unite};
use std::alloc::Global;
use std::test::Fail;

// What becomes of two lists of posts.
#[derive(Clone, Copy)]
enum Way {
    Follow,
    Near,
    Unite,
    KeepDocs,
}

// The name of a way, the way, both lists, and the posts that come of them.
type Merge = (&'static str, Way, Columns, Columns, Columns);

const MERGES: &[Merge] = &[
    ("follow", Way::Follow, LEFT, RIGHT, BEHIND),
    ("near", Way::Near, LEFT, RIGHT, BESIDE),
    ("unite", Way::Unite, THREE, OTHERS, BOTH),
    ("keep_docs", Way::KeepDocs, THREE, SIX, KEPT),
];

// A facet row at position 0, and words at 1, 9 and 30 of document 3.
const LEFT: Columns = (&[2, 3, 3, 3, 3], &[4, 0, 1, 9, 30], &[5, 90, 5, 6, 5]);

const RIGHT: Columns = (
    &[2, 2, 2, 3, 3, 3, 3, 3, 3, 3, 3, 3, 4],
    &[5, 12, 13, 0, 1, 2, 10, 21, 22, 30, 38, 39, 5],
    &[7, 7, 7, 91, 7, 7, 7, 7, 7, 8, 8, 8, 7],
);

const BEHIND: Columns = (&[2, 3, 3], &[5, 2, 10], &[7, 7, 7]);

const BESIDE: Columns = (
    &[2, 2, 3, 3, 3, 3, 3],
    &[5, 12, 1, 2, 10, 22, 38],
    &[7, 7, 7, 7, 7, 7, 8],
);

const THREE: Columns = (&[1, 1, 4], &[1, 3, 0], &[5, 5, 9]);

const OTHERS: Columns = (
    &[0, 1, 1, 4, 4, 6],
    &[7, 1, 1, 0, 0, 1],
    &[5, 5, 6, 8, 9, 1],
);

const BOTH: Columns = (
    &[0, 1, 1, 1, 4, 4, 6],
    &[7, 1, 1, 3, 0, 0, 1],
    &[5, 5, 6, 5, 8, 9, 1],
);

const SIX: Columns = (
    &[0, 1, 1, 3, 4, 6],
    &[7, 1, 2, 0, 2, 1],
    &[5, 6, 6, 8, 9, 1],
);

const KEPT: Columns = (&[1, 1, 4], &[1, 2, 2], &[6, 6, 9]);

#[test]
fn two_lists_of_posts_give_these(rt: HostRuntime) -> Result<(), Fail> {
    for (name, way, a, b, want) in MERGES {
        let found = merged(rt.alloc(), *way, a, b)?;
        have(&rt, &found, want, name);
    }
    Ok(())
}

fn merged(alloc: Global, way: Way, a: &Columns, b: &Columns) -> Result<Cols, Fail> {
    let merged = brought(alloc, way, &posts(alloc, a)?, &posts(alloc, b)?)?;
    Ok(merged)
}

fn brought(alloc: Global, way: Way, a: &Cols, b: &Cols) -> Result<Cols, Memory>
    requires a { AreSorted a.now.posts }
    requires b { AreSorted b.now.posts }
{
    match way {
        Way::Follow => follow(alloc, a, b),
        Way::Near => near(alloc, a, b),
        Way::Unite => united(alloc, a, b),
        Way::KeepDocs => keep_docs(alloc, b, docs_of(alloc, a)?.as_slice()),
    }
}

// The union of both lists and the first once more.
fn united(alloc: Global, a: &Cols, b: &Cols) -> Result<Cols, Memory>
    requires a { AreSorted a.now.posts }
    requires b { AreSorted b.now.posts }
{
    let mut lists = Vec::new(alloc);
    lists.push(a.copy(alloc)?)?;
    lists.push(b.copy(alloc)?)?;
    lists.push(a.copy(alloc)?)?;
    unite(alloc, &lists)
}

// Documents with their scores, in order.
const BASE: &[(u32, u32)] = &[(0, 3), (1, 9), (2, 7), (5, 1)];

#[test]
fn documents_of_rows_are_listed_and_dropped(rt: HostRuntime) -> Result<(), Fail> {
    let alloc = rt.alloc();
    let docs = docs_of(alloc, &posts(alloc, &THREE)?)?;
    same(&rt, &docs.as_slice(), &[1, 4].as_slice(), "docs_of");
    let base = scored(alloc, BASE)?;
    assert!(rt; rises_by_doc(base.as_slice()));
    let left = drop_docs(alloc, base.as_slice(), &posts(alloc, &SIX)?)?;
    let want = scored(alloc, &[(2, 7), (5, 1)])?;
    same(&rt, &left.as_slice(), &want.as_slice(), "drop_docs");
    Ok(())
}

fn scored(alloc: Global, rows: &[(u32, u32)]) -> Result<Vec<Scored>, Memory> {
    let mut scored = Vec::new(alloc);
    for (doc, score) in rows {
        scored.push(Scored {
            doc: *doc,
            score: *score,
        })?;
    }
    Ok(scored)
}

// Whether the documents strictly ascend.
fn rises_by_doc(base: &[Scored]) -> bool
    ensures { result ≡ true → AreByDoc base.now }
{
    for j in 1..base.len() {
        if base[j - 1].doc >= base[j].doc {
            return false;
        }
    }
    true
}
