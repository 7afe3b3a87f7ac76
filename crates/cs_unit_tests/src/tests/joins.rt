//! A join on worked rows.
use crate::tests::rows::{Columns, have, posts};
use cs_cols::Cols;
use cs_join::shared;
use cs_meet::docs_of;
use std::alloc::Global;
use std::test::Fail;

// Facet rows.
const ROWS: Columns = (
    &[0, 1, 1, 3, 3, 4, 6, 6],
    &[0, 0, 0, 0, 0, 0, 0, 0],
    &[7, 5, 9, 5, 6, 9, 4, 12],
);

// Rows of the listed documents, 1 and 2.
const INNER: Columns = (&[1, 1, 2], &[0, 0, 0], &[3, 4, 3]);

const SHARED: Columns = (&[1, 1, 3, 4], &[0, 0, 0, 0], &[5, 9, 5, 9]);

#[test]
fn rows_share_words_with_listed_documents(rt: HostRuntime) -> Result<(), Fail> {
    let found = joined(rt.alloc())?;
    have(&rt, &found, &SHARED, "shared");
    Ok(())
}

fn joined(alloc: Global) -> Result<Cols, Fail> {
    let rows = posts(alloc, &ROWS)?;
    let hits = docs_of(alloc, &posts(alloc, &INNER)?)?;
    Ok(shared(alloc, &rows, hits.as_slice())?)
}
