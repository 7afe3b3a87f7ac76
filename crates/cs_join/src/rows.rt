//! Rows that share their word with a row in a listed document.
ghost use Rattle.std.specs.Prelude.{◌≡◌, ◌+◌, ◌≤◌, [], ◌∷◌, ◌++◌, true, length, filter, if◌then◌else◌, IfOk};
ghost use Rattle.cs_base.specs.content.Orders.{AreDocs, AreSorted};
ghost use Rattle.cs_join.specs.Shared.{shared};
ghost use Rattle.cs_join.specs.Marked.{has_mark};

use crate::marks::Marks;
use cs_base::{Memory, Post};
use cs_cols::Cols;
use cs_meet::keep_docs;
use std::alloc::Global;

/// The rows whose word is also the word of a row in one of `inner_hits`, in their order.
///
/// A row in any other document is kept too, if its word is so shared.
pub fn shared(alloc: Global, facet_rows: &Cols, inner_hits: &[u32]) -> Result<Cols, Memory>
    requires sorted { AreSorted facet_rows.now.posts }
    requires docs { AreDocs inner_hits.now }

    ensures ok { IfOk result (λ c. c.posts ≡ shared facet_rows.now.posts inner_hits.now) }
    ensures sorted { IfOk result (λ c. AreSorted c.posts) }
{
    let listed = keep_docs(alloc, facet_rows, inner_hits)?;
    let marks = Marks::of(alloc, listed.words())?;
    let found = marked_rows(alloc, facet_rows, &marks)?;
    Ok(found)
}

// The rows whose word is marked, in memory for exactly so many.
fn marked_rows(alloc: Global, rows: &Cols, marks: &Marks) -> Result<Cols, Memory>
    ensures { IfOk result (λ c. c.posts ≡ filter (has_mark marks.now.least marks.now.marks.items) rows.now.posts) }
{
    let mut found = Cols::with_capacity(alloc, count_marked(rows, marks))?;
    for i in 0..rows.len() {
        let row = rows.get(i);
        add_where(&mut found, marks.has(row.word), row);
    }
    Ok(found)
}

fn count_marked(rows: &Cols, marks: &Marks) -> usize
    ensures { result ≡ length (filter (has_mark marks.now.least marks.now.marks.items) rows.now.posts) }
{
    let mut count = 0;
    for i in 0..rows.len() {
        if marks.has(rows.get(i).word) {
            count += 1;
        }
    }
    count
}

// Adds a row at the end where the test held, in the room that there then is.
#[inline]
fn add_where(found: &mut Cols, holds: bool, row: Post)
    requires { holds ≡ true → 1 ≤ found.old.room }

    ensures posts { found.new.posts ≡ (if holds then found.old.posts ++ row ∷ [] else found.old.posts) }
    ensures room { found.old.room + length found.old.posts ≤ found.new.room + length found.new.posts }
{
    if holds {
        found.push_reserved(row);
    }
}
