//! Rows in the order of a corpus.
ghost use Rattle.std.specs.Prelude.{◌≡◌, ◌≤◌, true, length, map, IfOk};
ghost use Rattle.std.specs.List.Sorted.{IsStrictlySortedBy};
ghost use Rattle.std.specs.Ordering.{is_lt};
ghost use Rattle.cs_base.specs.content.Members.{members_in};
ghost use Rattle.cs_base.specs.content.Orders.{by_row, by_spot};
ghost use Rattle.cs_build.specs.Ordering.{row_of_spot};

use cs_base::{Memory, Row, Seq, Word};
use std::alloc::Global;

// A row with its fields in the order in which they are compared.
#[derive(Debug, PartialEq, Eq, PartialOrd, Ord, Drop)]
struct Spot {
    doc: u32,
    pos: u32,
    word: Word,
    score: u8,
}

/// The rows by document, position, word and score, each once. Rows that are in this order already, as those of a collection,
/// aren't moved.
pub(crate) fn rows_in_order(alloc: Global, rows: Seq<Row>) -> Result<Seq<Row>, Memory>
    ensures ok { IfOk result (λ sorted. sorted ≡ members_in by_row rows) }
    ensures few { IfOk result (λ sorted. length sorted ≤ length rows) }
{
    if are_sorted(rows.as_slice()) {
        return Ok(rows);
    }
    let mut spots = spots_of(alloc, rows)?;
    spots.sort()?;
    spots.dedup();
    rows_at(alloc, spots)
}

fn spots_of(alloc: Global, rows: Seq<Row>) -> Result<Vec<Spot>, Memory>
    ensures { IfOk result (λ spots. map row_of_spot spots.items ≡ rows) }
{
    let mut spots = Vec::with_capacity(alloc, rows.len())?;
    for row in rows.into_vec() {
        let Row {
            doc,
            word,
            pos,
            score,
        } = row;
        spots.push(Spot {
            doc,
            pos,
            word,
            score,
        })?;
    }
    Ok(spots)
}

fn rows_at(alloc: Global, spots: Vec<Spot>) -> Result<Seq<Row>, Memory>
    ensures { IfOk result (λ rows. rows ≡ map row_of_spot spots.items) }
{
    let mut rows = Vec::with_capacity(alloc, spots.len())?;
    for spot in spots {
        let Spot {
            doc,
            pos,
            word,
            score,
        } = spot;
        rows.push(Row {
            doc,
            word,
            pos,
            score,
        })?;
    }
    Ok(Seq::from_vec(rows))
}

// Whether each row comes before the next one by document, position and word.
fn are_sorted(rows: &[Row]) -> bool
    ensures { result ≡ true → IsStrictlySortedBy by_row rows.now }
{
    for i in 1..rows.len() {
        if !comes_before(&rows[i - 1], &rows[i]) {
            return false;
        }
    }
    true
}

fn comes_before(a: &Row, b: &Row) -> bool
    ensures { result ≡ is_lt (by_spot a.now b.now) }
{
    a.doc < b.doc
        || (a.doc == b.doc && (a.pos < b.pos || (a.pos == b.pos && a.word.cmp(&b.word).is_lt())))
}
