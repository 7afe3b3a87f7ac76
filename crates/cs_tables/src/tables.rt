//! Tables and the call that makes one.
ghost use Rattle.std.specs.Prelude.{◌≡◌, ◌<◌, IfOk, All, length, take, map};
ghost use Rattle.cs_base.specs.content.Orders.{AreSorted};
ghost use Rattle.cs_base.specs.declared.content.limits.TheConstants.{MAX_DOCS, MAX_WORDS};
ghost use Rattle.cs_tables.specs.TableListings.{post_table, completion};

use crate::counts::counts_by_word;
use cs_base::{Memory, Scored, Seq};
use cs_cols::Cols;
use cs_rank::top;
use std::alloc::Global;

/// A word with the number of documents that have it.
#[derive(Clone, Copy, Debug, PartialEq, Eq)]
pub struct Completion {
    /// The word's number in the vocabulary.
    pub word: u32,
    /// How many documents have it in the rows.
    pub docs: u32,
}

/// The first completions of some rows.
#[derive(Debug, Drop)]
pub struct Table {
    /// How many words the rows have.
    pub total: u32,
    /// The first of them, by the number of documents descending, then by the word's number.
    pub first: Seq<Completion>,
}

/// The words of the rows by their number of documents descending, then by number, cut to the first `cut`, and
/// how many there are before the cut.
///
/// The time is linear in the rows and in the range of word numbers that occurs.
pub fn completions(alloc: Global, rows: &Cols, cut: u32) -> Result<Table, Memory>
    requires sorted { AreSorted rows.now.posts }
    requires docs { All (λ p. p.doc < MAX_DOCS) rows.now.posts }
    requires words { All (λ p. p.word < MAX_WORDS) rows.now.posts }

    ensures total { IfOk result (λ t. t.total ≡ length (post_table rows.now.posts)) }
    ensures first { IfOk result (λ t. t.first ≡ take cut (post_table rows.now.posts)) }
{
    let counted = counts_by_word(alloc, rows)?;
    let best = top(alloc, counted.as_slice(), 0, cut)?;
    let first = completions_of(alloc, best.as_slice())?;
    Ok(Table {
        total: counted.len() as u32,
        first: Seq::from_vec(first),
    })
}

/// Counted words as completions.
pub(crate) fn completions_of(alloc: Global, best: &[Scored]) -> Result<Vec<Completion>, Memory>
    ensures { IfOk result (λ v. v.items ≡ map completion best.now) }
{
    let mut first = Vec::with_capacity(alloc, best.len())?;
    for counted in best {
        first.push(Completion {
            word: counted.doc,
            docs: counted.score,
        })?;
    }
    Ok(first)
}
