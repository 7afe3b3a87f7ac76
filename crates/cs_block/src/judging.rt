//! Which rule is the first that the bytes of a block break.
ghost use Rattle.std.specs.Prelude.{◌≡◌, ℕ, ◌+◌, ◌*◌, ◌≤◌, length, None, Some, cond, IfSome};
ghost use Rattle.std.specs.Option.{option_map, option_or};
ghost use Rattle.cs_model_index.specs.{Blocks.{IsShaped}, BlockRules.{block_items, broken_at, codes_break, first_broken, judged_columns, rules}};
ghost use Rattle.cs_block.specs.{BlockReading.{HasColumns}, ColumnsView.{seen_columns}};

use crate::columns::{CutColumns, doc_here, gap_here, row_at};
use crate::rules::{is_after, is_in_words, is_scored};
use cs_base::{BlockHead, Broken, Post, Weights};

/// The first broken rule, if one is broken.
pub fn judged_columns(
    columns: &CutColumns<'_>,
    head: &BlockHead,
    docs: u32,
    weights: Weights,
) -> Option<Broken>
    requires shaped { IsShaped head.now head.now.len }
    requires sized { HasColumns head.now (seen_columns columns.now) }

    ensures { result ≡ judged_columns weights head.now docs (seen_columns columns.now) }
{
    if let Some(at) = bad_code(columns.gaps, head.rows) {
        return Some(Broken {
            n: 13,
            at: at as u32,
        });
    }
    broken_row(columns, head, docs, weights)
}

/// The first place of the gap column where a code should stand and doesn't, or a byte is left over.
pub fn bad_code(gaps: &[u8], rows: u32) -> Option<usize>
    ensures value { result ≡ codes_break rows 0 gaps.now }
    ensures within { IfSome result (λ at. at ≤ length gaps.now) }
{
    let mut at = 0;
    for _ in 0..rows {
        let Some((_, next)) = gap_here(gaps, at) else {
            return Some(at);
        };
        at = next;
    }
    if at < gaps.len() {
        return Some(at);
    }
    None
}

// The first broken rule on rows, over a gap column that holds.
fn broken_row(
    columns: &CutColumns<'_>,
    head: &BlockHead,
    docs: u32,
    weights: Weights,
) -> Option<Broken>
    requires shaped { IsShaped head.now head.now.len }
    requires sized { HasColumns head.now (seen_columns columns.now) }
    requires codes { codes_break head.now.rows 0 columns.now.gaps.now ≡ None }

    ensures { result ≡ first_broken (rules weights head.now docs) (block_items head.now (seen_columns columns.now)) }
{
    let words_at = head.len - 7 * head.rows;
    let positions_at = words_at + 2 * head.rows;
    let mut bad_word = None;
    let mut bad_score = None;
    let mut bad_order = None;
    let mut last: Option<Post> = None;
    let mut before: u32 = 0;
    let mut at = 0;
    for i in 0..head.rows {
        let Some((doc, next)) = doc_here(columns.gaps, at, before, docs) else {
            return Some(Broken {
                n: 14,
                at: at as u32,
            });
        };
        let row = row_at(columns, head.lo, doc, i as usize);
        bad_word = keep(bad_word, is_in_words(head, row), words_at + 2 * i);
        bad_score = keep(
            bad_score,
            is_scored(head.facet, weights, row),
            positions_at + 4 * i,
        );
        bad_order = keep(bad_order, is_after(last, row), at as u32);
        last = Some(row);
        before = row.doc;
        at = next;
    }
    or_rule(
        15,
        bad_word,
        or_rule(16, bad_score, or_rule(17, bad_order, None)),
    )
}

/// The first place kept, or this one where the rule doesn't hold.
pub fn keep(found: Option<u32>, holds: bool, at: u32) -> Option<u32>
    ensures { result ≡ option_or found (cond holds None (Some at)) }
{
    match found {
        Some(first) => Some(first),
        None => { if holds { None } else { Some(at) } }
    }
}

/// A rule that is broken at a place goes before the others.
pub fn or_rule(n: u8, at: Option<u32>, other: Option<Broken>) -> Option<Broken>
    ensures { result ≡ option_or (option_map (broken_at n) at) other }
{
    match at {
        Some(at) => Some(Broken { n, at }),
        None => other,
    }
}
