//! Rows at hand that are chosen: those of some words in listed documents.
ghost use Rattle.std.specs.Prelude.{◌≡◌, ◌<◌, ◌≤◌, ◌++◌, List, filter, length, map, OnOk};
ghost use Rattle.std.specs.List.{All};
ghost use Rattle.cs_base.specs.declared.content.doc.Post.{Post};
ghost use Rattle.cs_tables.specs.WordCounts.{AreCountable, HasCounted, is_chosen};
ghost use Rattle.cs_rows.specs.BestScores.{HasBestScores};
ghost use Rattle.cs_rows.specs.Packing.{IsPacked, key_of};

use crate::packing::pack_one;
use cs_base::{Memory, Post, Weights};
use cs_tables::WordCounts;

/// Adds the numbers of those rows in listed documents whose word's number is `words.0` or more and below `words.1`.
pub fn pack_chosen(
    weights: Weights,
    rows: &[Post],
    words: (u32, u32),
    listed: &[bool],
    keys: &mut Vec<u64>,
) -> Result<(), Memory>
    requires packed { All (IsPacked weights) rows.now }
    requires known { All (λ p. p.doc < length listed.now) rows.now }

    ensures { OnOk result (keys.new.items ≡ keys.old.items ++ map (key_of weights) (filter (is_chosen words.0 words.1 listed.now) rows.now)) }
{
    for row in rows {
        if is_chosen(row, words, listed) {
            pack_one(weights, *row, keys)?;
        }
    }
    Ok(())
}

/// How many rows are in listed documents, with a word whose number is `words.0` or more and below `words.1`.
pub fn many_chosen(rows: &[Post], words: (u32, u32), listed: &[bool]) -> usize
    requires { All (λ p. p.doc < length listed.now) rows.now }

    ensures { result ≡ length (filter (is_chosen words.0 words.1 listed.now) rows.now) }
{
    let mut many = 0;
    for row in rows {
        if is_chosen(row, words, listed) {
            many += 1;
        }
    }
    many
}

/// Counts those rows in listed documents whose word's number is `words.0` or more and below `words.1`, which are the words that are
/// counted.
pub fn count_chosen(counts: &mut WordCounts, rows: &[Post], words: (u32, u32), listed: &[bool])
    requires known { All (λ p. p.doc < length listed.now) rows.now }
    requires low { counts.old.low ≡ words.0 }
    requires high { counts.old.high ≡ words.1 }

    ensures counted { (seen : List Post) → AreCountable (seen ++ filter (is_chosen words.0 words.1 listed.now) rows.now)
        → HasCounted seen counts.old → HasCounted (seen ++ filter (is_chosen words.0 words.1 listed.now) rows.now) counts.new }
    ensures low { counts.new.low ≡ counts.old.low }
    ensures high { counts.new.high ≡ counts.old.high }
{
    for row in rows {
        if is_chosen(row, words, listed) {
            counts.see(row.doc, row.word);
        }
    }
}

/// Counts rows that are chosen already, all of words that are counted, and notes their scores: by document the greatest one.
pub(crate) fn note_chosen(counts: &mut WordCounts, best: &mut Vec<u8>, rows: &[Post])
    requires words { All (λ p. (counts.old.low ≤ p.word) × (p.word < counts.old.high)) rows.now }
    requires known { All (λ p. p.doc < length best.old.items) rows.now }

    ensures counted { (seen : List Post) → AreCountable (seen ++ rows.now) → HasCounted seen counts.old
        → HasCounted (seen ++ rows.now) counts.new }
    ensures best { (seen : List Post) → HasBestScores seen best.old.items → HasBestScores (seen ++ rows.now) best.new.items }
    ensures low { counts.new.low ≡ counts.old.low }
    ensures high { counts.new.high ≡ counts.old.high }
    ensures len { length best.new.items ≡ length best.old.items }
{
    note_rows(counts, best, rows);
}

// The same.
fn note_rows(counts: &mut WordCounts, best: &mut [u8], rows: &[Post])
    requires words { All (λ p. (counts.old.low ≤ p.word) × (p.word < counts.old.high)) rows.now }
    requires known { All (λ p. p.doc < length best.old) rows.now }

    ensures counted { (seen : List Post) → AreCountable (seen ++ rows.now) → HasCounted seen counts.old
        → HasCounted (seen ++ rows.now) counts.new }
    ensures best { (seen : List Post) → HasBestScores seen best.old → HasBestScores (seen ++ rows.now) best.new }
    ensures low { counts.new.low ≡ counts.old.low }
    ensures high { counts.new.high ≡ counts.old.high }
    ensures len { length best.new ≡ length best.old }
{
    for row in rows {
        let at = row.doc as usize;
        counts.see(row.doc, row.word);
        best[at] = best[at].max(row.score);
    }
}

// Whether a row is of these words in a listed document.
#[inline]
fn is_chosen(row: &Post, words: (u32, u32), listed: &[bool]) -> bool
    requires { row.now.doc < length listed.now }

    ensures { result ≡ is_chosen words.0 words.1 listed.now row.now }
{
    (words.0 <= row.word) & (row.word < words.1) & listed[row.doc as usize]
}
