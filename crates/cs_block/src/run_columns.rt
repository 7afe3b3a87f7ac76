//! The words, positions and scores of a run, each in a loop of its own with one test behind it, and its order.
ghost use Rattle.std.specs.Prelude.{◌≡◌, ℕ, ◌+◌, ◌*◌, ◌<◌, ◌≤◌, ◌||◌, ◌==◌, true, length, slice_index_or};
ghost use Rattle.std.specs.Ordering.{is_lt};
ghost use Rattle.cs_base.specs.{content.Orders.{by_place}, declared.content.limits.TheConstants.{MAX_WORDS}};
ghost use Rattle.cs_block.specs.RowRuns.{AreWords, ArePositions, AreScores, AreOnward, AreAscending};

use crate::columns::{four_bytes_at, half_at};
use cs_base::{MAX_POSITION, Weights};

/// The words of as many rows as there is room for, from row `first` on, and whether all are words of the block.
pub fn words_in(bytes: &[u8], first: usize, lo: u32, words: u32, out: &mut [u32]) -> bool
    requires sized { 2 * (first + length out.old) ≤ length bytes.now }
    requires few { lo + words ≤ MAX_WORDS }

    ensures { result ≡ true → AreWords lo words bytes.now first out.new }
{
    let mut most: u32 = 0;
    for i in 0..out.len() {
        let local = half_at(bytes, 2 * (first + i));
        most = most.max(local);
        out[i] = lo + local;
    }
    most < words
}

/// The positions of as many rows as there is room for, from row `first` on, and whether all are of the block's kind.
pub fn positions_in(bytes: &[u8], first: usize, facet: bool, out: &mut [u32]) -> bool
    requires sized { 4 * (first + length out.old) ≤ length bytes.now }

    ensures { result ≡ true → ArePositions facet bytes.now first out.new }
{
    let mut least = u32::MAX;
    let mut most: u32 = 0;
    for i in 0..out.len() {
        let pos = four_bytes_at(bytes, 4 * (first + i));
        least = least.min(pos);
        most = most.max(pos);
        out[i] = pos;
    }
    if facet {
        most == 0
    } else {
        1 <= least && most <= MAX_POSITION
    }
}

/// Whether all scores are of the block's kind.
pub fn are_scores(scores: &[u8], facet: bool, weights: Weights) -> bool
    ensures { result ≡ true → AreScores weights facet scores.now }
{
    if facet {
        are_either(scores, weights.facet, weights.facet)
    } else {
        are_either(scores, weights.title, weights.text)
    }
}

// Whether each byte is one of two.
fn are_either(bytes: &[u8], a: u8, b: u8) -> bool
    ensures { result ≡ true → (j : ℕ) → j < length bytes.now → (slice_index_or bytes.now j 0 == a || slice_index_or bytes.now j 0 == b) ≡ true }
{
    let mut holds = true;
    for i in 0..bytes.len() {
        holds &= is_either(bytes[i], a, b);
    }
    holds
}

#[inline]
fn is_either(byte: u8, a: u8, b: u8) -> bool
    ensures { result ≡ (byte == a || byte == b) }
{
    (byte == a) | (byte == b)
}

/// Whether each row comes behind the one before it, where no document is below the one before it.
pub fn are_ascending(docs: &[u32], words: &[u32], positions: &[u32]) -> bool
    requires onward { AreOnward docs.now }
    requires words { length words.now ≡ length docs.now }
    requires positions { length positions.now ≡ length docs.now }

    ensures { result ≡ true → AreAscending docs.now words.now positions.now }
{
    let mut holds = true;
    for i in 1..docs.len() {
        holds &= is_later(
            docs[i - 1],
            positions[i - 1],
            words[i - 1],
            docs[i],
            positions[i],
            words[i],
        );
    }
    holds
}

// Whether a row comes behind another by document, position and word, where its document is not below the other's.
#[inline]
fn is_later(doc: u32, pos: u32, word: u32, next_doc: u32, next_pos: u32, next_word: u32) -> bool
    requires { doc ≤ next_doc }

    ensures { result ≡ is_lt (by_place (record { doc = doc; word = word; pos = pos; score = 0 })
        (record { doc = next_doc; word = next_word; pos = next_pos; score = 0 })) }
{
    (doc < next_doc) | (pos < next_pos) | ((pos == next_pos) & (word < next_word))
}
