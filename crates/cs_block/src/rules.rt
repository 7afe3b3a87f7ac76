//! The tests that a row has to pass, other than that of its document.
ghost use Rattle.std.specs.Prelude.{◌≡◌, ◌+◌, ◌≤◌, ◌&&◌, nat_lt};
ghost use Rattle.cs_base.specs.declared.content.limits.TheConstants.{MAX_WORDS};
ghost use Rattle.cs_model_index.specs.BlockRules.{is_after, is_scored};

use cs_base::{BlockHead, MAX_POSITION, Post, Weights};

/// Whether a row keeps all of them.
#[inline]
pub fn keeps_rules(head: &BlockHead, weights: Weights, last: Option<Post>, row: Post) -> bool
    requires words { head.now.lo + head.now.words ≤ MAX_WORDS }

    ensures { result ≡ (nat_lt row.word (head.now.lo + head.now.words) && (is_scored weights head.now.facet row && is_after last row)) }
{
    is_in_words(head, row) && is_scored(head.facet, weights, row) && is_after(last, row)
}

/// Whether the row's word is one of the block's, where it isn't before the first of them.
#[inline]
pub fn is_in_words(head: &BlockHead, row: Post) -> bool
    requires words { head.now.lo + head.now.words ≤ MAX_WORDS }

    ensures { result ≡ nat_lt row.word (head.now.lo + head.now.words) }
{
    row.word < head.lo + head.words
}

/// Whether the position and the score are those of a facet word, or of any other word.
#[inline]
pub fn is_scored(facet: bool, weights: Weights, row: Post) -> bool
    ensures { result ≡ is_scored weights facet row }
{
    if facet {
        row.pos == 0 && row.score == weights.facet
    } else {
        1 <= row.pos
            && row.pos <= MAX_POSITION
            && (row.score == weights.title || row.score == weights.text)
    }
}

/// Whether the row comes behind the one before it, if there is one.
#[inline]
pub fn is_after(last: Option<Post>, row: Post) -> bool
    ensures { result ≡ is_after last row }
{
    match last {
        None => true,
        Some(p) => p.is_before(row),
    }
}
