//! What a change asks of a state.
ghost use Rattle.std.specs.Prelude.{◌≡◌, ◌≤◌, ◌++◌, false, length, nat_le, slice_index_or, IfOk};
ghost use Rattle.cs_base.specs.declared.content.limits.TheConstants.{MAX_DOCS, MAX_ROWS, MAX_WORDS};
ghost use Rattle.cs_model.specs.Weights.{AreWeights};
ghost use Rattle.cs_live.specs.Settling.{HaveWordSize, words_met};

use crate::adding::words_fit;
use crate::state::State;
use cs_base::{Memory, Row, Weights};
use std::alloc::Global;

/// Whether a number is that of a document.
pub(crate) fn is_present(state: &State, doc: u32) -> bool
    ensures { result ≡ slice_index_or state.now.present doc false }
{
    is_set(&state.present, doc)
}

/// Whether a number is that of a document, by the list of which ones are.
pub(crate) fn is_set(present: &[bool], doc: u32) -> bool
    ensures { result ≡ slice_index_or present.now doc false }
{
    match present.get(doc as usize) {
        Some(is) => *is,
        None => false,
    }
}

/// The number that the next document gets.
pub(crate) fn numbers_given(state: &State) -> u32
    ensures number { result ≡ length state.now.present }
    ensures few { result ≤ MAX_DOCS }
{
    state.present.len() as u32
}

/// What rows count for.
pub(crate) fn index_weights(state: &State) -> Weights
    ensures is { result ≡ state.now.index.weights }
    ensures scored { AreWeights result }
{
    state.index.weights
}

/// Whether the words of a state, with those of rows, are few enough for a vocabulary.
pub(crate) fn has_room(
    alloc: Global,
    state: &State,
    rows: &[Row],
    own: &[Row],
) -> Result<bool, Memory>
    requires row_sized { HaveWordSize rows.now }
    requires own_sized { HaveWordSize own.now }
    requires few { length rows.now ≤ MAX_ROWS }
    requires few_own { length own.now ≤ MAX_ROWS }
    requires few_words { length (words_met state.now.words rows.now) ≤ MAX_WORDS }

    ensures { IfOk result (λ b. b ≡ nat_le (length (words_met state.now.words (rows.now ++ own.now))) MAX_WORDS) }
{
    words_fit(alloc, &state.words, rows, own)
}
