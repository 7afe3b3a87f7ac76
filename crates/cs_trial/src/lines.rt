//! The collection of a trial.
ghost use Rattle.std.specs.Prelude.{◌≡◌, ◌≤◌, ◌+◌, ◌*◌, ◌++◌, length, replicate, IfOk, OnOk, None};
ghost use Rattle.std.specs.Vec.{vec_len, vec_capacity};
ghost use Rattle.cs_base.specs.declared.content.limits.TheConstants.{MAX_TRIAL};
ghost use Rattle.cs_model.specs.Corpus.{refusal};
ghost use Rattle.cs_model_trial.specs.Generator.{behind, collection, draws, line_bounds, spaced, trial_line};
ghost use Rattle.cs_model_trial.specs.declared.sizes.TheConstants.{WORDS};
ghost use Rattle.cs_trial.specs.declared.lines.TheConstants.{LINE_BYTES, PLACE_BYTES};

use crate::draws::Draws;
use crate::syllables::{SYLLABLE_BYTES, WORD_BYTES, with_syllable, with_word_of};
use cs_base::Memory;
use cs_model_trial::{LINES, SYLLABLES, TEXT_WORDS, TITLE_WORDS, WORDS};
use std::alloc::Global;

// the bytes of a word with what stands behind it
const PLACE_BYTES: u32 = WORD_BYTES + 1;

// the bytes of a line
const LINE_BYTES: u32 = PLACE_BYTES * (TITLE_WORDS + TEXT_WORDS)
    + KIND.len() as u32
    + SYLLABLE_BYTES;

// what stands between the title and the syllable of the facet
const KIND: &[u8] = b"\tkind=";

/// The collection of trial `n`, in memory that is asked for once.
pub fn collection(alloc: Global, n: u32) -> Result<Vec<u8>, Memory>
    requires { n ≤ MAX_TRIAL }

    ensures bytes { IfOk result (λ bytes. bytes.items ≡ collection n) }
    // It is accepted: it breaks no rule and no limit of collections.
    ensures accepted { OnOk result (refusal (collection n) ≡ None) }
{
    let lines = LINES * n;
    let mut bytes = Vec::with_capacity(alloc, (LINE_BYTES * lines) as usize)?;
    let mut numbers = Draws::behind(n, 0);
    for _ in 0..lines {
        bytes = with_line(bytes, &mut numbers);
    }
    Ok(bytes)
}

// Bytes with the line of the next draws behind them.
fn with_line(bytes: Vec<u8>, numbers: &mut Draws) -> Vec<u8>
    requires room { vec_len bytes + LINE_BYTES ≤ vec_capacity bytes }

    ensures bytes { result.items ≡ bytes.items ++ trial_line (draws line_bounds numbers.old.state) }
    ensures state { numbers.new.state ≡ behind (length line_bounds) numbers.old.state }
    ensures len { vec_len result ≡ vec_len bytes + LINE_BYTES }
    ensures capacity { vec_capacity result ≡ vec_capacity bytes }
{
    let mut line = with_words(bytes, numbers, TITLE_WORDS);
    for byte in KIND {
        line.push_reserved(*byte);
    }
    line = with_syllable(line, numbers.below(SYLLABLES));
    line.push_reserved(b'\t');
    line = with_words(line, numbers, TEXT_WORDS);
    line.push_reserved(b'\n');
    line
}

// Bytes with the words of the next draws behind them, and a space between each two.
fn with_words(bytes: Vec<u8>, numbers: &mut Draws, count: u32) -> Vec<u8>
    requires some { 1 ≤ count }
    requires room { vec_len bytes + PLACE_BYTES * count ≤ vec_capacity bytes + 1 }

    ensures bytes { result.items ≡ bytes.items ++ spaced (draws (replicate count WORDS) numbers.old.state) }
    ensures state { numbers.new.state ≡ behind count numbers.old.state }
    ensures len { vec_len result + 1 ≡ vec_len bytes + PLACE_BYTES * count }
    ensures capacity { vec_capacity result ≡ vec_capacity bytes }
{
    let mut words = with_word_of(bytes, numbers.below(WORDS));
    for _ in 1..count {
        words.push_reserved(b' ');
        words = with_word_of(words, numbers.below(WORDS));
    }
    words
}
