//! The words of a vocabulary, parted into runs.
ghost use Rattle.std.specs.Prelude.{◌≡◌, ◌+◌, ◌≤◌, ◌<◌, ◌||◌, not, length, slice_index_or, IfOk};
ghost use Rattle.std.specs.List.{All, position_or_len};
ghost use Rattle.cs_base.specs.declared.content.limits.TheConstants.{MAX_ROWS};
ghost use Rattle.cs_model.specs.Collection.{is_colon};
ghost use Rattle.cs_vocab.specs.Ranges.{IsBelow};
ghost use Rattle.cs_model_index.specs.Numbered.{word_at};
ghost use Rattle.cs_model_index.specs.Partitions.{Count, is_alike, is_facet, kind_of, is_full};
ghost use Rattle.cs_model_index.specs.declared.limits.TheConstants.{MAX_TARGET};
ghost use Rattle.cs_build.specs.WordRuns.{AreCounts, AreParted, AreCountsBy};

use cs_base::Memory;
use cs_model_index::MAX_BLOCK_WORDS;
use cs_vocab::Vocab;
use std::alloc::Global;

/// Words one behind the other, and how many rows they have.
#[derive(Clone, Copy, Debug)]
pub(crate) struct Run {
    /// The number of its first word.
    pub(crate) lo: u32,
    /// How many words it has.
    pub(crate) words: u32,
    /// How many rows they have together.
    pub(crate) rows: u32,
}

/// How often each number below `words` stands among some.
pub(crate) fn counts_of(alloc: Global, words: u32, numbers: &[u32]) -> Result<Vec<u32>, Memory>
    requires below { All (IsBelow words) numbers.now }
    requires few { length numbers.now ≤ MAX_ROWS }

    ensures { IfOk result (λ counts. AreCounts words numbers.now counts.items) }
{
    let mut counts: Vec<u32> = vec![in alloc; 0; words as usize]?;
    for number in numbers {
        counts[*number as usize] += 1;
    }
    Ok(counts)
}

/// The words parted into runs, each as long as it may be, where `counts` says how many rows a word has.
pub(crate) fn parted(
    alloc: Global,
    words: &Vocab,
    counts: &[u32],
    target: u32,
) -> Result<Vec<Run>, Memory>
    requires each { length counts.now ≡ length words.now }
    requires target { target ≤ MAX_TARGET }

    // whatever count has these values at the words
    ensures { IfOk result (λ runs. (count : Count) → AreCountsBy words.now counts.now count → AreParted target words.now count runs.items) }
{
    let mut runs = Vec::new(alloc);
    if counts.is_empty() {
        return Ok(runs);
    }
    let mut run = one_word(counts, 0);
    for n in 1..words.len() {
        if has_room(words, counts, target, &run, n) {
            run.words += 1;
            run.rows += counts[n as usize];
        } else {
            runs.push(run)?;
            run = one_word(counts, n);
        }
    }
    runs.push(run)?;
    Ok(runs)
}

// The run of the word `n` alone.
fn one_word(counts: &[u32], n: u32) -> Run
    requires { n < length counts.now }

    ensures { result ≡ record { lo = n; words = 1; rows = slice_index_or counts.now n 0 } }
{
    Run {
        lo: n,
        words: 1,
        rows: counts[n as usize],
    }
}

// Whether a run has room for the word `n`.
fn has_room(words: &Vocab, counts: &[u32], target: u32, run: &Run, n: u32) -> bool
    requires lo { run.now.lo < length words.now }
    requires here { n < length words.now }
    requires each { length counts.now ≡ length words.now }

    ensures { result ≡ not (not (is_alike (word_at words.now run.now.lo) (word_at words.now n)) || is_full target run.now.words (run.now.rows + slice_index_or counts.now n 0)) }
{
    are_alike(words.word(run.lo), words.word(n))
        && run.words < MAX_BLOCK_WORDS
        && run.rows <= target
        && counts[n as usize] <= target - run.rows
}

// Whether two words are of one kind.
fn are_alike(v: &[u8], w: &[u8]) -> bool
    ensures { result ≡ is_alike v.now w.now }
{
    kind(v) == kind(w)
}

// The facet name that a word stands under, with its leading colon; of a plain word nothing.
fn kind(word: &[u8]) -> &[u8]
    ensures { result.now ≡ kind_of word.now }
{
    if !begins_as_facet(word) {
        return &[];
    }
    &word[..1 + colon_in(&word[1..])]
}

// The place of the first colon, or the end.
fn colon_in(text: &[u8]) -> usize
    ensures value { result ≡ position_or_len is_colon text.now }
    ensures within { result ≤ length text.now }
{
    match text.iter().position(|&b| b == b':') {
        Some(i) => i,
        None => text.len(),
    }
}

/// Whether a word is that of a facet.
pub(crate) fn begins_as_facet(word: &[u8]) -> bool
    ensures { result ≡ is_facet word.now }
{
    word.first() == Some(&b':')
}
