//! The kinds of words: plain, or under one facet name.
ghost use Rattle.std.specs.Prelude.{◌≡◌, drop, take};
ghost use Rattle.std.specs.List.{list_all};
ghost use Rattle.cs_model_index.specs.FileRules.{is_of_one_kind};
ghost use Rattle.cs_model_index.specs.Numbered.{word_at};
ghost use Rattle.cs_model_index.specs.Partitions.{is_alike, is_facet, is_one_kind, kind_of};

use cs_base::{BlockHead, Word};
use cs_model_index::MAX_BLOCK_WORDS;

/// Whether a block has few words, all of one kind.
pub(crate) fn is_of_one_kind(words: &[Word], head: &BlockHead) -> bool
    ensures { result ≡ is_of_one_kind words.now head.now }
{
    head.words <= MAX_BLOCK_WORDS && is_one_kind(run_of(words, head.lo, head.words))
}

/// Whether word `n` is there and is a facet word.
pub(crate) fn has_facet(words: &[Word], n: u32) -> bool
    ensures { result ≡ is_facet (word_at words.now n) }
{
    match words.get(n as usize) {
        Some(word) => is_facet(word.bytes()),
        None => false,
    }
}

/// Whether words `n` and `m` are of one kind; a word that isn't there counts as a plain one.
pub(crate) fn are_alike(words: &[Word], n: u32, m: u32) -> bool
    ensures { result ≡ is_alike (word_at words.now n) (word_at words.now m) }
{
    is_alike(bytes_at(words, n), bytes_at(words, m))
}

fn bytes_at(words: &[Word], n: u32) -> &[u8]
    ensures { result.now ≡ word_at words.now n }
{
    match words.get(n as usize) {
        Some(word) => word.bytes(),
        None => &[],
    }
}

// The words from number `lo` on, at most so many.
fn run_of(words: &[Word], lo: u32, count: u32) -> &[Word]
    ensures { result.now ≡ take count (drop lo words.now) }
{
    let rest = &words[(lo as usize).min(words.len())..];
    &rest[..(count as usize).min(rest.len())]
}

fn is_one_kind(run: &[Word]) -> bool
    ensures { result ≡ is_one_kind run.now }
{
    match run.first() {
        Some(first) => are_like(run, first),
        None => true,
    }
}

fn are_like(run: &[Word], first: &Word) -> bool
    ensures { result ≡ list_all (is_alike first.now) run.now }
{
    for word in run {
        if !is_alike(first.bytes(), word.bytes()) {
            return false;
        }
    }
    true
}

fn is_alike(word: &[u8], other: &[u8]) -> bool
    ensures { result ≡ is_alike word.now other.now }
{
    kind_of(word) == kind_of(other)
}

fn is_facet(word: &[u8]) -> bool
    ensures { result ≡ is_facet word.now }
{
    match word.first() {
        Some(b) => *b == b':',
        None => false,
    }
}

// The facet name that a word stands under, with its leading colon; of a plain word nothing.
fn kind_of(word: &[u8]) -> &[u8]
    ensures { result.now ≡ kind_of word.now }
{
    if !is_facet(word) {
        return &[];
    }
    let mut end = 1;
    while end < word.len() && word[end] != b':' {
        end += 1;
    }
    &word[..end]
}
