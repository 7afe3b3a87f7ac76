//! Words in a table.
ghost use Rattle.std.specs.Prelude.{◌≡◌, ℕ, ◌+◌, ◌<◌, ◌≤◌, length, slice_index, slice_index_or, false, IfOk};
ghost use Rattle.cs_join.specs.Marked.{AreMarksOf, is_marked};

use cs_base::Memory;
use std::alloc::Global;

/// A table with a place for each word's number from the least of some words to the greatest.
#[derive(Drop)]
pub(crate) struct Marks {
    pub(crate) least: u32,
    /// Whether the word this far above the least is one of them.
    pub(crate) marks: Vec<bool>,
}

impl Marks {
    /// The marks of these words, each of which may stand more than once.
    pub(crate) fn of(alloc: Global, words: &[u32]) -> Result<Marks, Memory>
        ensures { IfOk result (λ m. AreMarksOf words.now m.least m.marks.items) }
    {
        let (least, span) = span_of(words);
        let mut marks = vec![in alloc; false; span]?;
        for word in words {
            marks[(*word - least) as usize] = true;
        }
        Ok(Marks { least, marks })
    }

    /// Whether the word is one of them.
    #[inline]
    pub(crate) fn has(&self, word: u32) -> bool
        ensures { result ≡ is_marked self.now.least self.now.marks.items word }
    {
        word >= self.least && is_set(self.marks.as_slice(), (word - self.least) as usize)
    }
}

#[inline]
fn is_set(marks: &[bool], at: usize) -> bool
    ensures { result ≡ slice_index_or marks.now at false }
{
    at < marks.len() && marks[at]
}

// The least of some words, and how many numbers there are from it to the greatest.
fn span_of(words: &[u32]) -> (u32, usize)
    ensures least { (k : ℕ) → k < length words.now → result.0 ≤ slice_index words.now k }
    ensures above { (k : ℕ) → k < length words.now → slice_index words.now k < result.0 + result.1 }
{
    if words.is_empty() {
        return (0, 0);
    }
    let mut least = words[0];
    let mut greatest = words[0];
    for word in words {
        least = least.min(*word);
        greatest = greatest.max(*word);
    }
    (least, (greatest - least) as usize + 1)
}
