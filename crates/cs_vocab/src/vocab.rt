//! Words in order.
ghost use Rattle.std.specs.Prelude.{◌≡◌, ◌≤◌, ◌<◌, false, [], length, slice_index_or, IfOk, IfSome, IfNone};
ghost use Rattle.std.specs.List.{list_any};
ghost use Rattle.std.specs.List.Sorted.{IsStrictlySortedBy};
ghost use Rattle.std.specs.Ordering.{nat_cmp, is_lt};
ghost use Rattle.std.specs.Cmp.Lexicographic.{slice_cmp};
ghost use Rattle.std.specs.Str.{bytes_eq};
ghost use Rattle.cs_base.specs.content.Members.{members_in};
ghost use Rattle.cs_model.specs.Answers.{begins};
ghost use Rattle.cs_model.specs.Corpus.{distinct_words};
ghost use Rattle.cs_vocab.specs.Ranges.{IsVocab, IsWordAt, IsRange, IsSplitBefore};

use crate::gathering::gather;
use crate::sorting::Sorting;
use cs_base::{MAX_ROWS, Memory, Row, Seq, Word};
use std::alloc::Global;
use std::marker::Model;

/// Words that strictly ascend by bytes, which contracts see as their list. There are at most
/// `MAX_ROWS` of them, and each has its place in the list as number.
#[derive(Debug, Drop)]
pub struct Vocab {
    words: Seq<Word>,
}

impl Model for Vocab {
    ghost use Rattle.std.specs.Prelude.{List, ℕ};
    ghost use Rattle.cs_vocab.specs.Ranges.{IsVocab};

    ghost Value = { List (List ℕ) };

    ghost view = { λ v. v.words };

    ghost invariant = { λ v. IsVocab v.words };
}

impl Vocab {
    /// The distinct words of rows.
    pub fn of(alloc: Global, rows: &Seq<Row>) -> Result<Vocab, Memory>
        requires few { length rows.now ≤ MAX_ROWS }

        ensures ok { IfOk result (λ v. v ≡ distinct_words rows.now) }
    {
        let gathered = gather(alloc, rows.as_slice())?;
        let (words, _) = listing(alloc, gathered.words.as_slice())?;
        Ok(words)
    }

    /// The vocabulary of words that ascend already.
    pub fn from_words(words: Seq<Word>) -> Vocab
        requires ascending { IsStrictlySortedBy (slice_cmp nat_cmp) words }
        requires few { length words ≤ MAX_ROWS }

        ensures { result ≡ words }
    {
        Vocab { words }
    }

    /// The same vocabulary once more.
    pub fn copy(&self, alloc: Global) -> Result<Vocab, Memory>
        ensures ok { IfOk result (λ v. v ≡ self.now) }
    {
        let words = copied(alloc, self.words.as_slice())?;
        Ok(Vocab {
            words: Seq::from_vec(words),
        })
    }

    /// The words, in their order.
    pub fn as_slice(&self) -> &[Word]
        ensures { result.now ≡ self.now }
    {
        self.words.as_slice()
    }

    /// How many words it has.
    pub fn len(&self) -> u32
        ensures value { result ≡ length self.now }
        ensures few { length self.now ≤ MAX_ROWS }
        ensures sorted { IsStrictlySortedBy (slice_cmp nat_cmp) self.now }
    {
        self.words.len() as u32
    }

    /// The bytes of word `n`.
    pub fn word(&self, n: u32) -> &[u8]
        requires in_range { n < length self.now }

        ensures { IsWordAt self.now n result.now }
    {
        self.words.as_slice()[n as usize].bytes()
    }

    /// How many bytes word `n` has.
    pub fn word_len(&self, n: u32) -> u8
        requires in_range { n < length self.now }

        ensures { result ≡ length (slice_index_or self.now n []) }
    {
        let words = self.words.as_slice();
        words[n as usize].bytes().len() as u8
    }

    /// The number of the word `w`, if it is one of these.
    pub fn find(&self, w: &[u8]) -> Option<u32>
        ensures found { IfSome result (λ n. IsWordAt self.now n w.now) }
        ensures absent { IfNone result (list_any (bytes_eq w.now) self.now ≡ false) }
    {
        let words = self.words.as_slice();
        let n = first_from(words, w);
        match words.get(n) {
            Some(word) if word.bytes() == w => Some(n as u32),
            _ => None,
        }
    }

    /// The words that begin with `p`: from the first number up to the second, which is left out.
    pub fn range(&self, p: &[u8]) -> (u32, u32)
        ensures { IsRange self.now p.now result.0 result.1 }
    {
        let words = self.words.as_slice();
        let lo = first_from(words, p);
        let count = words[lo..].partition_point(|word| begins_with(word, p));
        (lo as u32, (lo + count) as u32)
    }
}

fn copied(alloc: Global, words: &[Word]) -> Result<Vec<Word>, Memory>
    ensures { IfOk result (λ v. v.items ≡ words.now) }
{
    let mut all = Vec::with_capacity(alloc, words.len())?;
    for word in words {
        all.push(word.copy(alloc)?)?;
    }
    Ok(all)
}

/// The vocabulary of words of which some may stand more than once, and a number for each of them in the order in which they came. Of the
/// numbers, which are those of the words, contracts say nothing: who uses one looks whether it is right.
pub(crate) fn listing(alloc: Global, gathered: &[Word]) -> Result<(Vocab, Vec<u32>), Memory>
    requires few { length gathered.now ≤ MAX_ROWS }

    ensures ok { IfOk result (λ r. r.0 ≡ members_in (slice_cmp nat_cmp) gathered.now) }
{
    let mut sorted = Vec::with_capacity(alloc, gathered.len())?;
    for (place, word) in gathered.iter().enumerate() {
        sorted.push(Sorting::new(word, place as u32))?;
    }
    sorted.sort()?;
    let numbers = numbers_in(alloc, sorted.as_slice())?;
    sorted.dedup();
    let mut words = Vec::with_capacity(alloc, sorted.len())?;
    for sorting in &sorted {
        words.push(sorting.word().copy(alloc)?)?;
    }
    let vocab = Vocab {
        words: Seq::from_vec(words),
    };
    Ok((vocab, numbers))
}

// The numbers of sorted words among the different ones, each at the place at which its word came.
fn numbers_in(alloc: Global, sorted: &[Sorting<'_>]) -> Result<Vec<u32>, Memory> {
    let mut numbers = vec![in alloc; 0; sorted.len()]?;
    let mut number = 0u32;
    for (i, sorting) in sorted.iter().enumerate() {
        if i > 0 && *sorting != sorted[i - 1] {
            number = number.wrapping_add(1);
        }
        if let Some(there) = numbers.get_mut(sorting.place() as usize) {
            *there = number;
        }
    }
    Ok(numbers)
}

// How many of the words stand before `p`.
fn first_from(words: &[Word], p: &[u8]) -> usize
    requires { IsStrictlySortedBy (slice_cmp nat_cmp) words.now }

    ensures bound { result ≤ length words.now }
    ensures split { IsSplitBefore words.now p.now result }
{
    words.partition_point(|word| is_below(word, p))
}

fn is_below(word: &Word, p: &[u8]) -> bool
    ensures { result ≡ is_lt (slice_cmp nat_cmp word.now p.now) }
{
    word.bytes().cmp(p).is_lt()
}

fn begins_with(word: &Word, p: &[u8]) -> bool
    ensures { result ≡ begins p.now word.now }
{
    word.bytes().starts_with(p)
}
