//! The words of rows as numbers.
ghost use Rattle.std.specs.Prelude.{◌≡◌, ◌≤◌, true, IfOk, length, map, slice_index};
ghost use Rattle.std.specs.List.{All, list_any};
ghost use Rattle.std.specs.Ordering.{nat_cmp};
ghost use Rattle.std.specs.Cmp.Lexicographic.{slice_cmp};
ghost use Rattle.std.specs.Str.{bytes_eq};
ghost use Rattle.cs_base.specs.content.Members.{members_in};
ghost use Rattle.cs_model.specs.Corpus.{distinct_words};
ghost use Rattle.cs_vocab.specs.Gathering.{IsGathering, gathered};
ghost use Rattle.cs_vocab.specs.Ranges.{IsBelow, IsWordAt, AreNumbers};

use crate::gathering::{Gathering, gather};
use crate::vocab::{Vocab, listing};
use cs_base::{MAX_ROWS, Memory, Row, Seq, Word};
use std::alloc::Global;

/// Distinct words, and the numbers of words among them.
#[derive(Debug, Drop)]
pub struct Numbered {
    /// The distinct words.
    pub words: Vocab,
    /// The numbers, word by word.
    pub numbers: Seq<u32>,
}

impl Numbered {
    /// The distinct words of rows, and the number of each row's word among them.
    pub fn of(alloc: Global, rows: &Seq<Row>) -> Result<Numbered, Memory>
        requires few { length rows.now ≤ MAX_ROWS }

        ensures words { IfOk result (λ n. n.words ≡ distinct_words rows.now) }
        ensures numbers { IfOk result (λ n. AreNumbers n.words n.numbers (map (λ r. r.word) rows.now)) }
    {
        let gathering = gather(alloc, rows.as_slice())?;
        Numbered::gathered(alloc, gathering)
    }

    /// The distinct words that were gathered, and the number of each word that came among them.
    pub fn gathered(alloc: Global, gathering: Gathering) -> Result<Numbered, Memory>
        requires is { IsGathering gathering }
        requires few { length (gathered gathering) ≤ MAX_ROWS }

        ensures words { IfOk result (λ n. n.words ≡ members_in (slice_cmp nat_cmp) (gathered gathering)) }
        ensures numbers { IfOk result (λ n. AreNumbers n.words n.numbers (gathered gathering)) }
    {
        let Gathering {
            words: kept,
            mut indices,
            slots: _,
        } = gathering;
        let (words, likely) = listing(alloc, kept.as_slice())?;
        let known = numbers_of(alloc, &words, kept.as_slice(), likely.as_slice())?;
        look_up(known.as_slice(), &mut indices);
        Ok(Numbered {
            words,
            numbers: Seq::from_vec(indices),
        })
    }
}

// The numbers of words whose listing the vocabulary is. Where the number that is told of a word isn't right, it is sought.
fn numbers_of(
    alloc: Global,
    words: &Vocab,
    gathered: &[Word],
    likely: &[u32],
) -> Result<Vec<u32>, Memory>
    requires { words.now ≡ members_in (slice_cmp nat_cmp) gathered.now }

    ensures { IfOk result (λ v. AreNumbers words.now v.items gathered.now) }
{
    let mut numbers = Vec::with_capacity(alloc, gathered.len())?;
    for (i, word) in gathered.iter().enumerate() {
        numbers.push(number_of(words, word, likely.get(i)))?;
    }
    Ok(numbers)
}

fn number_of(words: &Vocab, word: &Word, likely: Option<&u32>) -> u32
    requires { list_any (bytes_eq word.now) words.now ≡ true }

    ensures { IsWordAt words.now result word.now }
{
    if let Some(n) = likely
        && *n < words.len()
        && words.word(*n) == word.bytes()
    {
        return *n;
    }
    match words.find(word.bytes()) {
        Some(n) => n,
        None => unreachable!(),
    }
}

// Puts in the place of each index the number that stands there.
fn look_up(numbers: &[u32], indices: &mut [u32])
    requires { All (IsBelow (length numbers.now)) indices.old }

    ensures { indices.new ≡ map (slice_index numbers.now) indices.old }
{
    for i in 0..indices.len() {
        indices[i] = numbers[indices[i] as usize];
    }
}
