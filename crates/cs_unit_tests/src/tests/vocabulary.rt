//! What no clause says: that the calls succeed where there is memory, on a vocabulary as readers know it.
use crate::tests::rows::same;
use cs_base::{MAX_ROWS, Memory, Row, Seq, Word};
use cs_vocab::{Numbered, Vocab};
use std::alloc::Global;
use std::test::Fail;

// Rows of words that stand between spaces.
fn rows_of(alloc: Global, text: &[u8]) -> Result<Seq<Row>, Memory> {
    let mut rows = Seq::new(alloc);
    for word in text.split(|b| *b == b' ') {
        if !word.is_empty() && word.len() < 100 {
            rows.push(Row {
                doc: 0,
                word: Word::new(alloc, word)?,
                pos: 1,
                score: 4,
            })?;
        }
    }
    Ok(rows)
}

// Words of rows, some twice: their order, and the ranges of some prefixes.
const RANGES: &[(&[u8], (u32, u32))] = &[
    (b"typ", (2, 5)),
    (b"types", (4, 5)),
    (b":k:", (0, 1)),
    (b"", (0, 5)),
];

#[test]
fn the_words_of_a_prefix_are_one_range(rt: HostRuntime) -> Result<(), Fail> {
    let vocab = vocab_of(rt.alloc(), b"type less :k:v types type typed")?;
    let listed = listed(rt.alloc(), &vocab)?;
    same(
        &rt,
        &listed.as_slice(),
        &b":k:v less type typed types ".as_slice(),
        "listed",
    );
    for (prefix, want) in RANGES {
        same(&rt, &vocab.range(prefix), want, *prefix);
    }
    for n in 0..vocab.len() {
        same(&rt, &vocab.find(vocab.word(n)), &Some(n), n);
    }
    same(&rt, &vocab.find(b"typ"), &None, "typ");
    Ok(())
}

// The words of rows; none where there are too many rows.
fn vocab_of(alloc: Global, text: &[u8]) -> Result<Vocab, Memory> {
    let rows = rows_of(alloc, text)?;
    if rows.len() <= MAX_ROWS {
        Vocab::of(alloc, &rows)
    } else {
        Err(Memory)
    }
}

// The words with a space behind each.
fn listed(alloc: Global, vocab: &Vocab) -> Result<Vec<u8>, Memory> {
    let mut listed = Vec::new(alloc);
    for n in 0..vocab.len() {
        listed.extend_from_slice(vocab.word(n))?;
        listed.push(b' ')?;
    }
    Ok(listed)
}

// Words that come again and again: 1 and 2 is what the listing of a, b and c says of b and c.
const NUMBERS: &[u32] = &[1, 0, 2, 0, 1, 1, 2, 0];

#[test]
fn each_row_has_the_number_of_its_word(rt: HostRuntime) -> Result<(), Fail> {
    let rows = rows_of(rt.alloc(), b"b a c a b b c a")?;
    assert!(rt; rows.len() <= MAX_ROWS);
    let numbered = Numbered::of(rt.alloc(), &rows)?;
    same(&rt, &numbered.words.len(), &3, "words");
    same(&rt, &numbered.numbers.as_slice(), &NUMBERS, "numbers");
    Ok(())
}
