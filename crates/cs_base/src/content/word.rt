//! Words, as they stand in rows and in the vocabulary.
ghost use Rattle.std.specs.Prelude.{◌≡◌, ◌≤◌, length, IfOk};
ghost use Rattle.std.proofs.Common.{rules};
ghost use Rattle.std.specs.Str.{bytes_eq};
ghost use Rattle.std.specs.Ordering.{nat_cmp, as_partial_cmp};
ghost use Rattle.std.specs.Cmp.{partial_order_from_own_ties};
ghost use Rattle.std.specs.Cmp.Lexicographic.{slice_cmp};
ghost use Rattle.std.specs.Cmp.Rules.{comparing};

use crate::{MAX_WORD_BYTES, Memory};
use std::alloc::Global;
use std::cmp::Ordering;
use std::marker::Model;

// The most bytes of a word that takes no memory of its own. With the count and the form they make 24 bytes.
const SHORT_BYTES: usize = 22;

/// A word, which contracts see as its bytes. There are from 1 to `MAX_WORD_BYTES` of them.
///
/// Words are ordered by their bytes. One of few bytes takes no memory of its own.
#[derive(Debug, Drop)]
pub struct Word {
    form: WordForm,
}

// How a word keeps its bytes.
#[derive(Debug, Drop)]
enum WordForm {
    // The first `len` of these.
    InPlace { len: u8, bytes: [u8; SHORT_BYTES] },
    // All of these.
    Apart(Box<Vec<u8>>),
}

impl Model for Word {
    ghost use Rattle.std.specs.Prelude.{List, ℕ};
    ghost use Rattle.cs_base.specs.content.WordForms.{bytes_in, IsForm};

    ghost Value = { List ℕ };

    ghost view = { λ w. bytes_in w.form };

    ghost invariant = { λ w. IsForm w.form };
}

impl Word {
    /// The word of these bytes.
    pub fn new(alloc: Global, bytes: &[u8]) -> Result<Word, Memory>
        requires some { 1 ≤ length bytes.now }
        requires few { length bytes.now ≤ MAX_WORD_BYTES }

        ensures ok { IfOk result (λ w. w ≡ bytes.now) }
    {
        if bytes.len() <= SHORT_BYTES {
            return Ok(in_place(bytes));
        }
        let word = apart(alloc, bytes)?;
        Ok(word)
    }

    /// Its bytes.
    #[inline]
    pub fn bytes(&self) -> &[u8]
        ensures value { result.now ≡ self.now }
        ensures some { 1 ≤ length self.now }
        ensures few { length self.now ≤ MAX_WORD_BYTES }
    {
        match &self.form {
            WordForm::InPlace { len, bytes } => &bytes[..*len as usize],
            WordForm::Apart(bytes) => bytes.as_slice(),
        }
    }

    /// The same word once more.
    pub fn copy(&self, alloc: Global) -> Result<Word, Memory>
        ensures ok { IfOk result (λ w. w ≡ self.now) }
    {
        Word::new(alloc, self.bytes())
    }
}

impl PartialEq for Word {
    ghost eq = { bytes_eq };

    ghost laws = { Prim.search (comparing, rules) };

    fn eq(&self, other: &Word) -> bool {
        self.bytes() == other.bytes()
    }
}

impl Eq for Word {
    ghost laws = { Prim.search (comparing, rules) };
}

impl PartialOrd for Word {
    ghost partial_cmp = { as_partial_cmp (slice_cmp nat_cmp) };

    ghost laws = { partial_order_from_own_ties (Prim.search (comparing, rules)) (Prim.search (comparing, rules)) };

    fn partial_cmp(&self, other: &Word) -> Option<Ordering> {
        Some(self.cmp(other))
    }
}

impl Ord for Word {
    ghost cmp = { slice_cmp nat_cmp };

    ghost total = { Prim.search (comparing, rules) };

    ghost matches_partial_cmp = { Prim.search (comparing, rules) };

    ghost matches_eq = { Prim.search (comparing, rules) };

    fn cmp(&self, other: &Word) -> Ordering {
        self.bytes().cmp(other.bytes())
    }
}

fn in_place(bytes: &[u8]) -> Word
    requires some { 1 ≤ length bytes.now }
    requires few { length bytes.now ≤ SHORT_BYTES }

    ensures { result ≡ bytes.now }
{
    let mut kept = [0; SHORT_BYTES];
    kept[..bytes.len()].copy_from_slice(bytes);
    Word {
        form: WordForm::InPlace {
            len: bytes.len() as u8,
            bytes: kept,
        },
    }
}

fn apart(alloc: Global, bytes: &[u8]) -> Result<Word, Memory>
    requires some { 1 ≤ length bytes.now }
    requires few { length bytes.now ≤ MAX_WORD_BYTES }

    ensures ok { IfOk result (λ w. w ≡ bytes.now) }
{
    let kept = Vec::from_slice(alloc, bytes)?;
    match Box::new(alloc, kept) {
        Ok(kept) => Ok(Word {
            form: WordForm::Apart(kept),
        }),
        Err(_) => Err(Memory),
    }
}
