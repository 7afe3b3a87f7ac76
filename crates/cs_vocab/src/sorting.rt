//! Words as they are sorted: by their first bytes as one number, and by all their bytes where these numbers are the same.
ghost use Rattle.std.specs.Prelude.{◌≡◌, ◌<◌, ℕ, slice_index_or};
ghost use Rattle.std.proofs.Common.{rules};
ghost use Rattle.std.specs.Str.{bytes_eq};
ghost use Rattle.std.specs.Ordering.{nat_cmp, as_partial_cmp};
ghost use Rattle.std.specs.Cmp.{partial_order_from_own_ties};
ghost use Rattle.std.specs.Cmp.Lexicographic.{slice_cmp};
ghost use Rattle.std.specs.Cmp.Rules.{comparing};
ghost use Rattle.cs_vocab.specs.Leads.{lead};

use cs_base::Word;
use std::cmp::Ordering;
use std::marker::Model;

/// So many of a word's bytes make one number.
pub(crate) const LEAD_BYTES: usize = 8;

/// How many numbers have room in a byte.
const BYTE_ROOM: u64 = 1 << 8;

/// A word that is to be sorted, which contracts see as its bytes. It is ordered as the word is, mostly without a look at it.
#[derive(Drop)]
pub(crate) struct Sorting<'a> {
    /// The number of its first bytes.
    first_bytes: u64,
    /// The word.
    word: &'a Word,
    /// Its place among those that came.
    place: u32,
}

impl<'a> Model for Sorting<'a> {
    ghost use Rattle.std.specs.Prelude.{◌≡◌, ◌<◌, List, ℕ, slice_index_or};
    ghost use Rattle.cs_vocab.specs.Leads.{lead};
    ghost use Rattle.cs_vocab.specs.declared.sorting.TheConstants.{LEAD_BYTES};

    ghost Value = { List ℕ };

    ghost view = { λ s. s.word.now };

    ghost invariant = { λ s. (s.first_bytes ≡ lead LEAD_BYTES s.word.now) × ((k : ℕ) → slice_index_or s.word.now k 0 < 256) };
}

impl<'a> Sorting<'a> {
    /// A word that came at a place.
    pub(crate) fn new(word: &'a Word, place: u32) -> Sorting<'a>
        ensures { result ≡ word.entry.now }
    {
        Sorting {
            first_bytes: lead_of(word.bytes()),
            word,
            place,
        }
    }

    /// The word.
    pub(crate) fn word(&self) -> &Word
        ensures { result.now ≡ self.now }
    {
        self.word
    }

    /// Its place among those that came.
    pub(crate) fn place(&self) -> u32 {
        self.place
    }
}

impl PartialEq for Sorting<'_> {
    ghost eq = { bytes_eq };

    ghost laws = { Prim.search (comparing, rules) };

    fn eq(&self, other: &Sorting<'_>) -> bool {
        self.first_bytes == other.first_bytes && self.word == other.word
    }
}

impl Eq for Sorting<'_> {
    ghost laws = { Prim.search (comparing, rules) };
}

impl PartialOrd for Sorting<'_> {
    ghost partial_cmp = { as_partial_cmp (slice_cmp nat_cmp) };

    ghost laws = { partial_order_from_own_ties (Prim.search (comparing, rules)) (Prim.search (comparing, rules)) };

    fn partial_cmp(&self, other: &Sorting<'_>) -> Option<Ordering> {
        Some(self.cmp(other))
    }
}

impl Ord for Sorting<'_> {
    ghost cmp = { slice_cmp nat_cmp };

    ghost total = { Prim.search (comparing, rules) };

    ghost matches_partial_cmp = { Prim.search (comparing, rules) };

    ghost matches_eq = { Prim.search (comparing, rules) };

    fn cmp(&self, other: &Sorting<'_>) -> Ordering {
        if self.first_bytes < other.first_bytes {
            return Ordering::Less;
        }
        if other.first_bytes < self.first_bytes {
            return Ordering::Greater;
        }
        self.word.cmp(other.word)
    }
}

// The number of the first bytes of a word.
fn lead_of(word: &[u8]) -> u64
    ensures lead { result ≡ lead LEAD_BYTES word.now }
    ensures bytes { (k : ℕ) → slice_index_or word.now k 0 < 256 }
{
    let mut lead = 0;
    for i in 0..LEAD_BYTES {
        lead = lead * BYTE_ROOM + u64::from(byte_at(word, i));
    }
    lead
}

// The byte at a place, 0 where there is none.
#[inline]
fn byte_at(word: &[u8], i: usize) -> u8
    ensures { result ≡ slice_index_or word.now i 0 }
{
    match word.get(i) {
        Some(byte) => *byte,
        None => 0,
    }
}
