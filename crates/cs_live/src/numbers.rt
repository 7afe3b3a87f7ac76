//! The numbers of words: those of the index, and those of the words of an index and of added documents together.
ghost use Rattle.std.specs.Prelude.{◌≡◌, ◌≤◌, ◌+◌, false, true, nat_lt, length};
ghost use Rattle.std.specs.{List.{list_any}, List.Sorted.{IsStrictlySortedBy}, Ordering.{nat_cmp}, Cmp.Lexicographic.{slice_cmp}, Str.{bytes_eq}};
ghost use Rattle.cs_base.specs.content.Orders.{AreDocs};
ghost use Rattle.cs_base.specs.declared.content.limits.TheConstants.{MAX_WORDS};
ghost use Rattle.cs_rows.specs.IndexReading.{IsRangeOf};
ghost use Rattle.cs_live.specs.States.{rank};

use cs_vocab::Vocab;

/// The words of the index among those from one number up to another.
pub(crate) fn old_words(shift: &[u32], words: (u32, u32)) -> (u32, u32)
    requires rises { AreDocs shift.now }
    requires few { length shift.now ≤ MAX_WORDS }

    ensures low { result.0 ≡ rank shift.now words.0 }
    ensures high { result.1 ≡ rank shift.now words.1 }
{
    (rank(shift, words.0), rank(shift, words.1))
}

// How many words of the index have a number below `n`.
fn rank(shift: &[u32], n: u32) -> u32
    requires rises { AreDocs shift.now }
    requires few { length shift.now ≤ MAX_WORDS }

    ensures { result ≡ rank shift.now n }
{
    shift.partition_point(|m| is_less(*m, n)) as u32
}

/// Whether a number is below another.
pub(crate) fn is_less(m: u32, n: u32) -> bool
    ensures { result ≡ nat_lt m n }
{
    m < n
}

/// Whether the words of a state are those of its index alone. Each of these then has its own number.
pub(crate) fn has_own_words(words: &Vocab, shift: &[u32]) -> bool
    ensures { result ≡ true → length words.now ≡ length shift.now }
{
    words.len() as usize == shift.len()
}

/// The number of a word and the next one, or an empty range.
pub(crate) fn own_range(words: &Vocab, word: &[u8]) -> (u32, u32)
    requires ascending { IsStrictlySortedBy (slice_cmp nat_cmp) words.now }
    requires few { length words.now ≤ MAX_WORDS }

    ensures range { IsRangeOf words.now (λ v. bytes_eq v word.now) result.0 result.1 }
    ensures short { result.1 ≤ result.0 + 1 }
    ensures none { list_any (bytes_eq word.now) words.now ≡ false → result.0 ≡ result.1 }
{
    match words.find(word) {
        Some(n) => (n, n + 1),
        None => (0, 0),
    }
}
