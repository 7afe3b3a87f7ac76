//! Whether two words are the same.
ghost use Rattle.std.specs.Prelude.{◌≡◌, ◌≤◌, length};
ghost use Rattle.std.specs.Str.{bytes_eq};

use crate::hash::{eight_at, four_at};

/// Whether words have the same bytes.
///
/// Words of four to sixteen bytes, as most are, are compared by their first and their last bytes, which may overlap,
/// as two numbers each.
#[inline(always)]
pub(crate) fn are_same_bytes(a: &[u8], b: &[u8]) -> bool
    ensures { result ≡ bytes_eq a.now b.now }
{
    let len = a.len();
    if len != b.len() {
        return false;
    }
    match len {
        4..=7 => are_same_in_fours(a, b),
        8..=16 => are_same_in_eights(a, b),
        _ => a == b,
    }
}

// Whether words of one length have the same first and last four bytes.
#[inline(always)]
fn are_same_in_fours(a: &[u8], b: &[u8]) -> bool
    requires as_long { length a.now ≡ length b.now }
    requires some { 4 ≤ length a.now }
    requires few { length a.now ≤ 8 }

    ensures { result ≡ bytes_eq a.now b.now }
{
    let last = a.len() - 4;
    four_at(a, 0) == four_at(b, 0) && four_at(a, last) == four_at(b, last)
}

// Whether words of one length have the same first and last eight bytes.
#[inline(always)]
fn are_same_in_eights(a: &[u8], b: &[u8]) -> bool
    requires as_long { length a.now ≡ length b.now }
    requires some { 8 ≤ length a.now }
    requires few { length a.now ≤ 16 }

    ensures { result ≡ bytes_eq a.now b.now }
{
    let last = a.len() - 8;
    eight_at(a, 0) == eight_at(b, 0) && eight_at(a, last) == eight_at(b, last)
}
