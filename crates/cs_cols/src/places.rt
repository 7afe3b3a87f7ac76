//! The places of those rows of a span that pass a test, put to the front of a slice without a jump.
ghost use Rattle.std.specs.Prelude.{◌≡◌, ◌&&◌, ◌<◌, ◌≤◌, length, nat_le, nat_lt, take};
ghost use Rattle.std.specs.List.{All};
ghost use Rattle.cs_cols.specs.SpanPlaces.{IsSpan, is_between_at, is_listed_at, places_where};

/// Puts the places from `from` up to `to` of listed documents to the front of a slice, in order, and says how many there are.
#[inline]
pub fn find_listed(
    docs: &[u32],
    from: usize,
    to: usize,
    listed: &[bool],
    places: &mut [usize],
) -> usize
    requires known { All (λ d. d < length listed.now) docs.now }
    requires span { IsSpan from to (length docs.now) (length places.old) }

    ensures found { take result places.new ≡ places_where (is_listed_at listed.now docs.now) from to }
    ensures few { result ≤ length places.new }
    ensures len { length places.new ≡ length places.old }
{
    let mut found = 0;
    for i in from..to {
        places[found] = i;
        found += usize::from(listed[docs[i] as usize]);
    }
    found
}

/// The same of words whose number is `lo` or more and below `hi`.
#[inline]
pub fn find_between(
    words: &[u32],
    from: usize,
    to: usize,
    lo: u32,
    hi: u32,
    places: &mut [usize],
) -> usize
    requires span { IsSpan from to (length words.now) (length places.old) }

    ensures found { take result places.new ≡ places_where (is_between_at lo hi words.now) from to }
    ensures few { result ≤ length places.new }
    ensures len { length places.new ≡ length places.old }
{
    let mut found = 0;
    for i in from..to {
        places[found] = i;
        found += usize::from(is_between(words[i], lo, hi));
    }
    found
}

// Whether a word's number is `lo` or more and below `hi`.
#[inline]
fn is_between(word: u32, lo: u32, hi: u32) -> bool
    ensures { result ≡ (nat_le lo word && nat_lt word hi) }
{
    (lo <= word) & (word < hi)
}
