//! Posts whose word lies between two others, and those of them in listed documents.
ghost use Rattle.std.specs.Prelude.{◌≡◌, ◌+◌, ◌++◌, ◌<◌, ◌≤◌, ◌&&◌, false, nat_le, nat_lt, filter, length, map, slice_index_or, IfOk};
ghost use Rattle.std.specs.List.{All};
ghost use Rattle.cs_base.specs.declared.content.doc.Post.{Post};
ghost use Rattle.cs_rows.specs.Stocked.{is_between};

use cs_base::Memory;
use cs_cols::{Cols, find_between};
use std::alloc::Global;

/// So many documents or rows at most are looked at in one loop.
pub(crate) const SPAN: usize = 256;

/// The posts whose word's number is `lo` or more and below `hi`, in memory that just holds them.
pub fn posts_between(alloc: Global, posts: &Cols, lo: u32, hi: u32) -> Result<Cols, Memory>
    ensures { IfOk result (λ c. c.posts ≡ filter (is_between lo hi) posts.now.posts) }
{
    let words = posts.words();
    let mut found = Cols::new(alloc);
    found.reserve(count_between(words, lo, hi))?;
    let mut places = [0usize; SPAN];
    let mut from = 0;
    while from < words.len() {
        let to = from + SPAN.min(words.len() - from);
        let many = find_between(words, from, to, lo, hi, &mut places);
        push_places(&mut found, posts, &places[..many]);
        from = to;
    }
    Ok(found)
}

// Adds the posts at these places, in the room that there is.
fn push_places(found: &mut Cols, posts: &Cols, places: &[usize])
    requires known { All (λ i. i < length posts.now.posts) places.now }
    requires room { length places.now ≤ found.old.room }

    ensures posts { (d : Post) → found.new.posts ≡ found.old.posts ++ map (λ i. slice_index_or posts.now.posts i d) places.now }
    ensures room { found.old.room ≤ found.new.room + length places.now }
{
    for place in places {
        found.push_reserved(posts.get(*place));
    }
}

fn count_between(words: &[u32], lo: u32, hi: u32) -> usize
    ensures { result ≡ length (filter (λ w. nat_le lo w && nat_lt w hi) words.now) }
{
    let mut count = 0;
    for word in words {
        if is_in(*word, lo, hi) {
            count += 1;
        }
    }
    count
}

/// Whether a word's number is `lo` or more and below `hi`.
#[inline]
pub(crate) fn is_in(word: u32, lo: u32, hi: u32) -> bool
    ensures { result ≡ (nat_le lo word && nat_lt word hi) }
{
    (lo <= word) & (word < hi)
}

/// Whether a word's number is `lo` or more and below `hi`, and a document is listed.
#[inline]
pub(crate) fn are_chosen(doc: u32, word: u32, lo: u32, hi: u32, listed: &[bool]) -> bool
    requires { doc < length listed.now }

    ensures { result ≡ ((nat_le lo word && nat_lt word hi) && slice_index_or listed.now doc false) }
{
    is_in(word, lo, hi) & listed[doc as usize]
}
