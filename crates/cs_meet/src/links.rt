//! Rows that stand behind, or near, a row of another list.
ghost use Rattle.std.specs.Prelude.{◌≡◌, ℕ, ◌+◌, ◌-◌, ◌<◌, ◌≤◌, false, length, max, slice_index_or, IfOk};
ghost use Rattle.std.specs.List.{list_any};
ghost use Rattle.cs_meet.specs.Filters.{follow, near, stands_behind, is_near};
ghost use Rattle.cs_base.specs.content.Orders.{AreSorted};
ghost use Rattle.cs_meet.specs.RowPlaces.{Ahead, Splits, near_at};
ghost use Rattle.cs_base.specs.declared.content.doc.Post.{Post};
ghost use Rattle.cs_base.specs.declared.content.limits.TheConstants.{MAX_DISTANCE};

use crate::skip::{add_where, pass_over, skip_to};
use cs_base::{MAX_DISTANCE, Memory, Post};
use cs_cols::Cols;
use std::alloc::Global;

// how far before a row a near row may stand
const REACH: u64 = MAX_DISTANCE as u64;

/// The rows of b that stand one position behind a row of a, as in a phrase.
pub fn follow(alloc: Global, a: &Cols, b: &Cols) -> Result<Cols, Memory>
    requires a_sorted { AreSorted a.now.posts }
    requires b_sorted { AreSorted b.now.posts }

    ensures ok { IfOk result (λ c. c.posts ≡ follow a.now.posts b.now.posts) }
    ensures sorted { IfOk result (λ c. AreSorted c.posts) }
{
    let mut found = Cols::with_capacity(alloc, b.len())?;
    let mut i = 0;
    let mut j = 0;
    while j < b.len() {
        let row = b.get(j);
        i = skip_to(a, i, row.doc, u64::from(row.pos).saturating_sub(1));
        add_where(&mut found, is_followed(a, i, row), row);
        j = next_behind(a, i, b, j + 1);
    }
    Ok(found)
}

/// The rows of b that stand from 1 to `MAX_DISTANCE` positions before or behind a row of a.
pub fn near(alloc: Global, a: &Cols, b: &Cols) -> Result<Cols, Memory>
    requires a_sorted { AreSorted a.now.posts }
    requires b_sorted { AreSorted b.now.posts }

    ensures ok { IfOk result (λ c. c.posts ≡ near a.now.posts b.now.posts) }
    ensures sorted { IfOk result (λ c. AreSorted c.posts) }
{
    let mut found = Cols::with_capacity(alloc, b.len())?;
    let mut lo = 0;
    let mut hi = 0;
    let mut j = 0;
    while j < b.len() {
        let row = b.get(j);
        let pos = u64::from(row.pos);
        lo = skip_to(a, lo, row.doc, pos.saturating_sub(REACH).max(1));
        hi = skip_to(a, hi, row.doc, pos + 1);
        add_where(&mut found, has_neighbour(a, lo, hi, row), row);
        j = next_near(a, lo, b, j + 1);
    }
    Ok(found)
}

// The first row of b from `from` on that may stand behind a post of a from `i` on.
#[inline]
fn next_behind(a: &Cols, i: usize, b: &Cols, from: usize) -> usize
    requires a_sorted { AreSorted a.now.posts }
    requires b_sorted { AreSorted b.now.posts }
    requires within { from ≤ length b.now.posts }
    requires ahead { Ahead (λ r. r.doc) (λ r. r.pos - 1) a.now.posts b.now.posts i from }

    ensures onward { from ≤ result }
    ensures within { result ≤ length b.now.posts }
    ensures none { (k : ℕ) (e : Post) → from ≤ k → k < result → list_any (stands_behind (slice_index_or b.now.posts k e)) a.now.posts ≡ false }
{
    if i < a.len() {
        let post = a.get(i);
        pass_over(b, from, post.doc, u64::from(post.pos) + 1)
    } else {
        b.len()
    }
}

// The first row of b from `from` on that may stand near a post of a from `lo` on.
#[inline]
fn next_near(a: &Cols, lo: usize, b: &Cols, from: usize) -> usize
    requires a_sorted { AreSorted a.now.posts }
    requires b_sorted { AreSorted b.now.posts }
    requires within { from ≤ length b.now.posts }
    requires ahead { Ahead (λ r. r.doc) (λ r. max (r.pos - MAX_DISTANCE) 1) a.now.posts b.now.posts lo from }

    ensures onward { from ≤ result }
    ensures within { result ≤ length b.now.posts }
    ensures none { (k : ℕ) (e : Post) → from ≤ k → k < result → list_any (is_near (slice_index_or b.now.posts k e)) a.now.posts ≡ false }
{
    if lo < a.len() {
        let post = a.get(lo);
        pass_over(b, from, post.doc, u64::from(post.pos).saturating_sub(REACH))
    } else {
        b.len()
    }
}

// Whether the row stands one position behind a post, where `i` is the first place from its predecessor's on.
#[inline]
fn is_followed(posts: &Cols, i: usize, row: Post) -> bool
    requires sorted { AreSorted posts.now.posts }
    requires splits { Splits posts.now.posts i row.doc (row.pos - 1) }

    ensures { result ≡ list_any (stands_behind row) posts.now.posts }
{
    i < posts.len() && is_behind(row, posts.get(i))
}

#[inline]
fn is_behind(row: Post, post: Post) -> bool
    ensures { result ≡ stands_behind row post }
{
    post.doc == row.doc && post.pos > 0 && u64::from(post.pos) + 1 == u64::from(row.pos)
}

// Whether a post stands near the row, where `lo` is the first place from `MAX_DISTANCE` positions before the row on,
// and `hi` the first place behind it.
#[inline]
fn has_neighbour(posts: &Cols, lo: usize, hi: usize, row: Post) -> bool
    requires sorted { AreSorted posts.now.posts }
    requires lo { Splits posts.now.posts lo row.doc (max (row.pos - MAX_DISTANCE) 1) }
    requires hi { Splits posts.now.posts hi row.doc (row.pos + 1) }

    ensures { result ≡ list_any (is_near row) posts.now.posts }
{
    is_near_at(posts, lo, row) || is_near_at(posts, hi, row)
}

#[inline]
fn is_near_at(posts: &Cols, i: usize, row: Post) -> bool
    ensures { result ≡ near_at posts.now.posts i row }
{
    i < posts.len() && stands_near(row, posts.get(i))
}

#[inline]
fn stands_near(row: Post, post: Post) -> bool
    ensures { result ≡ is_near row post }
{
    post.doc == row.doc
        && post.pos > 0
        && row.pos > 0
        && post.pos != row.pos
        && post.pos.abs_diff(row.pos) <= MAX_DISTANCE
}
