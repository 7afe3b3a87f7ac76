//! Steps that the passes share: a place in sorted posts goes up, and a post is added where a test held.
ghost use Rattle.std.specs.Prelude.{◌≡◌, ℕ, ◌+◌, ◌-◌, ◌≤◌, ◌<◌, ◌^◌, [], ◌∷◌, ◌++◌, true, false, length, slice_index_or, if◌then◌else◌};
ghost use Rattle.cs_base.specs.declared.content.doc.Post.{Post};
ghost use Rattle.cs_base.specs.content.Orders.{AreSorted};
ghost use Rattle.cs_meet.specs.RowPlaces.{AllBefore, Splits, IsNotBefore, is_before};

use cs_base::Post;
use cs_cols::Cols;

/// The first place from `from` on whose post isn't before position `pos` of document `doc`.
///
/// It steps by doubling and then halves the last step, so far places cost a logarithm.
#[inline]
pub(crate) fn skip_to(posts: &Cols, from: usize, doc: u32, pos: u64) -> usize
    requires sorted { AreSorted posts.now.posts }
    requires within { from ≤ length posts.now.posts }
    requires before { AllBefore posts.now.posts from doc pos }

    ensures onward { from ≤ result }
    ensures splits { Splits posts.now.posts result doc pos }
{
    let mut lo = from;
    let mut step = 1;
    while reaches_before(posts, lo, step, doc, pos) {
        lo += step;
        step *= 2;
    }
    let hi = lo + (step - 1).min(posts.len() - lo);
    search_between(posts, lo, hi, doc, pos)
}

/// The first place from `from` on whose post isn't before position `pos` of document `doc`, whatever stands in front.
#[inline]
pub(crate) fn pass_over(posts: &Cols, from: usize, doc: u32, pos: u64) -> usize
    requires sorted { AreSorted posts.now.posts }
    requires within { from ≤ length posts.now.posts }

    ensures onward { from ≤ result }
    ensures within { result ≤ length posts.now.posts }
    ensures passed { (k : ℕ) (e : Post) → from ≤ k → k < result → is_before (slice_index_or posts.now.posts k e) doc pos ≡ true }
{
    if from < posts.len() && comes_before(posts.get(from), doc, pos) {
        skip_to(posts, from + 1, doc, pos)
    } else {
        from
    }
}

// Whether the last of the next `step` posts is there, and before the place.
#[inline]
fn reaches_before(posts: &Cols, from: usize, step: usize, doc: u32, pos: u64) -> bool
    requires within { from ≤ length posts.now.posts }
    requires some { 1 ≤ step }

    ensures small { length posts.now.posts < 2 ^ 63 }
    ensures there { result ≡ true → step ≤ length posts.now.posts - from }
    ensures yes { result ≡ true → (e : Post) → is_before (slice_index_or posts.now.posts (from + (step - 1)) e) doc pos ≡ true }
    ensures no { result ≡ false → IsNotBefore posts.now.posts (from + (step - 1)) doc pos }
{
    step <= posts.len() - from && comes_before(posts.get(from + (step - 1)), doc, pos)
}

// The first place from `from` on whose post isn't before the place, at most `end`, by halving.
fn search_between(posts: &Cols, from: usize, end: usize, doc: u32, pos: u64) -> usize
    requires sorted { AreSorted posts.now.posts }
    requires order { from ≤ end }
    requires within { end ≤ length posts.now.posts }
    requires before { AllBefore posts.now.posts from doc pos }
    requires stop { IsNotBefore posts.now.posts end doc pos }

    ensures onward { from ≤ result }
    ensures splits { Splits posts.now.posts result doc pos }
{
    let mut lo = from;
    let mut hi = end;
    while lo < hi {
        let middle = lo + (hi - lo) / 2;
        if comes_before(posts.get(middle), doc, pos) {
            lo = middle + 1;
        } else {
            hi = middle;
        }
    }
    lo
}

#[inline]
fn comes_before(post: Post, doc: u32, pos: u64) -> bool
    ensures { result ≡ is_before post doc pos }
{
    post.doc < doc || (post.doc == doc && u64::from(post.pos) < pos)
}

/// Adds a post at the end where the test held.
#[inline]
pub(crate) fn add_where(found: &mut Cols, holds: bool, post: Post)
    requires { 1 ≤ found.old.room }

    ensures posts { found.new.posts ≡ (if holds then found.old.posts ++ post ∷ [] else found.old.posts) }
    ensures room { found.old.room ≤ found.new.room + 1 }
{
    if holds {
        found.push_reserved(post);
    }
}
