//! What the calls on columns are run on, and the test that they may be.
ghost use Rattle.std.specs.Prelude.{◌≡◌, true, All, IfOk, IfSome};
ghost use Rattle.cs_base.specs.content.Orders.{AreSorted};
ghost use Rattle.timed.specs.Fit.{IsFit, ArePosts, AreScored};

use crate::numbers::{posts, ranked};
use cs_base::{Base, MAX_DOCS, MAX_WORDS, Memory, Scored, Seq};
use cs_cols::Cols;
use cs_meet::docs_of;
use cs_rank::score;
use std::alloc::Global;

/// What the calls are run on.
#[derive(Drop)]
pub(crate) struct Inputs {
    /// The first posts.
    pub(crate) rows: Cols,
    /// The other posts.
    pub(crate) other: Cols,
    /// Both as lists.
    pub(crate) both: Vec<Cols>,
    /// The documents of the other posts.
    pub(crate) docs: Vec<u32>,
    /// The same with their scores.
    pub(crate) listed: Seq<Scored>,
    /// The same as a base.
    pub(crate) base: Base,
    /// As many documents as there are first posts, with scores of their own.
    pub(crate) ranked: Vec<Scored>,
    /// How many other posts there are.
    pub(crate) best: u32,
}

/// The inputs of so many posts.
pub(crate) fn made_inputs(alloc: Global, rows: u32, other: u32) -> Result<Option<Inputs>, Memory>
    ensures { IfOk result (λ found. IfSome found IsFit) }
{
    let a = posts(alloc, rows, 1)?;
    let b = posts(alloc, other, 2)?;
    if !are_posts(&a) || !are_posts(&b) {
        return Ok(None);
    }
    let both = copies(alloc, &a, &b)?;
    let docs = docs_of(alloc, &b)?;
    let listed = score(alloc, &Base::All, &b)?;
    let base = score(alloc, &Base::All, &b)?;
    if !are_listed(listed.as_slice()) || !are_listed(base.as_slice()) {
        return Ok(None);
    }
    Ok(Some(Inputs {
        rows: a,
        other: b,
        both,
        docs,
        listed,
        base: Base::Listed(base),
        ranked: ranked(alloc, rows, 3)?,
        best: other,
    }))
}

// Both lists once more.
fn copies(alloc: Global, a: &Cols, b: &Cols) -> Result<Vec<Cols>, Memory>
    requires a { AreSorted a.now.posts }
    requires b { AreSorted b.now.posts }

    ensures { IfOk result (λ lists. All (λ c. AreSorted c.posts) lists.items) }
{
    let mut lists = Vec::new(alloc);
    lists.push(a.copy(alloc)?)?;
    lists.push(b.copy(alloc)?)?;
    Ok(lists)
}

// Whether the posts strictly ascend, and their documents and words are in the limits.
fn are_posts(posts: &Cols) -> bool
    ensures { result ≡ true → ArePosts posts.now.posts }
{
    for i in 0..posts.len() {
        let post = posts.get(i);
        if post.doc as usize >= MAX_DOCS || post.word as usize >= MAX_WORDS {
            return false;
        }
        if i > 0 && !posts.get(i - 1).is_before(post) {
            return false;
        }
    }
    true
}

// Whether the scored documents strictly ascend, and no score is above what a base keeps.
fn are_listed(listed: &[Scored]) -> bool
    ensures { result ≡ true → AreScored listed.now }
{
    for i in 0..listed.len() {
        if listed[i].score > 1 << 20 {
            return false;
        }
        if i > 0 && listed[i - 1].doc >= listed[i].doc {
            return false;
        }
    }
    true
}
