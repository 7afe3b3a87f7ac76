//! What the tests of several files share: rows of tables and what is told of them, long texts, and posts.
//!
//! An assertion costs most of what a test's proof takes, so `same` has the only one that prints two values.
ghost use Rattle.std.specs.Prelude.{◌≡◌, true, IfOk};
ghost use Rattle.cs_base.specs.content.Orders.{AreSorted};

use cs_base::{Memory, Post, Text};
use cs_cols::Cols;
use std::alloc::Global;
use std::fmt::Debug;
use std::process::Abort;
use std::test::Fail;

/// A text with a piece repeated in its middle: what stands in front, the piece, how often, what stands behind, and what is
/// told of the whole.
pub(crate) type Long = (
    &'static str,
    &'static str,
    usize,
    &'static str,
    &'static str,
);

/// Posts by their columns: documents, positions and words.
pub(crate) type Columns = (&'static [u32], &'static [u32], &'static [u32]);

/// That both are equal. A failure names the row.
pub fn same<T: PartialEq + Debug>(rt: &impl Abort, found: &T, want: &T, row: impl Debug + Copy) {
    assert_eq!(rt; found, want, "of {row:?}");
}

/// What `told` gives of each text is what stands beside it.
pub(crate) fn are_told<F: Fn(Global, &str) -> Result<Text, Memory>>(
    rt: &impl Abort,
    alloc: Global,
    rows: &[(&str, &str)],
    told: F,
) -> Result<(), Fail>
    requires { F.IsAlwaysCallable told }
{
    for (text, want) in rows {
        let found = told(alloc, text)?;
        same(rt, &found.as_str(), want, *text);
    }
    Ok(())
}

/// The same over tables with a row a line: a text, an arrow between spaces, and what is told of the text.
pub(crate) fn lines_are_told<F: Fn(Global, &str) -> Result<Text, Memory>>(
    rt: &impl Abort,
    alloc: Global,
    tables: &[&str],
    told: F,
) -> Result<(), Fail>
    requires { F.IsAlwaysCallable told }
{
    for table in tables {
        for line in table.lines() {
            if !line.is_empty() {
                let (text, want) = line.split_once(" =>").unwrap_or((line, "no arrow"));
                let found = told(alloc, text)?;
                same(rt, &found.as_str(), &want.trim_start(), line);
            }
        }
    }
    Ok(())
}

/// The same over long texts.
pub(crate) fn long_are_told<F: Fn(Global, &str) -> Result<Text, Memory>>(
    rt: &impl Abort,
    alloc: Global,
    rows: &[Long],
    told: F,
) -> Result<(), Fail>
    requires { F.IsAlwaysCallable told }
{
    for (front, piece, times, back, want) in rows {
        let text = repeated(alloc, front, piece, *times, back)?;
        let found = told(alloc, text.as_str())?;
        same(rt, &found.as_str(), want, (*front, *times, *back));
    }
    Ok(())
}

/// A text with a piece repeated in its middle.
pub(crate) fn repeated(
    alloc: Global,
    front: &str,
    piece: &str,
    times: usize,
    back: &str,
) -> Result<Text, Memory> {
    let mut text = Text::from_str(alloc, front)?;
    for _ in 0..times {
        text.push_str(piece)?;
    }
    text.push_str(back)?;
    Ok(text)
}

/// A value as it is printed for a reader of the code.
pub(crate) fn shown<T: Debug>(alloc: Global, value: &T) -> Result<Text, Memory> {
    Ok(Text::from_string(format!(in alloc; "{value:?}")?))
}

/// Posts of score 1 that have these columns, which are as long as each other, in order.
pub(crate) fn posts(alloc: Global, columns: &Columns) -> Result<Cols, Fail>
    ensures { IfOk result (λ c. AreSorted c.posts) }
{
    let (docs, places, words) = *columns;
    if places.len() != docs.len() || words.len() != docs.len() {
        return Err(Fail::new("columns of different lengths"));
    }
    let mut cols = Cols::new(alloc);
    for i in 0..docs.len() {
        cols.reserve(1)?;
        cols.push_reserved(Post {
            doc: docs[i],
            word: words[i],
            pos: places[i],
            score: 1,
        });
    }
    if !are_sorted(&cols) {
        return Err(Fail::new("posts out of order"));
    }
    Ok(cols)
}

// Whether each post comes before the next one.
fn are_sorted(posts: &Cols) -> bool
    ensures { result ≡ true → AreSorted posts.now.posts }
{
    for i in 1..posts.len() {
        if !posts.get(i - 1).is_before(posts.get(i)) {
            return false;
        }
    }
    true
}

/// That posts have these columns.
pub(crate) fn have(rt: &impl Abort, posts: &Cols, columns: &Columns, row: &str) {
    same(
        rt,
        &(posts.docs(), posts.places(), posts.words()),
        columns,
        row,
    );
}
