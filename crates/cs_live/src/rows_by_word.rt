//! Rows in memory in the order of their words: those of a range of words lie together.
ghost use Rattle.std.specs.Prelude.{◌≡◌, ◌+◌, ◌≤◌, ◌<◌, ◌++◌, List, filter, length, map, true, IfOk, OnErr, OnOk};
ghost use Rattle.std.specs.{List.{All}, List.Sorted.{IsNonDecreasingBy}, Vec.{vec_capacity, vec_len}};
ghost use Rattle.cs_base.specs.content.Orders.{AreDocs};
ghost use Rattle.cs_base.specs.declared.content.doc.Post.{Post};
ghost use Rattle.cs_rows.specs.Stocked.{is_between};
ghost use Rattle.cs_live.specs.{Settling.{row_posts}, States.{AreByWord, AreOwnNumbers, renumbered}};

use crate::numbers::is_less;
use crate::rows::renumber_rows;
use cs_base::{Memory, Post, Row};
use std::alloc::Global;

/// The rows whose word's number is `words.0` or more and below `words.1`.
pub(crate) fn rows_of_words(by_word: &[Post], words: (u32, u32)) -> &[Post]
    requires { IsNonDecreasingBy (λ p. p.word) by_word.now }

    ensures { result.now ≡ filter (is_between words.0 words.1) by_word.now }
{
    let first = by_word.partition_point(|post| is_less(post.word, words.0));
    let rest = &by_word[first..];
    let many = rest.partition_point(|post| is_less(post.word, words.1));
    &rest[..many]
}

/// Gives rows in memory the numbers that their words have among more words, and brings rows in among them. Where memory runs out, nothing
/// changes.
pub(crate) fn put_among(
    alloc: Global,
    by_word: &mut Vec<Post>,
    own: bool,
    first: &[u32],
    second: &[u32],
    numbers: &[u32],
    rows: &[Row],
) -> Result<(), Memory>
    requires words { All (λ p. p.word < length first.now) by_word.old.items }
    requires rises { AreDocs first.now }
    requires own { own ≡ true → AreOwnNumbers first.now }
    requires even { length numbers.now ≡ length rows.now }
    requires below { All (λ n. n < length second.now) numbers.now }

    ensures ok { OnOk result ((held : List Post) → AreByWord held by_word.old.items
        → AreByWord (map (renumbered first.now) held ++ row_posts second.now numbers.now rows.now) by_word.new.items) }
    ensures err { OnErr result (by_word.new.items ≡ by_word.old.items) }
{
    let mut all = copied(alloc, by_word, rows)?;
    renumber_rows(own, first, &mut all);
    add_posts(&mut all, second, numbers, rows);
    all.sort_by_key(|post| post.word)?;
    *by_word = all;
    Ok(())
}

// Rows once more, with room for others behind them.
fn copied(alloc: Global, by_word: &[Post], more: &[Row]) -> Result<Vec<Post>, Memory>
    ensures items { IfOk result (λ v. v.items ≡ by_word.now) }
    ensures room { IfOk result (λ v. vec_len v + length more.now ≤ vec_capacity v) }
{
    let mut all = Vec::with_capacity(alloc, by_word.len() + more.len())?;
    all.extend_from_slice(by_word)?;
    Ok(all)
}

// Adds rows whose words have these numbers among those that are brought in, in the room that there is.
fn add_posts(posts: &mut Vec<Post>, second: &[u32], numbers: &[u32], rows: &[Row])
    requires even { length numbers.now ≡ length rows.now }
    requires below { All (λ n. n < length second.now) numbers.now }
    requires room { vec_len posts.old + length rows.now ≤ vec_capacity posts.old }

    ensures { posts.new.items ≡ posts.old.items ++ row_posts second.now numbers.now rows.now }
{
    for i in 0..rows.len() {
        posts.push_reserved(Post {
            doc: rows[i].doc,
            word: second[numbers[i] as usize],
            pos: rows[i].pos,
            score: rows[i].score,
        });
    }
}
