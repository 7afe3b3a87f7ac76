//! Rows brought into one order by one sort of numbers.
ghost use Rattle.std.specs.Prelude.{◌≡◌, ◌<◌, ◌++◌, [], ◌∷◌, List, map, slice_index_or, IfOk, OnOk};
ghost use Rattle.std.specs.List.{All};
ghost use Rattle.cs_base.specs.declared.content.doc.Post.{Post};
ghost use Rattle.cs_rows.specs.Packing.{IsOrdered, IsPacked, apart, column_of, doc_of_key, key_of, post_of_key, score_of, word_of_key};

use cs_base::{MAX_WORDS, Memory, Post, Weights};
use cs_cols::Cols;
use std::alloc::Global;

/// How many positions have room in a number.
const POSITION_ROOM: u64 = 1 << 17;

/// How many words have room in a number.
const WORD_ROOM: u64 = MAX_WORDS as u64;

/// How many columns have room in a number: a facet's, a title's, a text's, and one that no row has.
const COLUMN_ROOM: u64 = 1 << 2;

/// How many bits a byte has.
const BYTE_BITS: u64 = 8;

/// How many numbers have room in a byte.
const BYTE_ROOM: u32 = 1 << BYTE_BITS;

/// The place that no number has.
const NO_PLACE: u64 = u64::MAX;

/// Adds the numbers of some posts.
pub(crate) fn pack(weights: Weights, posts: &[Post], keys: &mut Vec<u64>) -> Result<(), Memory>
    requires { All (IsPacked weights) posts.now }

    ensures { OnOk result (keys.new.items ≡ keys.old.items ++ map (key_of weights) posts.now) }
{
    keys.reserve(posts.len())?;
    for post in posts {
        keys.push_reserved(key_of(weights, *post));
    }
    Ok(())
}

/// Adds the number of a post.
pub(crate) fn pack_one(weights: Weights, post: Post, keys: &mut Vec<u64>) -> Result<(), Memory>
    requires { IsPacked weights post }

    ensures { OnOk result (keys.new.items ≡ keys.old.items ++ key_of weights post ∷ []) }
{
    keys.push(key_of(weights, post))?;
    Ok(())
}

/// The rows that these are the numbers of, in order, each place once.
pub fn ordered(alloc: Global, weights: Weights, mut keys: Vec<u64>) -> Result<Cols, Memory>
    ensures { IfOk result (λ c. (rows : List Post) → keys.items ≡ map (key_of weights) rows → All (IsPacked weights) rows
        → IsOrdered rows c.posts) }
{
    keys.sort()?;
    let rows = unpack(alloc, weights, &keys)?;
    Ok(rows)
}

// The posts of ascending numbers, each place once.
fn unpack(alloc: Global, weights: Weights, keys: &[u64]) -> Result<Cols, Memory>
    ensures { IfOk result (λ c. c.posts ≡ map (post_of_key weights) (apart NO_PLACE keys.now)) }
{
    let mut rows = Cols::new(alloc);
    rows.reserve(keys.len())?;
    let mut last = NO_PLACE;
    for key in keys {
        let place = *key / COLUMN_ROOM;
        if place != last {
            rows.push_reserved(post_of_key(weights, *key));
        }
        last = place;
    }
    Ok(rows)
}

// The number of a post.
#[inline]
fn key_of(weights: Weights, post: Post) -> u64
    requires { IsPacked weights post }

    ensures { result ≡ key_of weights post }
{
    let spot = u64::from(post.doc) * POSITION_ROOM + u64::from(post.pos);
    let place = spot * WORD_ROOM + u64::from(post.word);
    place * COLUMN_ROOM + column_of(weights, post.score)
}

/// The post of a number.
#[inline]
pub(crate) fn post_of_key(weights: Weights, key: u64) -> Post
    ensures { result ≡ post_of_key weights key }
{
    Post {
        doc: doc_of_key(key),
        word: word_of(key),
        pos: (key / COLUMN_ROOM / WORD_ROOM % POSITION_ROOM) as u32,
        score: score_of(weights, key % COLUMN_ROOM),
    }
}

/// The document of a number's post.
#[inline]
pub(crate) fn doc_of_key(key: u64) -> u32
    ensures { result ≡ doc_of_key key }
{
    (key / COLUMN_ROOM / WORD_ROOM / POSITION_ROOM) as u32
}

/// The word of a number's post.
#[inline]
pub(crate) fn word_of(key: u64) -> u32
    ensures { result ≡ word_of_key key }
{
    (key / COLUMN_ROOM % WORD_ROOM) as u32
}

// The first column whose weight a score is: a facet's, then a title's, then a text's. It is found without a jump.
#[inline]
fn column_of(weights: Weights, score: u8) -> u64
    ensures column { result ≡ column_of weights score }
    ensures room { result < COLUMN_ROOM }
{
    let behind_facet = score != weights.facet;
    let behind_title = behind_facet & (score != weights.title);
    u64::from(behind_facet) + u64::from(behind_title)
}

// The weight of a column.
#[inline]
fn score_of(weights: Weights, column: u64) -> u8
    requires { column < COLUMN_ROOM }

    ensures { result ≡ score_of weights column }
{
    one_of(weights.facet, weights.title, weights.text, column)
}

// One of three bytes, by its number from 0. They stand in one number, so that it is found without a jump and without a read.
#[inline]
fn one_of(first: u8, second: u8, third: u8, n: u64) -> u8
    requires { n < COLUMN_ROOM }

    ensures { result ≡ slice_index_or (first ∷ second ∷ third ∷ []) n 0 }
{
    let all = u32::from_le_bytes([first, second, third, 0]);
    ((all >> (BYTE_BITS * n)) % BYTE_ROOM) as u8
}
