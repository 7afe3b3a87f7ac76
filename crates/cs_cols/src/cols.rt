//! The columns and their calls.
ghost use Rattle.std.specs.Prelude.{◌≡◌, ◌+◌, ◌≤◌, ◌<◌, ◌^◌, [], ◌∷◌, ◌++◌, length, map, take, slice_index_or, IfOk, OnOk, OnErr, IsOk};
ghost use Rattle.std_alloc.specs.Vec.{vec_len, vec_capacity};
ghost use Rattle.cs_cols.specs.Placed.{IsInPlace};

use crate::block::{WaitingBlock, part_block, whole};
use crate::rooms::{house_bytes, house_numbers, vacate_bytes, vacate_numbers};
use cs_base::{Memory, Post};
use std::alloc::Global;
use std::marker::Model;
use std::mem::replace;
use std_alloc::vec::Lodged;

// Bytes of a document, a word or a position.
const NUMBER_BYTES: usize = 4;

// Bytes of a post: three numbers, and a score of one byte.
const POST_BYTES: usize = 3 * NUMBER_BYTES + 1;

// Posts whose bytes can be counted.
const MOST_POSTS: usize = isize::MAX as usize / POST_BYTES;

// Posts that the first memory is for, at least.
const FIRST_POSTS: usize = 4;

/// Posts in columns, which contracts see as the list of the posts and the spare room.
#[derive(Debug)]
pub struct Cols {
    alloc: Global,
    docs: Vec<u32, Lodged>,
    words: Vec<u32, Lodged>,
    places: Vec<u32, Lodged>,
    scores: Vec<u8, Lodged>,
    // the memory that the columns lie in, if there is any
    block: Option<WaitingBlock>,
}

impl Model for Cols {
    ghost use Rattle.std.specs.Prelude.{◌-◌};
    ghost use Rattle.std_alloc.specs.Vec.{vec_len, vec_capacity};
    ghost use Rattle.cs_cols.specs.HeldPosts.{HeldPosts, posts_of, AreEven};
    ghost use Rattle.cs_cols.specs.Placed.{ArePlaced};

    ghost Value = { HeldPosts };

    ghost view = { λ c. record { posts = posts_of c.docs.items c.words.items c.places.items c.scores.items; room = vec_capacity c.docs - vec_len c.docs } };

    ghost invariant = { λ c. AreEven c.docs.items c.words.items c.places.items c.scores.items × ArePlaced c.docs c.words c.places c.scores c.block };
}

impl Drop for Cols {
    fn drop(self) {
        let Cols {
            alloc: _,
            docs,
            words,
            places,
            scores,
            block,
        } = self;
        if let Some(block) = block {
            let docs = vacate_numbers(docs);
            let words = vacate_numbers(words);
            let places = vacate_numbers(places);
            let scores = vacate_bytes(scores);
            drop(whole(docs, words, places, scores, block));
        }
    }
}

impl Cols {
    ghost use Rattle.cs_cols.specs.HeldPosts.{AreEven, posts_of};

    /// No posts. It takes no memory, and keeps the allocator for later calls.
    pub fn new(alloc: Global) -> Cols
        ensures { result.posts ≡ [] }
    {
        Cols {
            alloc,
            docs: Vec::new(Lodged),
            words: Vec::new(Lodged),
            places: Vec::new(Lodged),
            scores: Vec::new(Lodged),
            block: None,
        }
    }

    /// No posts, in memory for `cap`.
    pub fn with_capacity(alloc: Global, cap: usize) -> Result<Cols, Memory>
        ensures none { IfOk result (λ c. c.posts ≡ []) }
        ensures room { IfOk result (λ c. cap ≤ c.room) }
    {
        if cap == 0 {
            return Ok(Cols::new(alloc));
        }
        if cap > MOST_POSTS {
            return Err(Memory);
        }
        let cells = (POST_BYTES * cap).div_ceil(NUMBER_BYTES);
        let mut vec = Vec::with_capacity(alloc, cells)?;
        let ptr = vec.as_mut_ptr();
        let (docs, words, places, scores, block) = part_block(vec, cap);
        let (second, third, fourth) = unsafe {
            (
                ptr.byte_add(NUMBER_BYTES * cap),
                ptr.byte_add(2 * NUMBER_BYTES * cap),
                ptr.byte_add(3 * NUMBER_BYTES * cap),
            )
        };
        Ok(Cols {
            alloc,
            docs: house_numbers(ptr, cap, docs),
            words: house_numbers(second, cap, words),
            places: house_numbers(third, cap, places),
            scores: house_bytes(fourth, cap, scores),
            block: Some(block),
        })
    }

    /// How many posts there are.
    #[inline]
    pub fn len(&self) -> usize
        ensures value { result ≡ length self.now.posts }
        ensures small { result < 2 ^ 63 }
    {
        self.docs.len()
    }

    /// The post at `i`, counted from 0.
    #[inline]
    #[tactic(auto, using(crate::proofs::Columns::lengths))]
    pub fn get(&self, i: usize) -> Post
        requires { i < length self.now.posts }
        ensures { result ≡ slice_index_or self.now.posts i result }
    {
        Post {
            doc: self.docs[i],
            word: self.words[i],
            pos: self.places[i],
            score: self.scores[i],
        }
    }

    /// The documents, post by post.
    #[inline]
    pub fn docs(&self) -> &[u32]
        ensures { result.now ≡ map (λ p. p.doc) self.now.posts }
    {
        self.docs.as_slice()
    }

    /// The words' numbers, post by post.
    #[inline]
    pub fn words(&self) -> &[u32]
        ensures { result.now ≡ map (λ p. p.word) self.now.posts }
    {
        self.words.as_slice()
    }

    /// The positions, post by post.
    #[inline]
    pub fn places(&self) -> &[u32]
        ensures { result.now ≡ map (λ p. p.pos) self.now.posts }
    {
        self.places.as_slice()
    }

    /// The scores, post by post.
    #[inline]
    pub fn scores(&self) -> &[u8]
        ensures { result.now ≡ map (λ p. p.score) self.now.posts }
    {
        self.scores.as_slice()
    }

    /// The same posts once more, in memory of their own.
    pub fn copy(&self, alloc: Global) -> Result<Cols, Memory>
        ensures { IfOk result (λ c. c.posts ≡ self.now.posts) }
    {
        let mut copy = Cols::with_capacity(alloc, self.len())?;
        copy.extend_reserved(self.docs(), self.words(), self.places(), self.scores());
        Ok(copy)
    }

    /// Makes room for `n` more posts. Where there is so much, it takes no memory.
    pub fn reserve(&mut self, n: usize) -> Result<(), Memory>
        ensures ok { OnOk result (n ≤ self.new.room) }
        ensures err { OnErr result (self.new ≡ self.old) }
        ensures posts { self.new.posts ≡ self.old.posts }
        ensures room { self.old.room ≤ self.new.room }
        ensures enough { n ≤ self.old.room → IsOk result × (self.new ≡ self.old) }
    {
        let len = self.docs.len();
        let cap = self.docs.capacity();
        if n <= cap - len {
            return Ok(());
        }
        let Some(wanted) = len.checked_add(n) else {
            return Err(Memory);
        };
        let cap = cap
            .saturating_mul(2)
            .clamp(FIRST_POSTS, MOST_POSTS)
            .max(wanted);
        let mut more = Cols::with_capacity(self.alloc, cap)?;
        more.extend_reserved(self.docs(), self.words(), self.places(), self.scores());
        *self = more;
        Ok(())
    }

    /// Adds a post at the end, in the room that there is. It takes no memory.
    #[inline]
    pub fn push_reserved(&mut self, p: Post)
        requires { 1 ≤ self.old.room }

        ensures posts { self.new.posts ≡ self.old.posts ++ p ∷ [] }
        ensures room { self.old.room ≤ self.new.room + 1 }
    {
        self.docs.push_reserved(p.doc);
        self.words.push_reserved(p.word);
        self.places.push_reserved(p.pos);
        self.scores.push_reserved(p.score);
    }

    /// Adds the posts whose columns these are at the end, in the room that there is. It takes no memory.
    #[inline]
    pub fn extend_reserved(&mut self, docs: &[u32], words: &[u32], places: &[u32], scores: &[u8])
        requires even { AreEven docs.now words.now places.now scores.now }
        requires room { length docs.now ≤ self.old.room }

        ensures posts { self.new.posts ≡ self.old.posts ++ posts_of docs.now words.now places.now scores.now }
        ensures room { self.old.room ≤ self.new.room + length docs.now }
    {
        extend_column(&mut self.docs, docs);
        extend_column(&mut self.words, words);
        extend_column(&mut self.places, places);
        extend_column(&mut self.scores, scores);
    }

    /// Keeps the first `n` posts, all where there are fewer.
    pub fn truncate(&mut self, n: usize)
        ensures posts { self.new.posts ≡ take n self.old.posts }
        ensures room { self.old.room ≤ self.new.room }
    {
        truncate_column(&mut self.docs, n);
        truncate_column(&mut self.words, n);
        truncate_column(&mut self.places, n);
        truncate_column(&mut self.scores, n);
    }
}

// Adds entries at the end of a column, in the memory that it has.
#[inline]
fn extend_column<T: Copy + Drop>(column: &mut Vec<T, Lodged>, more: &[T])
    requires room { vec_len column.old + length more.now ≤ vec_capacity column.old }

    ensures items { column.new.items ≡ column.old.items ++ more.now }
    ensures in_place { IsInPlace column.old column.new }
{
    let taken = replace(column, Vec::new(Lodged));
    *column = extended(taken, more);
}

// The column with these entries at its end. It is a local, so that no entry can lie over where it
// begins, and the loop can become vector code.
#[inline]
fn extended<T: Copy>(mut column: Vec<T, Lodged>, more: &[T]) -> Vec<T, Lodged>
    requires room { vec_len column + length more.now ≤ vec_capacity column }

    ensures items { result.items ≡ column.items ++ more.now }
    ensures in_place { IsInPlace column result }
{
    for entry in more {
        column.push_reserved(*entry);
    }
    column
}

// Keeps the first `n` entries, in the same memory.
fn truncate_column<T: Copy>(column: &mut Vec<T, Lodged>, n: usize)
    ensures items { column.new.items ≡ take n column.old.items }
    ensures in_place { IsInPlace column.old column.new }
{
    while n < column.len() {
        column.take_last();
    }
}
