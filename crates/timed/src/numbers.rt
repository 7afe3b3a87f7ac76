//! A linear generator, and the posts and scored documents that it makes.
use cs_base::{Memory, Post, Scored};
use cs_cols::Cols;
use std::alloc::Global;

/// Posts are spread over so many documents, and leave about a quarter of them out.
const DOCS: u32 = 1_000_000;
/// Posts have so many words.
const WORDS: u32 = 20_000;
/// Scores of documents are below it.
const SCORES: u32 = 1_000;

/// Numbers of 31 bits: the upper ones of a state x that becomes x * 6364136223846793005 + 1442695040888963407 modulo 2^64.
#[derive(Drop)]
pub(crate) struct Numbers {
    state: u64,
}

impl Numbers {
    /// Those behind this state.
    pub(crate) fn from_seed(state: u64) -> Numbers {
        Numbers { state }
    }

    /// The next one.
    pub(crate) fn next(&mut self) -> u32 {
        self.state = self
            .state
            .wrapping_mul(6_364_136_223_846_793_005)
            .wrapping_add(1_442_695_040_888_963_407);
        (self.state >> 33) as u32
    }
}

/// So many posts, by document, position and word.
pub(crate) fn posts(alloc: Global, count: u32, seed: u64) -> Result<Cols, Memory> {
    let mut numbers = Numbers::from_seed(seed);
    let mut posts = Cols::new(alloc);
    let mut post = Post {
        doc: 0,
        word: 0,
        pos: 0,
        score: 1,
    };
    let stride = DOCS / count.max(1);
    for _ in 0..count {
        post = next_post(post, numbers.next(), stride);
        posts.reserve(1)?;
        posts.push_reserved(post);
    }
    Ok(posts)
}

// The post behind one: in its document or up to two strides behind it, up to 16 positions on.
fn next_post(last: Post, number: u32, stride: u32) -> Post {
    let steps = (number % 4).saturating_sub(1);
    let doc = last.doc.saturating_add(steps.saturating_mul(stride));
    let pos = if doc == last.doc { last.pos } else { 0 };
    Post {
        doc,
        word: number / 64 % WORDS,
        pos: pos.saturating_add(1 + number / 4 % 16),
        score: 1,
    }
}

/// So many documents, from 0 on, with scores.
pub(crate) fn ranked(alloc: Global, count: u32, seed: u64) -> Result<Vec<Scored>, Memory> {
    let mut numbers = Numbers::from_seed(seed);
    let mut ranked = Vec::with_capacity(alloc, count as usize)?;
    for doc in 0..count {
        ranked.push(Scored {
            doc,
            score: numbers.next() % SCORES,
        })?;
    }
    Ok(ranked)
}
