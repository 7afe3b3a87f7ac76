//! Posts of blocks in the order of a corpus.
ghost use Rattle.std.specs.Prelude.{◌≡◌, true, map, IfOk};
ghost use Rattle.std.specs.List.Sorted.{IsStrictlySortedBy};
ghost use Rattle.cs_base.specs.content.Members.{members_in};
ghost use Rattle.cs_build.specs.Joining.{by_numbers, place_post};

use cs_base::{Memory, Post};
use cs_cols::Cols;
use std::alloc::Global;

// A post with its numbers in the order in which they are compared.
#[derive(Clone, Copy, Debug, PartialEq, Eq, PartialOrd, Ord)]
struct Place {
    doc: u32,
    pos: u32,
    word: u32,
    score: u8,
}

/// The posts of each block by document, position and word, each once. A block that is in this order already isn't moved.
pub(crate) fn in_order_each(alloc: Global, blocks: Vec<Cols>) -> Result<Vec<Cols>, Memory>
    ensures { IfOk result (λ ordered. map (λ b. b.posts) ordered.items ≡ map (λ b. members_in by_numbers b.posts) blocks.items) }
{
    let mut ordered = Vec::with_capacity(alloc, blocks.len())?;
    for block in blocks {
        ordered.push(in_order(alloc, block)?)?;
    }
    Ok(ordered)
}

fn in_order(alloc: Global, block: Cols) -> Result<Cols, Memory>
    ensures { IfOk result (λ ordered. ordered.posts ≡ members_in by_numbers block.posts) }
{
    if are_sorted(&block) {
        return Ok(block);
    }
    let mut places = places_of(alloc, &block)?;
    places.sort()?;
    places.dedup();
    posts_at(alloc, &places)
}

// Whether each post comes before the next one.
fn are_sorted(block: &Cols) -> bool
    ensures { result ≡ true → IsStrictlySortedBy by_numbers block.now.posts }
{
    for i in 1..block.len() {
        if !block.get(i - 1).is_before(block.get(i)) {
            return false;
        }
    }
    true
}

fn places_of(alloc: Global, block: &Cols) -> Result<Vec<Place>, Memory>
    ensures { IfOk result (λ places. map place_post places.items ≡ block.now.posts) }
{
    let mut places = Vec::with_capacity(alloc, block.len())?;
    for i in 0..block.len() {
        let Post {
            doc,
            word,
            pos,
            score,
        } = block.get(i);
        places.push(Place {
            doc,
            pos,
            word,
            score,
        })?;
    }
    Ok(places)
}

fn posts_at(alloc: Global, places: &[Place]) -> Result<Cols, Memory>
    ensures { IfOk result (λ block. block.posts ≡ map place_post places.now) }
{
    let mut block = Cols::with_capacity(alloc, places.len())?;
    for place in places {
        block.push_reserved(Post {
            doc: place.doc,
            word: place.word,
            pos: place.pos,
            score: place.score,
        });
    }
    Ok(block)
}
