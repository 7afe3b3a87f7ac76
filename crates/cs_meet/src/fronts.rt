//! The fronts of lists that are merged, as numbers in a tree whose root is the least of them.
ghost use Rattle.std.specs.Prelude.{◌≡◌, ◌≢◌, ℕ, ◌+◌, ◌*◌, ◌%◌, ◌/◌, ◌<◌, ◌≤◌, length, map, min, slice_index, IfOk};
ghost use Rattle.cs_base.specs.declared.content.doc.Post.{Post};
ghost use Rattle.cs_meet.specs.Fronts.{AreFronts, IsFrontAt, IsFrontNumber, IsTree};

use cs_base::{Memory, Post};
use cs_cols::Cols;
use std::alloc::Global;

// How many numbers a document, a position, a word and a list may have.
const ROOM: u128 = 1 << 32;

/// What stands in place of a front where all posts of a list are taken. No front has this number.
pub(crate) const NO_FRONT: u128 = u128::MAX;

/// So many lists may be merged: no list of theirs has the number that `NO_FRONT` tells.
pub(crate) const MOST_LISTS: usize = u32::MAX as usize;

/// The tree of the fronts of some lists of which nothing is taken.
pub(crate) fn first_fronts(alloc: Global, lists: &[Cols]) -> Result<Vec<u128>, Memory>
    requires { length lists.now ≤ MOST_LISTS }

    ensures tree { IfOk result (λ t. IsTree (length lists.now) t.items) }
    ensures fronts { IfOk result (λ t. AreFronts (length lists.now) (map (λ c. c.posts) lists.now) (λ k. 0) t.items) }
{
    let mut tree = vec![in alloc; NO_FRONT; 2 * lists.len()]?;
    for number in 0..lists.len() {
        let front = front_at(&lists[number], 0, number);
        put_front(&mut tree, lists.len(), number, front);
    }
    Ok(tree)
}

/// The front of a list, of which so many posts are taken.
#[inline]
pub(crate) fn front_at(list: &Cols, head: usize, number: usize) -> u128
    requires { number < MOST_LISTS }

    ensures { IsFrontAt list.now.posts head number result }
{
    if head < list.len() {
        front_number(list.get(head), number)
    } else {
        NO_FRONT
    }
}

// The number of a post at the front of a list.
#[inline]
fn front_number(post: Post, number: usize) -> u128
    requires { number < MOST_LISTS }

    ensures { IsFrontNumber post number result }
{
    let spot = u128::from(post.doc) * ROOM + u128::from(post.pos);
    let place = spot * ROOM + u128::from(post.word);
    place * ROOM + number as u128
}

/// The number of the list that a front is of.
#[inline]
pub(crate) fn list_of_front(front: u128) -> usize
    ensures { result ≡ front % ROOM }
{
    (front % ROOM) as usize
}

/// A number of the place of a front's post.
#[inline]
pub(crate) fn place_of_front(front: u128) -> u128
    ensures { result ≡ front / ROOM }
{
    front / ROOM
}

/// Puts another front in the place of that of list `number`, of so many lists.
#[inline]
pub(crate) fn put_front(tree: &mut Vec<u128>, lists: usize, number: usize, front: u128)
    requires tree { IsTree lists tree.old.items }
    requires known { number < lists }

    ensures tree { IsTree lists tree.new.items }
    ensures put { slice_index tree.new.items (lists + number) ≡ front }
    ensures others { (k : ℕ) → k < lists → k ≢ number → slice_index tree.new.items (lists + k) ≡ slice_index tree.old.items (lists + k) }
{
    let mut at = lists + number;
    tree[at] = front;
    while at > 1 {
        let lesser = lesser_place(tree, at);
        at /= 2;
        tree[at] = tree[lesser];
    }
}

// Of a place and the one that goes with it to the place before them, that of the lesser number; where both are equal the first. Which one it
// is decides no jump, as it couldn't be foreseen.
#[inline]
fn lesser_place(tree: &[u128], at: usize) -> usize
    requires some { 2 ≤ at }
    requires pair { 2 * (at / 2) + 1 < length tree.now }

    ensures pair { result / 2 ≡ at / 2 }
    ensures known { result < length tree.now }
    ensures least { slice_index tree.now result ≡ min (slice_index tree.now (2 * (at / 2))) (slice_index tree.now (2 * (at / 2) + 1)) }
{
    let even = 2 * (at / 2);
    even + usize::from(tree[even + 1] < tree[even])
}
