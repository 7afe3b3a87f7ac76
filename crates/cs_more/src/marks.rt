//! Which words of a text serve the parts of a query: a mark for each word.
ghost use Rattle.std.specs.Prelude.{◌≡◌, ◌<◌, ◌^◌, IfOk, false, length, map};
ghost use Rattle.std.specs.Str.{bytes_eq};
ghost use Rattle.cs_model.specs.Answers.{begins};
ghost use Rattle.cs_model_excerpts.specs.OwnWords.{atom_marks, chain_marks, either_marks, is_led, is_near_marked, is_neighbour, linked_marks, part_marks};
ghost use Rattle.cs_model_excerpts.specs.Runs.{has_mark_at};

use cs_base::{Atom, Chain, Link, MAX_DISTANCE, Memory, Part, Seq, Word};
use std::alloc::Global;

/// The words that a part serves: those of each of its alternatives.
pub(crate) fn part_marks(alloc: Global, words: &[Word], part: &Part) -> Result<Seq<bool>, Memory>
    requires few { length words.now < 2 ^ 32 }

    ensures ok { IfOk result (λ m. m ≡ part_marks words.now part.now) }
{
    let mut marks = no_marks(alloc, words)?;
    for chain in part.chains.as_slice() {
        let more = chain_marks(alloc, words, chain)?;
        marks = either_marks(alloc, &marks, &more)?;
    }
    Ok(Seq::from_vec(marks))
}

// The words that a chain serves.
fn chain_marks(alloc: Global, words: &[Word], chain: &Chain) -> Result<Vec<bool>, Memory>
    requires few { length words.now < 2 ^ 32 }

    ensures ok { IfOk result (λ v. v.items ≡ chain_marks words.now chain.now) }
{
    let mut kept = atom_marks(alloc, words, &chain.first)?;
    for linked in chain.rest.as_slice() {
        let next = atom_marks(alloc, words, &linked.atom)?;
        kept = linked_marks(alloc, linked.link, &kept, &next)?;
    }
    Ok(kept)
}

// The words that an atom asks for. A join's rows stand before all words, so it asks for none of them.
fn atom_marks(alloc: Global, words: &[Word], atom: &Atom) -> Result<Vec<bool>, Memory>
    ensures ok { IfOk result (λ v. v.items ≡ atom_marks words.now atom.now) }
    ensures len { IfOk result (λ v. length v.items ≡ length words.now) }
{
    match atom {
        Atom::Prefix(prefix) => prefix_marks(alloc, words, prefix.as_str().as_bytes()),
        Atom::Exact(word) => exact_marks(alloc, words, word.as_str().as_bytes()),
        Atom::Join { .. } => no_marks(alloc, words),
    }
}

// No mark for any word.
fn no_marks(alloc: Global, words: &[Word]) -> Result<Vec<bool>, Memory>
    ensures ok { IfOk result (λ v. v.items ≡ map (λ x. false) words.now) }
{
    let marks = vec![in alloc; false; words.len()]?;
    Ok(marks)
}

fn prefix_marks(alloc: Global, words: &[Word], prefix: &[u8]) -> Result<Vec<bool>, Memory>
    ensures ok { IfOk result (λ v. v.items ≡ map (begins prefix.now) words.now) }
{
    let mut marks = Vec::with_capacity(alloc, words.len())?;
    for word in words {
        marks.push(word.bytes().starts_with(prefix))?;
    }
    Ok(marks)
}

fn exact_marks(alloc: Global, words: &[Word], exact: &[u8]) -> Result<Vec<bool>, Memory>
    ensures ok { IfOk result (λ v. v.items ≡ map (λ x. bytes_eq x exact.now) words.now) }
{
    let mut marks = Vec::with_capacity(alloc, words.len())?;
    for word in words {
        marks.push(word.bytes() == exact)?;
    }
    Ok(marks)
}

// Of the marks `next` those to which the link leads from a kept one.
fn linked_marks(
    alloc: Global,
    link: Link,
    kept: &[bool],
    next: &[bool],
) -> Result<Vec<bool>, Memory>
    requires few { length next.now < 2 ^ 32 }

    ensures ok { IfOk result (λ v. v.items ≡ linked_marks link kept.now next.now) }
{
    let mut marks = Vec::with_capacity(alloc, next.len())?;
    for (place, mark) in next.iter().enumerate() {
        marks.push(*mark && is_led(link, kept, place))?;
    }
    Ok(marks)
}

fn is_led(link: Link, kept: &[bool], place: usize) -> bool
    requires few { place < 2 ^ 32 }

    ensures { result ≡ is_led link kept.now place }
{
    match link {
        Link::Phrase => place > 0 && has_mark_at(kept, place - 1),
        Link::Near => is_near_marked(kept, place),
    }
}

fn is_near_marked(kept: &[bool], place: usize) -> bool
    requires few { place < 2 ^ 32 }

    ensures { result ≡ is_near_marked kept.now place }
{
    let distance = MAX_DISTANCE as usize;
    let low = place.saturating_sub(distance);
    for i in low..low + (2 * distance + 1) {
        if is_neighbour(kept, place, i) {
            return true;
        }
    }
    false
}

// Whether the word at `i` has a mark, is another one, and isn't too far behind.
fn is_neighbour(kept: &[bool], place: usize, i: usize) -> bool
    requires few { place < 2 ^ 32 }

    ensures { result ≡ is_neighbour kept.now place i }
{
    i != place && i <= place + MAX_DISTANCE as usize && has_mark_at(kept, i)
}

// The words that have a mark in one of both lists.
fn either_marks(alloc: Global, a: &[bool], b: &[bool]) -> Result<Vec<bool>, Memory>
    ensures ok { IfOk result (λ v. v.items ≡ either_marks a.now b.now) }
{
    let mut marks = Vec::with_capacity(alloc, b.len())?;
    for (place, mark) in b.iter().enumerate() {
        marks.push(*mark || has_mark_at(a, place))?;
    }
    Ok(marks)
}

/// Whether the word at a place has a mark; one behind the last mark hasn't.
pub(crate) fn has_mark_at(marks: &[bool], place: usize) -> bool
    ensures { result ≡ has_mark_at marks.now place }
{
    match marks.get(place) {
        Some(mark) => *mark,
        None => false,
    }
}
