//! The shortest run of words in which each part of a query has a mark, by one pass over the words.
ghost use Rattle.std.specs.Prelude.{◌≡◌, ◌≤◌, ◌<◌, ◌+◌, ◌^◌, IfOk, IfSome, fold, if◌then◌else◌, map, min, replicate};
ghost use Rattle.std.specs.Option.{option_map};
ghost use Rattle.cs_model_excerpts.specs.Runs.{has_mark_at, shortest};
ghost use Rattle.cs_more.specs.RunSearch.{better_run, seen_run, reach, shorter_run};

use cs_base::{Memory, Seq};
use std::alloc::Global;

/// A run of words.
#[derive(Clone, Copy, Debug, PartialEq, Eq)]
pub(crate) struct WordRun {
    /// The place of its first word, from 0.
    pub first: usize,
    /// The place of its last word.
    pub last: usize,
}

/// The shortest run of so many words in which each part has a mark, of those of one length the first; None where there
/// is none.
///
/// Of the runs that end with a word, the one that begins last is the shortest. It begins with the last word by which
/// every part has a mark, so that one number is kept for each part.
pub(crate) fn shortest_run(
    alloc: Global,
    parts: &[Seq<bool>],
    words: usize,
) -> Result<Option<WordRun>, Memory>
    requires few { words < 2 ^ 63 }

    ensures ok { IfOk result (λ o. option_map seen_run o ≡ shortest parts.now words) }
    ensures within { IfOk result (λ o. IfSome o (λ r. (r.first ≤ r.last) × (r.last < words))) }
{
    let mut reached = zeros(alloc, parts.len())?;
    let mut best = None;
    for last in 0..words {
        reach_on(&mut reached, parts, last);
        best = better_run(best, least(&reached, last + 1), last);
    }
    Ok(best)
}

fn zeros(alloc: Global, len: usize) -> Result<Vec<usize>, Memory>
    ensures { IfOk result (λ v. v.items ≡ replicate len 0) }
{
    let numbers = vec![in alloc; 0; len]?;
    Ok(numbers)
}

// One word further: each part that has a mark there is reached by it.
fn reach_on(reached: &mut Vec<usize>, parts: &[Seq<bool>], place: usize)
    requires reached { reached.old.items ≡ map (λ m. reach m place) parts.now }
    requires few { place < 2 ^ 63 }

    ensures { reached.new.items ≡ map (λ m. reach m (place + 1)) parts.now }
{
    for i in 0..parts.len() {
        reached[i] = reach_of(&parts[i], place, reached[i]);
    }
}

// How many words end with the last one up to a place that has a mark, where so many do before it.
fn reach_of(marks: &Seq<bool>, place: usize, before: usize) -> usize
    requires { place < 2 ^ 63 }

    ensures { result ≡ (if has_mark_at marks.now place then place + 1 else before) }
{
    match marks.as_slice().get(place) {
        Some(true) => place + 1,
        _ => before,
    }
}

// The least of some numbers and this one.
fn least(numbers: &[usize], most: usize) -> usize
    ensures { result ≡ fold min most numbers.now }
{
    let mut least = most;
    for number in numbers {
        least = least.min(*number);
    }
    least
}

// The better one of a run and that which begins before so many words and ends at a place, if there is one.
fn better_run(best: Option<WordRun>, start: usize, last: usize) -> Option<WordRun>
    requires start { start ≤ last + 1 }

    ensures { option_map seen_run result ≡ better_run (option_map seen_run best) start last }
{
    if start == 0 {
        return best;
    }
    let run = WordRun {
        first: start - 1,
        last,
    };
    match best {
        Some(old) => Some(shorter_run(old, run)),
        None => Some(run),
    }
}

// The shorter one of two runs, the first one where they have one length.
fn shorter_run(a: WordRun, b: WordRun) -> WordRun
    ensures { seen_run result ≡ shorter_run (seen_run a) (seen_run b) }
{
    if a.last.saturating_sub(a.first) <= b.last.saturating_sub(b.first) {
        a
    } else {
        b
    }
}
