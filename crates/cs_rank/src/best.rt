//! A bounded list of the best documents.
ghost use Rattle.std.specs.Prelude.{◌≡◌, ℕ, true, false, List, ◌+◌, ◌-◌, ◌<◌, ◌≤◌, [], ◌∷◌, ◌++◌, length, insert, slice_index_or};
ghost use Rattle.std.specs.Prelude.{IfOk, OnOk, OnErr, MatchOption, Some, All};
ghost use Rattle.std.specs.Vec.{vec_len, vec_capacity};
ghost use Rattle.cs_base.specs.content.Orders.{by_rank};
ghost use Rattle.cs_base.specs.declared.content.doc.Scored.{Scored};
ghost use Rattle.cs_rank.specs.Kept.{IsFull, Takes, TakesAll, is_behind, first_of};
ghost use Rattle.cs_rank.specs.declared.best.TheConstants.{MAX_ROOM};

use cs_base::{MAX_OFFSET, MAX_SHOWN, Memory, Scored};
use std::alloc::Global;
use std::marker::Model;

/// The most documents that a list keeps: those that a request leaves out in front, and those that it shows.
pub const MAX_ROOM: usize = MAX_OFFSET as usize + MAX_SHOWN as usize;

// So many entries are looked at together.
const SPAN: usize = 64;

/// The best of the documents that were offered, best first.
#[derive(Debug, Drop)]
pub struct Best {
    room: usize,
    // has memory for `room` at least
    list: Vec<Scored>,
}

impl Model for Best {
    ghost use Rattle.std.specs.Prelude.{◌≡◌, ◌≤◌};
    ghost use Rattle.std.specs.Vec.{vec_capacity};
    ghost use Rattle.cs_rank.specs.Kept.{Ranked, first_of};

    ghost Value = { Ranked };

    ghost view = { λ b. record { list = b.list.items; room = b.room } };

    ghost invariant = { λ b. (b.list.items ≡ first_of b.room b.list.items) × (b.room ≤ vec_capacity b.list) };
}

impl Best {
    /// Of no documents, with memory for the best `room`; `Memory` where that isn't had.
    pub fn new(alloc: Global, room: usize) -> Result<Best, Memory>
        requires { room ≤ MAX_ROOM }

        ensures { IfOk result (λ b. (b.list ≡ []) × (b.room ≡ room)) }
    {
        Best::with_room(alloc, room)
    }

    // The same for any room: `offer` moves up to so many entries.
    pub(crate) fn with_room(alloc: Global, room: usize) -> Result<Best, Memory>
        ensures { IfOk result (λ b. (b.list ≡ []) × (b.room ≡ room)) }
    {
        let list = Vec::with_capacity(alloc, room)?;
        Ok(Best { room, list })
    }

    /// The best documents, best first.
    pub fn list(&self) -> &[Scored]
        ensures value { result.now ≡ self.now.list }
        ensures order { self.now.list ≡ first_of self.now.room self.now.list }
    {
        self.list.as_slice()
    }

    /// How many documents are kept at most.
    pub fn room(&self) -> usize
        ensures { result ≡ self.now.room }
    {
        self.room
    }

    /// Puts one more document in its place; where there are more than `room` now, the last is let go. It
    /// takes no memory. A document that stands there with the same score is not put twice.
    pub fn offer(&mut self, s: Scored)
        ensures list { self.new.list ≡ first_of self.old.room (self.old.list ++ s ∷ []) }
        ensures room { self.new.room ≡ self.old.room }
    {
        let Err(place) = self.list.binary_search(&s) else {
            return;
        };
        if place >= self.room {
            return;
        }
        if self.list.len() == self.room {
            self.list.pop();
        }
        put(&mut self.list, place, s);
    }

    /// Offers each of these documents, with as little moving as sorting takes.
    pub(crate) fn offer_all(&mut self, scored: &[Scored]) -> Result<(), Memory>
        ensures ok { OnOk result (self.new.list ≡ first_of self.old.room (self.old.list ++ scored.now)) }
        ensures err { OnErr result (self.new.list ≡ self.old.list) }
        ensures room { self.new.room ≡ self.old.room }
    {
        if self.room == 0 {
            return Ok(());
        }
        self.list.reserve(self.room + self.room)?;
        sift(&mut self.list, self.room, scored);
        prune(&mut self.list, self.room);
        Ok(())
    }
}

// Puts an entry in a list that has memory for it.
fn put(list: &mut Vec<Scored>, place: usize, s: Scored)
    requires place { place ≤ vec_len list.old }
    requires space { vec_len list.old < vec_capacity list.old }

    ensures items { list.new.items ≡ insert list.old.items place s }
    ensures capacity { vec_capacity list.old ≤ vec_capacity list.new }
{
    match list.insert(place, s) {
        Ok(()) => (),
        Err(_) => unreachable!(),
    }
}

// Adds what may be among the first `room`.
fn sift(kept: &mut Vec<Scored>, room: usize, scored: &[Scored])
    requires some { 0 < room }
    requires few { vec_len kept.old ≤ room }
    requires space { room + room ≤ vec_capacity kept.old }

    ensures kept { first_of room kept.new.items ≡ first_of room (kept.old.items ++ scored.now) }
    ensures capacity { vec_capacity kept.new ≡ vec_capacity kept.old }
{
    let mut worst = None;
    let mut from = 0;
    while from < scored.len() {
        let to = from + SPAN.min(scored.len() - from);
        worst = sift_span(kept, room, worst, &scored[from..to]);
        from = to;
    }
}

// Adds what may be among the first `room` of a few entries: nothing where each of them may be let go. The answer is the worst then.
fn sift_span(
    kept: &mut Vec<Scored>,
    room: usize,
    worst: Option<Scored>,
    span: &[Scored],
) -> Option<Scored>
    requires some { 0 < room }
    requires few { vec_len kept.old < room + room }
    requires space { room + room ≤ vec_capacity kept.old }

    ensures takes { TakesAll span.now room kept.old.items worst kept.new.items result }
    ensures few { vec_len kept.new < room + room }
    ensures capacity { vec_capacity kept.new ≡ vec_capacity kept.old }
{
    if are_beaten(span, &worst) {
        return worst;
    }
    let mut last = worst;
    for s in span {
        if !is_beaten(s, &last) {
            last = keep(kept, room, last, *s);
        }
    }
    last
}

// Adds one entry, which isn't behind the worst. Once twice as many as `room` are kept, the first `room` alone
// stay, and the answer is the last of these.
fn keep(kept: &mut Vec<Scored>, room: usize, worst: Option<Scored>, s: Scored) -> Option<Scored>
    requires near { is_behind s worst ≡ false }
    requires some { 0 < room }
    requires few { vec_len kept.old < room + room }
    requires space { room + room ≤ vec_capacity kept.old }

    ensures takes { Takes s room kept.old.items worst kept.new.items result }
    ensures few { vec_len kept.new < room + room }
    ensures capacity { vec_capacity kept.new ≡ vec_capacity kept.old }
{
    kept.push_reserved(s);
    if kept.len() == room + room {
        return prune(kept, room);
    }
    worst
}

// Whether an entry isn't before the last of `room` better ones: it may be let go.
#[inline]
fn is_beaten(s: &Scored, worst: &Option<Scored>) -> bool
    ensures value { result ≡ is_behind s.now worst.now }
    ensures let_go { result ≡ true → (room : ℕ) (kept : List Scored) → Takes s.now room kept worst.now kept worst.now }
{
    match worst {
        Some(worst) => !s.cmp(worst).is_lt(),
        None => false,
    }
}

// Whether each of some entries may be let go.
#[inline]
fn are_beaten(span: &[Scored], worst: &Option<Scored>) -> bool
    ensures { result ≡ true → All (λ s. is_behind s worst.now ≡ true) span.now }
{
    match worst {
        Some(worst) => are_behind(span, *worst),
        None => false,
    }
}

// Whether each of some entries comes behind this one, or is it. Each is looked at, without a jump, so that many are at once.
fn are_behind(span: &[Scored], worst: Scored) -> bool
    ensures { result ≡ true → All (λ s. is_behind s (Some worst) ≡ true) span.now }
{
    let mut behind = true;
    for s in span {
        behind &= (s.score < worst.score) | ((s.score == worst.score) & (worst.doc <= s.doc));
    }
    behind
}

// Keeps the first `room` alone, in order, and answers the last of them where they are so many.
fn prune(kept: &mut Vec<Scored>, room: usize) -> Option<Scored>
    ensures kept { kept.new.items ≡ first_of room kept.old.items }
    ensures worst { MatchOption result (Unit {0}) (λ w. IsFull by_rank room w kept.new.items) }
    ensures few { vec_len kept.new ≤ room }
    ensures capacity { vec_capacity kept.new ≡ vec_capacity kept.old }
{
    kept.sort_unstable();
    kept.dedup();
    kept.truncate(room);
    last_of(kept.as_slice(), room)
}

// The last of exactly so many.
fn last_of(kept: &[Scored], room: usize) -> Option<Scored>
    ensures { MatchOption result (Unit {0}) (λ w. (length kept.now ≡ room) × (0 < room) × (w ≡ slice_index_or kept.now (room - 1) w)) }
{
    if room > 0 && kept.len() == room {
        Some(kept[room - 1])
    } else {
        None
    }
}
