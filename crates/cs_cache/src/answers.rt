//! `Answers` and its calls.
ghost use Rattle.std.specs.Prelude.{◌≡◌, ◌≤◌, ◌∷◌, [], Some, false, take, option_copied, IsSome, IfSome, IfOk};
ghost use Rattle.cs_model_kept.specs.KeptList.{extend_or_fresh, is_held, kept_fresh, plan_by, put_in_front, to_front, used_entry, used_key};
ghost use Rattle.cs_cache.specs.AnswerList.{answer_list};

use crate::Entry;
use crate::slots::{self, Slots};
use cs_base::{Base, Kept, Key, Keys, Memory, Plan};
use cs_cols::Cols;
use cs_model_kept::{MAX_ENTRIES, MAX_ENTRY_SIZE};
use lru::LruCache;
use std::alloc::Global;
use std::marker::Model;
use std::num::NonZeroUsize;

/// Kept entries under the keys of their queries, the one used last in front, and how many there may be.
#[derive(Drop)]
pub struct Answers {
    slots: Slots,
}

/// A kept entry, lent.
#[derive(Clone, Copy)]
pub struct View<'a> {
    /// The hits from which its query's last part goes on.
    pub base: &'a Base,
    /// The rows of that part in them.
    pub rows: &'a Cols,
}

impl Model for Answers {
    ghost use Rattle.cs_cache.specs.AnswerList.{AnswerList, answer_list};
    ghost use Rattle.cs_cache.specs.Slots.{AreSlots, entries_in};

    ghost Value = { AnswerList };

    ghost view = { λ a. answer_list (entries_in a.slots.entries) a.slots.cap };

    ghost invariant = { λ a. AreSlots a.slots.entries a.slots.cap };
}

impl Answers {
    /// No entries, and room for so many. All memory that is ever taken is taken here.
    pub fn new(alloc: Global, capacity: usize) -> Result<Answers, Memory>
        requires some { 1 ≤ capacity }
        requires limit { capacity ≤ MAX_ENTRIES }

        ensures ok { IfOk result (λ a. a ≡ answer_list [] capacity) }
    {
        let room = NonZeroUsize::new(capacity).unwrap();
        let mut slots = LruCache::new(alloc, room)?;
        for slot in 0..capacity {
            slots.put(slot, None)?;
        }
        Ok(Answers { slots })
    }

    /// From which entry a query with these keys is answered. The list stays as it is.
    pub fn look(&self, keys: &Keys) -> Plan
        ensures { result ≡ plan_by self.now.entries keys.now }
    {
        if self.holds(&keys.same) {
            return Plan::Same;
        }
        for narrower in keys.narrow.as_slice() {
            if self.holds(&narrower.key) {
                return Plan::Narrow { cut: narrower.cut };
            }
        }
        self.extend_or_fresh(keys)
    }

    /// The entry that the plan uses comes to the front, and the others stay in their order. A plan that uses none changes nothing.
    pub fn resume(&mut self, keys: &Keys, plan: Plan)
        ensures entries { self.new.entries ≡ to_front self.old.entries (used_key keys.now plan) }
        ensures capacity { self.new.capacity ≡ self.old.capacity }
    {
        if let Some(key) = key_of_plan(keys, plan) {
            self.bring_to_front(key);
        }
    }

    /// Lends the entry that the plan uses, without a copy.
    pub fn view(&self, keys: &Keys, plan: Plan) -> View<'_>
        requires held { IsSome (used_entry self.now.entries keys.now plan) }

        ensures base { IfSome (used_entry self.now.entries keys.now plan) (λ e. result.base.now ≡ e.1.base) }
        ensures rows { IfSome (used_entry self.now.entries keys.now plan) (λ e. result.rows.now.posts ≡ e.1.rows) }
    {
        let Some(key) = key_of_plan(keys, plan) else {
            unreachable!();
        };
        match slots::entry_of_key(&self.slots, key) {
            Some(entry) => View {
                base: &entry.base,
                rows: &entry.rows,
            },
            None => unreachable!(),
        }
    }

    /// Puts an entry in front, under a key that isn't held, and where the list was full drops the last one. An entry that is too
    /// large is dropped itself, and the list stays as it is.
    pub fn keep(&mut self, key: Key, entry: Entry) -> Kept
        requires new { is_held self.old.entries key ≡ false }

        ensures kept { result ≡ kept_fresh entry }
        ensures entries { self.new.entries ≡ put_in_front self.old.capacity result (key, entry) self.old.entries }
        ensures capacity { self.new.capacity ≡ self.old.capacity }
    {
        if entry.size() > MAX_ENTRY_SIZE {
            return Kept::TooLarge;
        }
        self.put_first(key, entry);
        Kept::Kept
    }

    /// No entries, and room for as many as before. No memory is taken.
    pub fn clear(&mut self)
        ensures { self.new ≡ answer_list [] self.old.capacity }
    {
        slots::empty(&mut self.slots);
    }

    fn holds(&self, key: &Key) -> bool
        ensures { result ≡ is_held self.now.entries key.now }
    {
        slots::entry_of_key(&self.slots, key).is_some()
    }

    fn extend_or_fresh(&self, keys: &Keys) -> Plan
        ensures { result ≡ extend_or_fresh self.now.entries keys.now.extend }
    {
        match &keys.extend {
            Some(key) if self.holds(key) => Plan::Extend,
            _ => Plan::Fresh,
        }
    }

    fn bring_to_front(&mut self, key: &Key)
        ensures entries { self.new.entries ≡ to_front self.old.entries (Some key.now) }
        ensures capacity { self.new.capacity ≡ self.old.capacity }
    {
        // the count says that no two slots have one number
        let _count = self.slots.len();
        if let Some(slot) = slots::slot_of_key(&self.slots, key) {
            self.slots.promote(&slot);
        }
    }

    // Over the slot used longest ago, so that no memory is needed.
    fn put_first(&mut self, key: Key, entry: Entry)
        requires new { is_held self.old.entries key ≡ false }

        ensures entries { self.new.entries ≡ take self.old.capacity ((key, entry) ∷ self.old.entries) }
        ensures capacity { self.new.capacity ≡ self.old.capacity }
    {
        let _count = self.slots.len();
        let Some((slot, _)) = self.slots.peek_lru() else {
            unreachable!();
        };
        let slot = *slot;
        match self.slots.put(slot, Some((key, entry))) {
            Ok(_) => (),
            Err(_) => unreachable!(),
        }
    }
}

// The key of the entry that a plan uses.
fn key_of_plan(keys: &Keys, plan: Plan) -> Option<&Key>
    ensures { option_copied result ≡ used_key keys.now plan }
{
    match plan {
        Plan::Same => Some(&keys.same),
        Plan::Narrow { cut } => key_of_cut(keys, cut),
        Plan::Extend => keys.extend.as_ref(),
        Plan::Fresh => None,
    }
}

// The key of the query whose last prefix has so many bytes.
fn key_of_cut(keys: &Keys, cut: u32) -> Option<&Key>
    ensures { option_copied result ≡ used_key keys.now (Plan.Narrow cut) }
{
    for narrower in keys.narrow.as_slice() {
        if narrower.cut == cut {
            return Some(&narrower.key);
        }
    }
    None
}
