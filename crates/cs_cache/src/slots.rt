//! The slots in which kept entries lie, and the looking for one by its key.
ghost use Rattle.std.specs.Prelude.{◌≡◌, ◌≤◌, None, [], length, IfSome, IfNone, option_copied, option_map};
ghost use Rattle.cs_model_kept.specs.KeptList.{found};
ghost use Rattle.cs_cache.specs.Slots.{IsLastEmptied, IsSlotOf, entries_in, has_key};

use crate::Entry;
use cs_base::Key;
use lru::LruCache;

/// Slots by their numbers, the one used last in front, each with an entry and its key or empty.
pub(crate) type Slots = LruCache<usize, Option<(Key, Entry)>>;

/// The entry of a key.
pub(crate) fn entry_of_key<'a>(slots: &'a Slots, key: &Key) -> Option<&'a Entry>
    ensures { option_copied result ≡ option_map (λ e. e.1) (found (entries_in slots.now.entries) key.now) }
{
    for (_, filled) in slots {
        if let Some((held, entry)) = filled
            && held == key
        {
            return Some(entry);
        }
    }
    None
}

/// The slot of a key's entry.
pub(crate) fn slot_of_key(slots: &Slots, key: &Key) -> Option<usize>
    ensures found { IfSome result (IsSlotOf key.now slots.now.entries) }
    ensures none { IfNone result (found (entries_in slots.now.entries) key.now ≡ None) }
{
    for (slot, filled) in slots {
        if has(filled, key) {
            return Some(*slot);
        }
    }
    None
}

/// Empties each slot, without taking memory.
pub(crate) fn empty(slots: &mut Slots)
    ensures entries { entries_in slots.new.entries ≡ [] }
    ensures count { length slots.new.entries ≡ length slots.old.entries }
    ensures capacity { slots.new.cap ≡ slots.old.cap }
{
    for _emptied in 0..slots.len() {
        empty_last(slots);
    }
}

// Empties the slot used longest ago, which comes to the front. It is written over, so that no memory is needed.
fn empty_last(slots: &mut Slots)
    requires some { 1 ≤ length slots.old.entries }

    ensures emptied { IsLastEmptied slots.old.entries slots.new.entries }
    ensures capacity { slots.new.cap ≡ slots.old.cap }
{
    // the count says that no two slots have one number
    let _count = slots.len();
    let Some((slot, _)) = slots.peek_lru() else {
        unreachable!();
    };
    let slot = *slot;
    match slots.put(slot, None) {
        Ok(_) => (),
        Err(_) => unreachable!(),
    }
}

// The slot holds the entry of this key.
fn has(filled: &Option<(Key, Entry)>, key: &Key) -> bool
    ensures { result ≡ has_key key.now filled.now }
{
    match filled {
        Some((held, _)) => held == key,
        None => false,
    }
}
