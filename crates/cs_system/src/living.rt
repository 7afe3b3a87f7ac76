//! The numbers of the connections that are live.
ghost use Rattle.std.specs.Prelude.{◌≡◌, ℕ, ◌+◌, ◌<◌, [], vec_len, vec_capacity, nat_eq, IfOk, IfSome};
ghost use Rattle.std.specs.List.{list_any};
ghost use Rattle.std.specs.FinSet as set;
ghost use Rattle.cs_system.specs.Living.{live_of, AreBelow};

use std::alloc::{AllocError, Global};

/// None.
pub fn nobody(alloc: Global) -> Vec<u32>
    ensures none { result.items ≡ [] }
    ensures below { AreBelow 0 result.items }
{
    Vec::new(alloc)
}

/// None, with the memory for so many.
pub fn nobody_yet(alloc: Global, most: usize) -> Result<Vec<u32>, AllocError>
    ensures none { IfOk result (λ v. v.items ≡ []) }
    ensures below { IfOk result (λ v. AreBelow 0 v.items) }
{
    Vec::with_capacity(alloc, most)
}

/// Whether a connection is live.
pub fn lives(live: &Vec<u32>, number: u32) -> bool
    ensures { result ≡ set.contains (live_of live.now.items) number }
{
    is_among(live, number)
}

fn is_among(live: &Vec<u32>, number: u32) -> bool
    ensures { result ≡ list_any (λ y. nat_eq y number) live.now.items }
{
    live.contains(&number)
}

/// The number of the next connection, where there is room for one.
pub fn coming(live: &mut Vec<u32>, opened: u32, conns: u32) -> Option<u32>
    ensures room { IfSome result (λ n. (n ≡ opened) × (opened < conns) × (vec_len live.new < vec_capacity live.new)) }
    ensures same { live.new.items ≡ live.old.items }
{
    if opened < conns && live.reserve(1).is_ok() {
        Some(opened)
    } else {
        None
    }
}

/// Adds one that was opened.
pub fn welcome(live: &mut Vec<u32>, number: u32)
    requires { vec_len live.old < vec_capacity live.old }

    ensures live { live_of live.new.items ≡ set.insert (live_of live.old.items) number }
    ensures below { AreBelow number live.old.items → AreBelow (number + 1) live.new.items }
{
    live.push_reserved(number);
}

/// Takes one out.
pub fn forget(live: &mut Vec<u32>, number: u32)
    ensures live { live_of live.new.items ≡ set.remove (live_of live.old.items) number }
    ensures below { (n : ℕ) → AreBelow n live.old.items → AreBelow n live.new.items }
{
    live.retain(|n| *n != number);
}
