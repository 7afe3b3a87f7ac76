//! The hits that are shown.
ghost use Rattle.std.specs.Prelude.{◌≡◌, IfOk, take, drop};
ghost use Rattle.cs_base.specs.content.Members.{members_in};
ghost use Rattle.cs_base.specs.content.Orders.{by_rank};

use crate::best::Best;
use cs_base::{Memory, Scored, Seq};
use std::alloc::Global;

/// The documents by score descending, then by number, without the first `o`, cut to `h`.
///
/// A document that stands twice with one score counts once. Besides `scored` at most twice `o + h` documents
/// are held.
pub fn top(alloc: Global, scored: &[Scored], o: u32, h: u32) -> Result<Seq<Scored>, Memory>
    ensures ok { IfOk result (λ v. v ≡ take h (drop o (members_in by_rank scored.now))) }
{
    let room = scored.len().min(o as usize + h as usize);
    let mut best = Best::with_room(alloc, room)?;
    best.offer_all(scored)?;
    let shown = Vec::from_slice(alloc, without_first(best.list(), o as usize))?;
    Ok(Seq::from_vec(shown))
}

fn without_first(list: &[Scored], o: usize) -> &[Scored]
    ensures { result.now ≡ drop o list.now }
{
    &list[o.min(list.len())..]
}
