//! Where blocks lie, one behind the other.
ghost use Rattle.std.specs.Prelude.{◌<◌, ◌^◌, IfOk};
ghost use Rattle.std.specs.List.{sum_by};
ghost use Rattle.cs_file.specs.Indexes.{ArePlaces};

use cs_base::{BlockHead, Memory, Seq};
use std::alloc::Global;

/// The place of each block, in bytes from the first block's. It takes 4 bytes a block.
pub(crate) fn places_of(alloc: Global, heads: &[BlockHead]) -> Result<Seq<u32>, Memory>
    requires { sum_by (λ h. h.len) heads.now < 2 ^ 32 }

    ensures { IfOk result (ArePlaces heads.now) }
{
    let mut places = Vec::with_capacity(alloc, heads.len())?;
    let mut at: u32 = 0;
    for head in heads {
        places.push(at)?;
        at += head.len;
    }
    Ok(Seq::from_vec(places))
}
