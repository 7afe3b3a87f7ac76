//! The memory of four columns: one block, whose parts are lent to a vector each.
//!
//! A block for `cap` posts holds all documents, then all words, then all positions, then all
//! scores. Only the functions of this file and of `rooms` stand over raw memory.
ghost use Rattle.std.specs.Prelude.{◌≡◌, ℕ, ◌<◌};
ghost use base.Fml.{ftrue, fex, fsep, feq, fwand};
ghost use denote.RawPtr.{Ptr, InBlock};
ghost use Rattle.std_alloc.specs.Vec.{vec_len, vec_capacity, vec_ptr};
ghost use Rattle.cs_cols.specs.Block.{Extent, extent_code, rooms, block_cells};
ghost use Rattle.cs_cols.specs.Rooms.{LieAt};

use crate::rooms::{ByteRoom, NumberRoom};
use std::alloc::Global;
use std::fmt;
use std::marker::{Move, Owns};

// A block whose memory is out, as the rooms of four columns.
pub(crate) struct WaitingBlock {
    vec: Vec<u32, Global>,
}

impl Owns for WaitingBlock {
    ghost Value = { Extent };

    ghost coded = { extent_code };

    ghost shr_at = { λ _ _ _. ftrue };
}

impl Move for WaitingBlock {
    ghost own_val = { λ e vs. fex Inside (λ v. fsep (feq (Ptr × ℕ) (v.vec.ptr, v.vec.cap) (e.ptr, block_cells e.cap)) (fwand (rooms e.ptr e.cap) (Fields.own_val (record { vec = v.vec }) vs))) };
}

impl fmt::Debug for WaitingBlock {
    fn fmt<W: fmt::Write>(&self, f: &mut fmt::Formatter<W>) -> fmt::Result {
        f.write_str("WaitingBlock")
    }
}

// The rooms of the documents, words, positions and scores of `cap` posts, and the block that waits for them.
pub(crate) fn part_block(
    vec: Vec<u32, Global>,
    cap: usize,
) -> (NumberRoom, NumberRoom, NumberRoom, ByteRoom, WaitingBlock)
    requires { (vec_len vec ≡ 0) × (vec_capacity vec ≡ block_cells cap) × (0 < cap) }
    ensures { InBlock (vec_ptr vec) × LieAt (vec_ptr vec) cap result.0 result.1 result.2 result.3
        × (result.4.ptr ≡ vec_ptr vec) × (result.4.cap ≡ cap) }
{
    (
        NumberRoom {},
        NumberRoom {},
        NumberRoom {},
        ByteRoom {},
        WaitingBlock { vec },
    )
}

// The block whole again.
pub(crate) fn whole(
    docs: NumberRoom,
    words: NumberRoom,
    places: NumberRoom,
    scores: ByteRoom,
    block: WaitingBlock,
) -> Vec<u32, Global>
    requires { LieAt block.ptr block.cap docs words places scores }
    ensures { (vec_ptr result ≡ block.ptr) × (vec_capacity result ≡ block_cells block.cap) }
{
    let NumberRoom {} = docs;
    let NumberRoom {} = words;
    let NumberRoom {} = places;
    let ByteRoom {} = scores;
    let WaitingBlock { vec } = block;
    vec
}
