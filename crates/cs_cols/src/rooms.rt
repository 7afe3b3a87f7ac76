//! Memory for one column, and the column that lies in it.
ghost use Rattle.std.specs.Prelude.{◌≡◌, ◌*◌, ◌^◌, ◌<◌, [], ℕ};
ghost use denote.RawPtr.{Ptr, room_for};
ghost use Rattle.std_alloc.specs.Vec.{vec_len, vec_capacity, vec_ptr};
ghost use Rattle.cs_cols.specs.Block.{number_column, byte_column};

use std::marker::Model;
use std_alloc::vec::{Lodged, lodge};

// Memory for `cap` numbers at `ptr`, whatever lies there.
pub(crate) struct NumberRoom {
    ghost ptr: { Ptr },
    ghost cap: { ℕ },
}

impl Model for NumberRoom {
    ghost also_owns = { λ r. room_for (number_column r.cap) r.ptr };
}

// Memory for `cap` bytes at `ptr`, whatever lies there.
pub(crate) struct ByteRoom {
    ghost ptr: { Ptr },
    ghost cap: { ℕ },
}

impl Model for ByteRoom {
    ghost also_owns = { λ r. room_for (byte_column r.cap) r.ptr };
}

// An empty column of numbers in this room, which neither grows nor frees it.
pub(crate) fn house_numbers(ptr: *mut u32, cap: usize, room: NumberRoom) -> Vec<u32, Lodged>
    requires { (room.ptr ≡ ptr) × (room.cap ≡ cap) × (0 < cap) × (cap * 4 < 2 ^ 63) }
    ensures { (result.items ≡ []) × (vec_len result ≡ 0) × (vec_capacity result ≡ cap) × (vec_ptr result ≡ ptr) }
{
    let NumberRoom {} = room;
    unsafe { lodge(ptr, 0, cap) }
}

// An empty column of bytes in this room.
pub(crate) fn house_bytes(ptr: *mut u32, cap: usize, room: ByteRoom) -> Vec<u8, Lodged>
    requires { (room.ptr ≡ ptr) × (room.cap ≡ cap) × (0 < cap) × (cap < 2 ^ 63) }
    ensures { (result.items ≡ []) × (vec_len result ≡ 0) × (vec_capacity result ≡ cap) × (vec_ptr result ≡ ptr) }
{
    let ByteRoom {} = room;
    unsafe { lodge(ptr as *mut u8, 0, cap) }
}

// The room of a column of numbers, with which its entries are forgotten.
pub(crate) fn vacate_numbers(vec: Vec<u32, Lodged>) -> NumberRoom
    requires { 0 < vec_capacity vec }
    ensures { (result.ptr ≡ vec_ptr vec) × (result.cap ≡ vec_capacity vec) }
{
    let _len = vec.dislodge();
    NumberRoom {}
}

// The room of a column of bytes.
pub(crate) fn vacate_bytes(vec: Vec<u8, Lodged>) -> ByteRoom
    requires { 0 < vec_capacity vec }
    ensures { (result.ptr ≡ vec_ptr vec) × (result.cap ≡ vec_capacity vec) }
{
    let _len = vec.dislodge();
    ByteRoom {}
}
