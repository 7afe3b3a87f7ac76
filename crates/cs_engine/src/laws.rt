//! What is held at most, as it is promised. The function does nothing: its contract is what is said.
ghost use Rattle.std.specs.Prelude.{◌≡◌, ◌*◌, ◌^◌};

use crate::held::MAX_HELD_BYTES;

/// The limit of all ranges of words that are held, in bytes: 240 MiB.
pub fn held_limit()
    ensures held_bytes { MAX_HELD_BYTES ≡ 240 * 2 ^ 20 }
{}
