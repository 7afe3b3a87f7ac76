//! Which blocks of an opened index hold some words.
ghost use Rattle.std.specs.Prelude.{◌≡◌, ◌+◌, ◌≤◌, length, nat_le, nat_lt};
ghost use Rattle.cs_file.specs.Indexes.{AreMet};

use crate::index::Index;
use cs_base::BlockHead;

impl Index {
    /// The blocks that hold a word from number `lo` up to `hi`, which is left out: from the first number up to
    /// the second, which is left out.
    pub fn blocks(&self, lo: u32, hi: u32) -> (u32, u32)
        requires ordered { lo ≤ hi }
        requires within { hi ≤ length self.now.words }

        ensures { AreMet self.now.heads lo hi result.0 result.1 }
    {
        if lo == hi {
            return (0, 0);
        }
        let heads = self.heads.as_slice();
        let first = heads.partition_point(|head| ends_by(head, lo));
        let last = heads.partition_point(|head| begins_before(head, hi));
        (first as u32, last as u32)
    }
}

// Whether each word of the block is before word `n`.
fn ends_by(head: &BlockHead, n: u32) -> bool
    ensures { result ≡ nat_le (head.now.lo + head.now.words) n }
{
    u64::from(head.lo) + u64::from(head.words) <= u64::from(n)
}

// Whether the block's first word is before word `n`.
fn begins_before(head: &BlockHead, n: u32) -> bool
    ensures { result ≡ nat_lt head.now.lo n }
{
    head.lo < n
}
