//! Bytes at places, as those of an index file.
ghost use Rattle.std.specs.Prelude.{◌≡◌, ℕ, List, Option, ◌+◌, ◌≤◌, length, IfOk, OnOk};
ghost use Rattle.std.specs.Option.{ForSome};
ghost use Rattle.cs_base.specs.outside.Causes.{Counted, ReadsWithin, Rose};
ghost use Rattle.cs_base.specs.outside.Outside.{part};

use crate::outside::Failed;

/// Bytes that are read in pieces. No call changes them.
pub trait Store {
    /// Its bytes, where it tells them.
    ghost bytes: { Self → Option (List ℕ) };

    /// A count of reads, which each call of `read_at` raises by one, up to the last value of u64.
    ghost reads: { Self → ℕ };

    /// A count of failures, which never falls, up to the last value of u64.
    ghost faults: { Self → ℕ };

    /// What no call changes beside that, as the files that are lent to it.
    ghost Lent: { Type 0 };

    /// That of this store.
    ghost lent: { Self → Lent };

    /// The number of its bytes.
    fn size(&mut self) -> Result<u64, Failed>
        ensures ok { ForSome (bytes self.old) (λ b. IfOk result (λ n. n ≡ length b)) }
        ensures same { bytes self.new ≡ bytes self.old }
        ensures lent { lent self.new ≡ lent self.old }
        ensures reads { reads self.new ≡ reads self.old }
        ensures counted { Counted (faults self.old) (faults self.new) result };

    /// Fills `out` with the bytes from `at`. Over a store that tells, the range lies within its bytes.
    fn read_at(&mut self, at: u64, out: &mut [u8]) -> Result<(), Failed>
        requires within { ForSome (bytes self.old) (λ b. at + length out.old ≤ length b) }

        ensures ok { ForSome (bytes self.old) (λ b. OnOk result (out.new ≡ part b at (length out.old))) }
        ensures same { bytes self.new ≡ bytes self.old }
        ensures lent { lent self.new ≡ lent self.old }
        ensures reads { ReadsWithin 1 (reads self.old) (reads self.new) }
        ensures rose { Rose (reads self.old) (reads self.new) }
        ensures counted { Counted (faults self.old) (faults self.new) result };
}
