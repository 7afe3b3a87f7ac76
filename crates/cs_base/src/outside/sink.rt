//! Where the program writes.
ghost use Rattle.std.specs.Prelude.{◌≡◌, List, ℕ, OnOk, OnErr, Option};
ghost use Rattle.cs_base.specs.outside.Causes.{Counted};
ghost use Rattle.cs_base.specs.outside.Outside.{Grew, GrewByPrefix};

use crate::outside::Failed;

/// Where the program writes, as standard output.
pub trait Sink {
    /// The bytes written so far, where it tells them.
    ghost written: { Self → Option (List ℕ) };

    /// A count of failures of `put`, which never falls, up to the last value of u64.
    ghost faults: { Self → ℕ };

    /// What no call changes beside that, as the files that are lent to it, but for its own.
    ghost Lent: { Type 0 } = { Unit {0} };

    /// That of this sink.
    ghost lent: { Self → Lent };

    /// Writes the bytes at the end. Where it fails, some first ones of them.
    fn put(&mut self, bytes: &[u8]) -> Result<(), Failed>
        ensures ok { OnOk result (Grew (written self.old) bytes.now (written self.new)) }
        ensures err { OnErr result (GrewByPrefix (written self.old) bytes.now (written self.new)) }
        ensures lent { lent self.new ≡ lent self.old }
        ensures counted { Counted (faults self.old) (faults self.new) result };
}
