//! Files by their names.
ghost use Rattle.std.specs.Prelude.{◌≡◌, ◌⊎◌, ℕ, ◌+◌, length, take, IfOk, OnOk, OnErr, Option};
ghost use Rattle.std.specs.Option.{ForSome};
ghost use Rattle.std.specs.FinMap as map;
ghost use Rattle.cs_base.specs.outside.Causes.{Counted};
ghost use Rattle.cs_base.specs.outside.Outside.{Held, Covers, IsHeld, size_of, part, bytes_of, Sets, empty_file, appended, finished};

use crate::outside::Failed;

/// Files by their names.
pub trait Files {
    /// The files that are held, where it tells them.
    ghost held: { Self → Option Held };

    /// A count of failures, which never falls, up to the last value of u64.
    ghost faults: { Self → ℕ };

    /// The number of a file's bytes; None where no such name is held.
    fn size(&mut self, name: &str) -> Result<Option<u64>, Failed>
        ensures ok { ForSome (held self.old) (λ h. IfOk result (λ n. n ≡ size_of (map.get h name.now))) }
        ensures same { held self.new ≡ held self.old }
        ensures counted { Counted (faults self.old) (faults self.new) result };

    /// Fills `out` with the bytes from `at`. Over files that tell, the range lies within a held file.
    fn read_at(&mut self, name: &str, at: u64, out: &mut [u8]) -> Result<(), Failed>
        requires within { ForSome (held self.old) (λ h. Covers (map.get h name.now) (at + length out.old)) }

        ensures ok { ForSome (held self.old) (λ h. OnOk result (out.new ≡ part (bytes_of (map.get h name.now)) at (length out.old))) }
        ensures same { held self.new ≡ held self.old }
        ensures counted { Counted (faults self.old) (faults self.new) result };

    /// Makes the name hold no bytes. Where it fails, the name is as before or holds no bytes.
    fn create(&mut self, name: &str) -> Result<(), Failed>
        ensures ok { OnOk result (Sets (held self.old) name.now (λ _. empty_file) (held self.new)) }
        ensures err { OnErr result ((held self.new ≡ held self.old) ⊎ Sets (held self.old) name.now (λ _. empty_file) (held self.new)) }
        ensures counted { Counted (faults self.old) (faults self.new) result };

    /// Adds bytes at the end of a held file, which isn't finished then. Where it fails, some first ones of them.
    fn append(&mut self, name: &str, bytes: &[u8]) -> Result<(), Failed>
        requires is_held { ForSome (held self.old) (λ h. IsHeld (map.get h name.now)) }

        ensures ok { OnOk result (Sets (held self.old) name.now (appended bytes.now) (held self.new)) }
        ensures err { OnErr result ((k : ℕ) × Sets (held self.old) name.now (appended (take k bytes.now)) (held self.new)) }
        ensures counted { Counted (faults self.old) (faults self.new) result };

    /// Marks a held file as finished. Where it fails, nothing changed.
    fn finish(&mut self, name: &str) -> Result<(), Failed>
        requires is_held { ForSome (held self.old) (λ h. IsHeld (map.get h name.now)) }

        ensures ok { OnOk result (Sets (held self.old) name.now finished (held self.new)) }
        ensures err { OnErr result (held self.new ≡ held self.old) }
        ensures counted { Counted (faults self.old) (faults self.new) result };
}
