//! A store over a file.
ghost use Rattle.std.specs.Prelude.{◌≡◌};
ghost use Rattle.std.specs.Option.{ForSome};
ghost use Rattle.cs_base.specs.outside.Outside.{HasSize};

use crate::outside::{Failed, Files, Store};

/// A held file of a known size, as a store. It tells where the files tell, and its faults are those of the files.
#[derive(Drop)]
pub struct FileStore<'a, F: Files> {
    files: &'a mut F,
    name: &'a str,
    size: u64,
    reads: u64,
    /// The name is held, with this size.
    pub ghost holds: { ForSome (F.held files.now) (λ h. HasSize h name.now size) },
}

impl<'a, F: Files> FileStore<'a, F> {
    /// The file of this name, which was never read. Over files that tell, it is held and has this size.
    pub fn new(files: &'a mut F, name: &'a str, size: u64) -> FileStore<'a, F>
        requires holds { ForSome (F.held files.old) (λ h. HasSize h name.now size) }

        ensures same_files { result.files.ghost_name ≡ files.entry.ghost_name }
        ensures files { result.files.now ≡ files.old }
        ensures name { result.name.now ≡ name.now }
        ensures size { result.size ≡ size }
        ensures reads { result.reads ≡ 0 }
    {
        FileStore {
            files,
            name,
            size,
            reads: 0,
        }
    }
}

impl<F: Files> Store for FileStore<'_, F> {
    ghost use Rattle.std.specs.Prelude.{Option, List, ℕ, Ok, IfOk, length};
    ghost use Rattle.std.specs.Borrow.{GName};
    ghost use Rattle.cs_base.specs.outside.Causes.{Counted};
    ghost use Rattle.cs_base.specs.outside.Outside.{Held, file_bytes};

    ghost bytes = { λ s. file_bytes (F.held s.files.now) s.name.now };

    ghost reads = { λ s. s.reads };

    ghost faults = { λ s. F.faults s.files.now };

    ghost Lent = { GName × (Option Held × (List ℕ × ℕ)) };

    ghost lent = { λ s. (s.files.ghost_name, (F.held s.files.now, (s.name.now, s.size))) };

    /// It never fails.
    fn size(&mut self) -> Result<u64, Failed>
        ensures value { result ≡ Ok self.old.size }
        ensures ok { ForSome (file_bytes (F.held self.old.files.now) self.old.name.now) (λ b. IfOk result (λ n. n ≡ length b)) }
        ensures same { self.new ≡ self.old }
        ensures counted { Counted (F.faults self.old.files.now) (F.faults self.new.files.now) result }
    {
        Ok(self.size)
    }

    fn read_at(&mut self, at: u64, out: &mut [u8]) -> Result<(), Failed> {
        self.reads = self.reads.saturating_add(1);
        self.files.read_at(self.name, at, out)
    }
}
