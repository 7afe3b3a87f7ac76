//! A sink over a file.
ghost use Rattle.std.specs.Prelude.{◌≡◌, false, true};
ghost use Rattle.std.specs.Option.{ForSome, is_some};
ghost use Rattle.std.specs.FinMap as map;
ghost use Rattle.cs_base.specs.outside.Outside.{is_file_finished};

use crate::outside::{Failed, Files, Sink};

/// A held file that isn't finished, as a sink: what is put is added at its end. It tells where the files tell, and its faults are those of
/// the files.
#[derive(Drop)]
pub struct FileSink<'a, F: Files> {
    files: &'a mut F,
    name: &'a str,
    /// The name is held.
    pub ghost holds: { ForSome (F.held files.now) (λ h. is_some (map.get h name.now) ≡ true) },
    /// It isn't finished.
    pub ghost unfinished: { ForSome (F.held files.now) (λ h. is_file_finished (map.get h name.now) ≡ false) },
}

impl<'a, F: Files> FileSink<'a, F> {
    /// The file of this name. Over files that tell, it is held, and not finished.
    pub fn new(files: &'a mut F, name: &'a str) -> FileSink<'a, F>
        requires holds { ForSome (F.held files.old) (λ h. is_some (map.get h name.now) ≡ true) }
        requires unfinished { ForSome (F.held files.old) (λ h. is_file_finished (map.get h name.now) ≡ false) }

        ensures same_files { result.files.ghost_name ≡ files.entry.ghost_name }
        ensures files { result.files.now ≡ files.old }
        ensures name { result.name.now ≡ name.now }
    {
        FileSink { files, name }
    }
}

impl<F: Files> Sink for FileSink<'_, F> {
    ghost use Rattle.std.specs.Prelude.{Option, List, ℕ};
    ghost use Rattle.std.specs.Borrow.{GName};
    ghost use Rattle.cs_base.specs.outside.Outside.{Held, file_bytes, but_for};

    ghost written = { λ s. file_bytes (F.held s.files.now) s.name.now };

    ghost faults = { λ s. F.faults s.files.now };

    ghost Lent = { GName × (List ℕ × Option Held) };

    ghost lent = { λ s. (s.files.ghost_name, (s.name.now, but_for s.name.now (F.held s.files.now))) };

    fn put(&mut self, bytes: &[u8]) -> Result<(), Failed> {
        self.files.append(self.name, bytes)
    }
}
