//! Files in memory.
ghost use Rattle.std.specs.Prelude.{◌≡◌, ◌+◌, ◌<◌, ◌≤◌, ◌⊎◌, [], MatchOption, IfOk, OnOk, OnErr, IsErr, Some, None, length, true, is_err};
ghost use Rattle.std.specs.Option.{option_map, option_copied};
ghost use Rattle.std.specs.FinMap as map;
ghost use Rattle.cs_base.specs.outside.HeldFiles.{held_in, IsPlaceOf};

use crate::outside::failing::count_call;
use crate::outside::{Failed, Files};
use crate::{Memory, Text};
use std::alloc::Global;
use std::marker::Model;

#[derive(Debug, Drop)]
pub(crate) struct MemFile {
    pub name: Text,
    pub bytes: Vec<u8>,
    pub finished: bool,
}

/// Files that are kept in memory. They tell what they hold. Want of memory is a fault of their own, and so is a call that is to fail.
#[derive(Debug, Drop)]
pub struct MemFiles {
    files: Vec<MemFile>,
    faults: u64,
    failing_reads: Vec<u64>,
    failing_writes: Vec<u64>,
    alloc: Global,
}

impl Model for MemFiles {
    ghost use Rattle.cs_base.specs.outside.InMemory.{FilesState, files_code};

    ghost Value = { FilesState };

    ghost coded = { files_code };

    ghost use Rattle.cs_base.specs.outside.HeldFiles.{held_in};

    ghost view = { λ f. record { held = held_in f.files.items; faults = f.faults; failing_reads = f.failing_reads.items; failing_writes = f.failing_writes.items } };
}

impl MemFiles {
    ghost use Rattle.cs_base.specs.outside.Outside.{empty_file, whole_file};
    ghost use Rattle.cs_base.specs.outside.Causes.{Rose, one_more};

    /// Files of which none is held.
    pub fn new(alloc: Global) -> MemFiles
        ensures { result ≡ record { held = map.empty; faults = 0; failing_reads = []; failing_writes = [] } }
    {
        MemFiles {
            files: Vec::new(alloc),
            faults: 0,
            failing_reads: Vec::new(alloc),
            failing_writes: Vec::new(alloc),
            alloc,
        }
    }

    /// Makes the name hold these bytes, finished.
    #[tactic(auto, using(crate::proofs::Places::pushed))]
    pub fn hold(&mut self, name: &str, bytes: Vec<u8>) -> Result<(), Memory>
        ensures ok { OnOk result (self.new ≡ record self.old { held = map.insert self.old.held name.now (whole_file bytes.items) }) }
        ensures err { OnErr result (self.new ≡ self.old) }
    {
        match place_of(&self.files, name) {
            Some(i) => {
                let file = &mut self.files[i];
                file.bytes = bytes;
                file.finished = true;
                Ok(())
            }
            None => {
                let name = Text::from_str(self.alloc, name)?;
                self.files.push(MemFile {
                    name,
                    bytes,
                    finished: true,
                })?;
                Ok(())
            }
        }
    }

    /// The bytes that the name holds; None where it isn't held.
    pub fn bytes(&self, name: &str) -> Option<&[u8]>
        ensures { option_copied result ≡ option_map (λ f. f.bytes) (map.get self.now.held name.now) }
    {
        match place_of(&self.files, name) {
            Some(i) => Some(self.files[i].bytes.as_slice()),
            None => None,
        }
    }

    // Adds a file with no bytes.
    #[tactic(auto, using(crate::proofs::Places::pushed))]
    fn hold_empty(&mut self, name: &str) -> Result<(), Memory>
        requires { map.get self.old.held name.now ≡ None }

        ensures ok { OnOk result (self.new ≡ record self.old { held = map.insert self.old.held name.now empty_file }) }
        ensures err { OnErr result (self.new ≡ self.old) }
    {
        let name = Text::from_str(self.alloc, name)?;
        self.files.push(MemFile {
            name,
            bytes: Vec::new(self.alloc),
            finished: false,
        })?;
        Ok(())
    }

    /// These calls of `size` and `read_at` together fail, counted from 1 from the next one. The list takes the place of an
    /// earlier one.
    pub fn fail_reads(&mut self, calls: Vec<u64>)
        ensures { self.new ≡ record self.old { failing_reads = calls.items } }
    {
        self.failing_reads = calls;
    }

    /// These calls of `create`, `append` and `finish` together fail, counted from 1 from the next one. The list takes the place
    /// of an earlier one.
    pub fn fail_writes(&mut self, calls: Vec<u64>)
        ensures { self.new ≡ record self.old { failing_writes = calls.items } }
    {
        self.failing_writes = calls;
    }

    // Counts a fault.
    fn fault(&mut self) -> Failed
        ensures one { self.new ≡ record self.old { faults = one_more self.old.faults } }
        ensures later { self.old.faults ≤ self.new.faults }
        ensures rose { Rose self.old.faults self.new.faults }
    {
        self.faults = self.faults.saturating_add(1);
        Failed
    }
}

impl Files for MemFiles {
    ghost use Rattle.cs_base.specs.outside.Causes.{Counted, one_more};
    ghost use Rattle.cs_base.specs.outside.FailingCalls.{fails_next, after_call};
    ghost use Rattle.cs_base.specs.outside.Outside.{empty_file, appended, finished, size_of, bytes_of, part, Covers, IsHeld};

    ghost held = { λ f. Some f.held };

    ghost faults = { λ f. f.faults };

    /// It fails exactly where the call is to fail.
    fn size(&mut self, name: &str) -> Result<Option<u64>, Failed>
        ensures fails { is_err result ≡ fails_next self.old.failing_reads }
        ensures value { IfOk result (λ n. n ≡ size_of (map.get self.old.held name.now)) }
        ensures ok { OnOk result (self.new ≡ record self.old { failing_reads = after_call self.old.failing_reads }) }
        ensures err { OnErr result (self.new ≡ record self.old { faults = one_more self.old.faults; failing_reads = after_call self.old.failing_reads }) }
        ensures counted { Counted self.old.faults self.new.faults result }
    {
        if count_call(&mut self.failing_reads) {
            return Err(self.fault());
        }
        match place_of(&self.files, name) {
            Some(i) => Ok(Some(self.files[i].bytes.len() as u64)),
            None => Ok(None),
        }
    }

    /// It fails exactly where the call is to fail. The buffer is as it was then.
    fn read_at(&mut self, name: &str, at: u64, out: &mut [u8]) -> Result<(), Failed>
        requires within { Covers (map.get self.old.held name.now) (at + length out.old) }

        ensures fails { is_err result ≡ fails_next self.old.failing_reads }
        ensures read { OnOk result (out.new ≡ part (bytes_of (map.get self.old.held name.now)) at (length out.old)) }
        ensures ok { OnOk result (self.new ≡ record self.old { failing_reads = after_call self.old.failing_reads }) }
        ensures err { OnErr result (self.new ≡ record self.old { faults = one_more self.old.faults; failing_reads = after_call self.old.failing_reads }) }
        ensures unread { OnErr result (out.new ≡ out.old) }
        ensures counted { Counted self.old.faults self.new.faults result }
    {
        if count_call(&mut self.failing_reads) {
            return Err(self.fault());
        }
        match place_of(&self.files, name) {
            Some(i) => {
                let start = at as usize;
                let bytes = self.files[i].bytes.as_slice();
                out.copy_from_slice(&bytes[start..start + out.len()]);
                Ok(())
            }
            None => unreachable!(),
        }
    }

    /// It fails where the call is to fail, and else only where a new name finds no memory. The files are as they were then.
    fn create(&mut self, name: &str) -> Result<(), Failed>
        ensures ok { OnOk result (self.new ≡ record self.old { held = map.insert self.old.held name.now empty_file; failing_writes = after_call self.old.failing_writes }) }
        ensures err { OnErr result (self.new ≡ record self.old { faults = one_more self.old.faults; failing_writes = after_call self.old.failing_writes }) }
        ensures fails { fails_next self.old.failing_writes ≡ true → IsErr result }
        ensures only { OnErr result ((fails_next self.old.failing_writes ≡ true) ⊎ (map.get self.old.held name.now ≡ None)) }
        ensures counted { Counted self.old.faults self.new.faults result }
    {
        if count_call(&mut self.failing_writes) {
            return Err(self.fault());
        }
        match place_of(&self.files, name) {
            Some(i) => {
                let file = &mut self.files[i];
                file.bytes.clear();
                file.finished = false;
                Ok(())
            }
            None => match self.hold_empty(name) {
                Ok(()) => Ok(()),
                Err(Memory) => Err(self.fault()),
            },
        }
    }

    /// It fails where the call is to fail, and else only where there are bytes and they find no memory. None of them was added
    /// then, and the file isn't finished.
    fn append(&mut self, name: &str, bytes: &[u8]) -> Result<(), Failed>
        requires is_held { IsHeld (map.get self.old.held name.now) }

        ensures ok { OnOk result (self.new ≡ record self.old { held = map.insert self.old.held name.now (appended bytes.now (map.get self.old.held name.now)); failing_writes = after_call self.old.failing_writes }) }
        ensures err { OnErr result (self.new ≡ record self.old { held = map.insert self.old.held name.now (appended [] (map.get self.old.held name.now)); faults = one_more self.old.faults; failing_writes = after_call self.old.failing_writes }) }
        ensures fails { fails_next self.old.failing_writes ≡ true → IsErr result }
        ensures only { OnErr result ((fails_next self.old.failing_writes ≡ true) ⊎ (0 < length bytes.now)) }
        ensures counted { Counted self.old.faults self.new.faults result }
    {
        let fails = count_call(&mut self.failing_writes);
        match place_of(&self.files, name) {
            Some(i) => {
                let file = &mut self.files[i];
                file.finished = false;
                if !fails && file.bytes.extend_from_slice(bytes).is_ok() {
                    return Ok(());
                }
                Err(self.fault())
            }
            None => unreachable!(),
        }
    }

    /// It fails exactly where the call is to fail. The files are as they were then.
    fn finish(&mut self, name: &str) -> Result<(), Failed>
        requires is_held { IsHeld (map.get self.old.held name.now) }

        ensures fails { is_err result ≡ fails_next self.old.failing_writes }
        ensures ok { OnOk result (self.new ≡ record self.old { held = map.insert self.old.held name.now (finished (map.get self.old.held name.now)); failing_writes = after_call self.old.failing_writes }) }
        ensures err { OnErr result (self.new ≡ record self.old { faults = one_more self.old.faults; failing_writes = after_call self.old.failing_writes }) }
        ensures counted { Counted self.old.faults self.new.faults result }
    {
        if count_call(&mut self.failing_writes) {
            return Err(self.fault());
        }
        match place_of(&self.files, name) {
            Some(i) => {
                self.files[i].finished = true;
                Ok(())
            }
            None => unreachable!(),
        }
    }
}

// Where a name stands, if it is held.
fn place_of(files: &[MemFile], name: &str) -> Option<usize>
    ensures { MatchOption result (map.get (held_in files.now) name.now ≡ None) (IsPlaceOf files.now name.now) }
{
    for (i, file) in files.iter().enumerate() {
        if file.name.as_str() == name {
            return Some(i);
        }
    }
    None
}
