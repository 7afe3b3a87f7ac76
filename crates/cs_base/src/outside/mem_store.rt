//! Stores in memory.
ghost use Rattle.std.specs.Prelude.{◌≡◌, ◌+◌, ◌-◌, ◌≤◌, length, Ok, OnOk, OnErr, is_err, ◌==◌};
ghost use Rattle.cs_base.specs.outside.Causes.{Counted, ReadsWithin, Rose, one_more};
ghost use Rattle.cs_base.specs.outside.Outside.{part};

use crate::outside::{Failed, Store};
use std::marker::Model;

/// Bytes in memory, as a store. It tells them, and never fails.
#[derive(Debug, Drop)]
pub struct MemStore {
    held: Vec<u8>,
    reads: u64,
}

impl Model for MemStore {
    ghost use Rattle.cs_base.specs.outside.InMemory.{StoreState};

    ghost Value = { StoreState };

    ghost view = { λ s. record { bytes = s.held.items; reads = s.reads } };
}

impl MemStore {
    /// A store of these bytes, which was never read.
    pub fn new(bytes: Vec<u8>) -> MemStore
        ensures { result ≡ record { bytes = bytes.items; reads = 0 } }
    {
        MemStore {
            held: bytes,
            reads: 0,
        }
    }
}

impl Store for MemStore {
    ghost use Rattle.std.specs.Prelude.{Some, List, ℕ};

    ghost bytes = { λ s. Some s.bytes };

    ghost reads = { λ s. s.reads };

    ghost faults = { λ _. 0 };

    ghost Lent = { List ℕ };

    ghost lent = { λ s. s.bytes };

    /// It never fails.
    fn size(&mut self) -> Result<u64, Failed>
        ensures value { result ≡ Ok (length self.old.bytes) }
        ensures same { self.new ≡ self.old }
    {
        Ok(self.held.len() as u64)
    }

    /// It never fails.
    fn read_at(&mut self, at: u64, out: &mut [u8]) -> Result<(), Failed>
        requires within { at + length out.old ≤ length self.old.bytes }

        ensures value { result ≡ Ok tt }
        ensures read { out.new ≡ part self.old.bytes at (length out.old) }
        ensures same { self.new ≡ record self.old { reads = one_more self.old.reads } }
        ensures reads { ReadsWithin 1 self.old.reads self.new.reads }
        ensures rose { Rose self.old.reads self.new.reads }
    {
        self.reads = self.reads.saturating_add(1);
        let start = at as usize;
        let bytes = self.held.as_slice();
        out.copy_from_slice(&bytes[start..start + out.len()]);
        Ok(())
    }
}

/// Bytes in memory, as a store of which one read can be made to fail. It tells them.
#[derive(Debug, Drop)]
pub struct TiredStore {
    store: MemStore,
    faults: u64,
    fails_at: u64,
}

impl Model for TiredStore {
    ghost use Rattle.cs_base.specs.outside.InMemory.{TiredState};

    ghost Value = { TiredState };

    ghost view = { λ s. record { bytes = s.store.bytes; reads = s.store.reads; faults = s.faults; fails_at = s.fails_at } };
}

impl TiredStore {
    /// A store of these bytes, which was never read, and no read of which is to fail.
    pub fn new(bytes: Vec<u8>) -> TiredStore
        ensures { result ≡ record { bytes = bytes.items; reads = 0; faults = 0; fails_at = 0 } }
    {
        TiredStore {
            store: MemStore::new(bytes),
            faults: 0,
            fails_at: 0,
        }
    }

    /// The k-th read from now, counted from 1, fails, and no other; with 0 none.
    pub fn fail_at(&mut self, k: u64)
        ensures { self.new ≡ record self.old { fails_at = k } }
    {
        self.fails_at = k;
    }
}

impl Store for TiredStore {
    ghost use Rattle.std.specs.Prelude.{Some, List, ℕ};

    ghost bytes = { λ s. Some s.bytes };

    ghost reads = { λ s. s.reads };

    ghost faults = { λ s. s.faults };

    ghost Lent = { List ℕ };

    ghost lent = { λ s. s.bytes };

    /// It never fails.
    fn size(&mut self) -> Result<u64, Failed>
        ensures value { result ≡ Ok (length self.old.bytes) }
        ensures same { self.new ≡ self.old }
    {
        self.store.size()
    }

    /// It fails exactly where the read is the one that is to fail. The buffer is as it was then.
    fn read_at(&mut self, at: u64, out: &mut [u8]) -> Result<(), Failed>
        requires within { at + length out.old ≤ length self.old.bytes }

        ensures fails { is_err result ≡ (self.old.fails_at == 1) }
        ensures read { OnOk result (out.new ≡ part self.old.bytes at (length out.old)) }
        ensures ok { OnOk result (self.new ≡ record self.old { reads = one_more self.old.reads; fails_at = self.old.fails_at - 1 }) }
        ensures err { OnErr result (self.new ≡ record { bytes = self.old.bytes; reads = one_more self.old.reads; faults = one_more self.old.faults; fails_at = 0 }) }
        ensures unread { OnErr result (out.new ≡ out.old) }
        ensures reads { ReadsWithin 1 self.old.reads self.new.reads }
        ensures rose { Rose self.old.reads self.new.reads }
        ensures counted { Counted self.old.faults self.new.faults result }
    {
        let fails = self.fails_at == 1;
        self.fails_at = self.fails_at.saturating_sub(1);
        if fails {
            self.store.reads = self.store.reads.saturating_add(1);
            self.faults = self.faults.saturating_add(1);
            return Err(Failed);
        }
        self.store.read_at(at, out)
    }
}
