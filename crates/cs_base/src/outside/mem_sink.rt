//! A sink in memory.
ghost use Rattle.std.specs.Prelude.{◌≡◌, []};

use crate::outside::failing::count_call;
use crate::outside::{Failed, Sink};
use std::alloc::Global;
use std::marker::Model;

/// A sink that keeps the bytes it is given. It tells them. Want of memory is a fault of its own, and so is a call that is to fail.
#[derive(Debug, Drop)]
pub struct MemSink {
    held: Vec<u8>,
    faults: u64,
    failing: Vec<u64>,
}

impl Model for MemSink {
    ghost use Rattle.cs_base.specs.outside.InMemory.{SinkState};

    ghost Value = { SinkState };

    ghost view = { λ s. record { bytes = s.held.items; faults = s.faults; failing = s.failing.items } };
}

impl MemSink {
    /// A sink to which nothing was written.
    pub fn new(alloc: Global) -> MemSink
        ensures { result ≡ record { bytes = []; faults = 0; failing = [] } }
    {
        MemSink {
            held: Vec::new(alloc),
            faults: 0,
            failing: Vec::new(alloc),
        }
    }

    /// A sink to which nothing was written, with the memory of these bytes, which are dropped.
    pub fn over(mut memory: Vec<u8>) -> MemSink
        ensures { result ≡ record { bytes = []; faults = 0; failing = [] } }
    {
        memory.clear();
        let failing = Vec::new(*memory.allocator());
        MemSink {
            held: memory,
            faults: 0,
            failing,
        }
    }

    /// The bytes written.
    pub fn bytes(&self) -> &[u8]
        ensures { result.now ≡ self.now.bytes }
    {
        self.held.as_slice()
    }

    /// The bytes written, without a copy.
    pub fn into_bytes(self) -> Vec<u8>
        ensures { result.items ≡ self.bytes }
    {
        self.held
    }

    /// These calls of `put` fail, counted from 1 from the next one, and put nothing. The list takes the place of an earlier one.
    pub fn fail(&mut self, calls: Vec<u64>)
        ensures { self.new ≡ record self.old { failing = calls.items } }
    {
        self.failing = calls;
    }
}

impl Sink for MemSink {
    ghost use Rattle.std.specs.Prelude.{Some, true, OnOk, OnErr, IsErr, ◌++◌, ◌⊎◌, ◌<◌, length};
    ghost use Rattle.cs_base.specs.outside.Causes.{Counted, one_more};
    ghost use Rattle.cs_base.specs.outside.FailingCalls.{fails_next, after_call};

    ghost written = { λ s. Some s.bytes };

    ghost faults = { λ s. s.faults };

    ghost lent = { λ _. tt };

    /// It fails where the call is to fail, and else only where there are bytes and they find no memory; none of them was written then.
    fn put(&mut self, bytes: &[u8]) -> Result<(), Failed>
        ensures ok { OnOk result (self.new ≡ record self.old { bytes = self.old.bytes ++ bytes.now; failing = after_call self.old.failing }) }
        ensures err { OnErr result (self.new ≡ record self.old { faults = one_more self.old.faults; failing = after_call self.old.failing }) }
        ensures fails { fails_next self.old.failing ≡ true → IsErr result }
        ensures only { OnErr result ((fails_next self.old.failing ≡ true) ⊎ (0 < length bytes.now)) }
        ensures counted { Counted self.old.faults self.new.faults result }
    {
        if !count_call(&mut self.failing) && self.held.extend_from_slice(bytes).is_ok() {
            return Ok(());
        }
        self.faults = self.faults.saturating_add(1);
        Err(Failed)
    }
}
