//! An engine over the store of its index, as what answers requests.
ghost use Rattle.std.specs.Prelude.{◌≡◌};
ghost use Rattle.cs_file.specs.Indexes.{HasAllBlocks};

use crate::answering::Answerer;
use cs_base::Store;
use cs_engine::{AskFault, Engine};
use cs_query::{Reply, Request};
use std::alloc::Global;

/// An engine, and the store that its index was opened from.
#[derive(Drop)]
pub(crate) struct Asking<'a, S: Store> {
    engine: &'a mut Engine,
    store: &'a mut S,
    /// The store tells nothing, or has the blocks of the index.
    pub ghost fits: { HasAllBlocks (S.bytes store.now) engine.now.index },
}

impl<'a, S: Store> Asking<'a, S> {
    /// The engine over this store.
    pub fn new(engine: &'a mut Engine, store: &'a mut S) -> Asking<'a, S>
        requires fits { HasAllBlocks (S.bytes store.old) engine.old.index }

        ensures same_engine { result.engine.ghost_name ≡ engine.entry.ghost_name }
        ensures same_store { result.store.ghost_name ≡ store.entry.ghost_name }
        ensures engine { result.engine.now ≡ engine.old }
        ensures store { result.store.now ≡ store.old }
    {
        Asking { engine, store }
    }
}

impl<S: Store> Answerer for Asking<'_, S> {
    ghost use Rattle.std.specs.Prelude.{Option, Some, List, ℕ};
    ghost use Rattle.std.specs.Borrow.{GName};
    ghost use Rattle.cs_file.specs.Indexes.{IndexView, StandsFor};
    ghost use Rattle.cs_model_index.specs.Sections.{file_corpus};
    ghost use Rattle.cs_engine.specs.Keeping.{AreGood};
    ghost use Rattle.cs_hub.specs.Asked.{EngineLeaves, Standing};

    ghost answers = { λ a k. (b : List ℕ) × (S.bytes a.store.now ≡ Some b) × StandsFor b a.engine.now.index × AreGood b a.engine.now × (k ≡ file_corpus b) };

    ghost faults = { λ a. S.faults a.store.now };

    ghost Lent = { GName × (GName × (Option (List ℕ) × (S.Lent × (IndexView × ℕ)))) };

    ghost lent = { λ a. (
      a.engine.ghost_name,
      (
        a.store.ghost_name,
        (S.bytes a.store.now, (S.lent a.store.now, (a.engine.now.index, a.engine.now.answers.capacity))),
      ),
    ) };

    ghost Kept = { Standing };

    ghost kept = { λ a. record { told = S.bytes a.store.now; engine = a.engine.now; reads = S.reads a.store.now; faults = S.faults a.store.now } };

    ghost leaves = { EngineLeaves };

    fn reply(&mut self, alloc: Global, request: &Request) -> Result<Reply, AskFault> {
        let (reply, _) = self.engine.ask(alloc, self.store, request)?;
        Ok(reply)
    }
}
