//! The loop over the events of a hub.
ghost use Rattle.std.specs.Prelude.{◌≡◌, ◌≢◌, ◌⊎◌, ℕ, ◌+◌, ◌*◌, ◌<◌, ◌≤◌, true, false, length};
ghost use Rattle.std.specs.FinSet as set;
ghost use Rattle.std.specs.Option.{ForSome};
ghost use Rattle.cs_base.specs.{declared.content.limits.TheConstants.{MAX_CONNECTION_BYTES}, outside.{Causes.{Rose}, Hub.{IsOrderly, listens}}};
ghost use Rattle.cs_engine.specs.Keeping.{AreGood};
ghost use Rattle.cs_file.specs.Indexes.{HasAllBlocks, StandsFor};
ghost use Rattle.cs_model_index.specs.Sections.{file_corpus};
ghost use Rattle.cs_hub.specs.{Asked.{LeavesIndex}, Ending.{EndsSo}, HubFollowing.{AreServed}, Rounds.{came_by}, Speaking.{AreUnbroken}};
ghost use Rattle.cs_hub.specs.Totals.{AsksInAll};

use crate::rounds::{Round, is_busy, take_turn};
use crate::slots::Core;
use cs_base::{Hub, Store};
use cs_engine::Engine;
use std::alloc::Global;

// The most bytes of a piece.
const PIECE_BYTES: usize = 4096;

/// How serving ends.
#[derive(Clone, Copy, Debug, PartialEq, Eq)]
pub enum ServeEnd {
    /// All connections were opened and none is live, or nothing more comes.
    Done,
    /// The hub gave no event.
    HubFailed,
    /// There was no memory at the start.
    Memory,
}

/// Serves so many connections of a hub that listens and has opened none, until all were opened and none is live, or nothing more
/// comes.
pub fn serve<S: Store, H: Hub>(
    alloc: Global,
    engine: &mut Engine,
    store: &mut S,
    hub: &mut H,
    conns: u32,
) -> ServeEnd
    requires fits { HasAllBlocks (S.bytes store.old) engine.old.index }
    requires listens { (port : ℕ) × (H.state hub.old ≡ listens port conns) }
    requires orderly { IsOrderly (H.state hub.old) (H.talk hub.old) }

    // Over bytes that stand for the index, where what is kept is good: each opened connection is right, and what is kept stays good.
    ensures served { ForSome (S.bytes store.old) (λ b. StandsFor b engine.old.index → AreGood b engine.old
        → AreServed (file_corpus b) (H.state hub.new) (H.talk hub.new) (S.faults store.old) (S.faults store.new)) }
    ensures good { ForSome (S.bytes store.old) (λ b. StandsFor b engine.old.index → AreGood b engine.old → AreGood b engine.new) }

    // Want of memory comes before the first event.
    ensures done { result ≡ ServeEnd.Done → ((c : ℕ) → set.contains (H.state hub.new).live c ≡ false)
        × (((H.state hub.new).opened ≡ conns) ⊎ ((H.state hub.new).over ≡ true)) }
    ensures hub_failed { result ≡ ServeEnd.HubFailed → Rose (H.faults hub.old) (H.faults hub.new) }
    ensures only_before_the_end { result ≡ ServeEnd.HubFailed → ((H.state hub.new).over ≡ false)
        × (((H.state hub.new).opened < conns) ⊎ ((c : ℕ) × (set.contains (H.state hub.new).live c ≡ true))) }
    ensures memory { result ≡ ServeEnd.Memory → (H.state hub.new ≡ H.state hub.old) × (H.talk hub.new ≡ H.talk hub.old)
        × (S.faults store.new ≡ S.faults store.old) × (H.send_faults hub.new ≡ H.send_faults hub.old) }
    ensures quiet { result ≢ ServeEnd.HubFailed → H.faults hub.new ≡ H.faults hub.old }
    ensures hub_later { H.faults hub.old ≤ H.faults hub.new }

    // Where no send failed, no connection is broken.
    ensures unbroken { ¬ Rose (H.send_faults hub.old) (H.send_faults hub.new) → ForSome (H.talk hub.new) AreUnbroken }
    ensures sends_later { H.send_faults hub.old ≤ H.send_faults hub.new }

    ensures port { (H.state hub.new).port ≡ (H.state hub.old).port }
    ensures conns { (H.state hub.new).conns ≡ conns }

    // Each event opens a connection, takes one of its bytes or ends one.
    ensures events { ForSome (H.talk hub.old) (λ t. ForSome (H.talk hub.new) (λ u. length u.came ≤ length t.came + conns * (MAX_CONNECTION_BYTES + 2) + 1)) }

    // Each request that was asked is one of a head that came, in order, and its answer was sent; no more is read than is due for all.
    ensures asked { AsksInAll (S.bytes store.old) engine.old engine.new (S.reads store.old) (S.reads store.new) (S.faults store.old) (S.faults store.new)
        (H.talk hub.new) }

    ensures leaves { LeavesIndex S.bytes S.lent S.faults engine.old engine.new store.old store.new }
{
    let Ok(mut buffer) = vec![in alloc; 0; PIECE_BYTES] else {
        return ServeEnd::Memory;
    };
    serve_with(alloc, engine, store, hub, conns, buffer.as_mut_slice())
}

// The same with a buffer for pieces.
fn serve_with<S: Store, H: Hub>(
    alloc: Global,
    engine: &mut Engine,
    store: &mut S,
    hub: &mut H,
    conns: u32,
    buffer: &mut [u8],
) -> ServeEnd
    requires some { 0 < length buffer.old }
    requires fits { HasAllBlocks (S.bytes store.old) engine.old.index }
    requires listens { (port : ℕ) × (H.state hub.old ≡ listens port conns) }
    requires orderly { IsOrderly (H.state hub.old) (H.talk hub.old) }

    ensures served { ForSome (S.bytes store.old) (λ b. StandsFor b engine.old.index → AreGood b engine.old
        → AreServed (file_corpus b) (H.state hub.new) (H.talk hub.new) (S.faults store.old) (S.faults store.new)) }
    ensures good { ForSome (S.bytes store.old) (λ b. StandsFor b engine.old.index → AreGood b engine.old → AreGood b engine.new) }
    ensures ends { EndsSo result conns (H.state hub.old) (H.state hub.new) (H.faults hub.old) (H.faults hub.new) }
    ensures sends_later { H.send_faults hub.old ≤ H.send_faults hub.new }
    ensures unbroken { ¬ Rose (H.send_faults hub.old) (H.send_faults hub.new) → ForSome (H.talk hub.new) AreUnbroken }
    ensures some_memory { result ≢ ServeEnd.Memory }
    ensures events { came_by (H.talk hub.new) ≤ came_by (H.talk hub.old) + conns * (MAX_CONNECTION_BYTES + 2) + 1 }
    ensures asked { AsksInAll (S.bytes store.old) engine.old engine.new (S.reads store.old) (S.reads store.new) (S.faults store.old) (S.faults store.new)
        (H.talk hub.new) }
    ensures leaves { LeavesIndex S.bytes S.lent S.faults engine.old engine.new store.old store.new }
{
    let mut core = Core::new(alloc);
    let mut opened = 0;
    while is_busy(&core, opened, conns) {
        match take_turn(&mut core, alloc, engine, store, hub, buffer, opened, conns) {
            Round::Goes(count) => opened = count,
            Round::Over => return ServeEnd::Done,
            Round::Failed => return ServeEnd::HubFailed,
        }
    }
    ServeEnd::Done
}
