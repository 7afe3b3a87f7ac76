//! Rounds of the loop over the events of a hub.
ghost use Rattle.std.specs.Prelude.{◌≡◌, ◌<◌, ◌≤◌, ◌⊎◌, ℕ, None, true, false, length, is_some};
ghost use Rattle.std.specs.Option.{ForSome};
ghost use Rattle.cs_base.specs.outside.Hub.{came_of, IsOrderly};
ghost use Rattle.cs_engine.specs.Keeping.{AreGood};
ghost use Rattle.cs_file.specs.Indexes.{HasAllBlocks, StandsFor};
ghost use Rattle.cs_model_index.specs.Sections.{file_corpus};
ghost use Rattle.cs_hub.specs.{Asked.{LeavesIndex}, HubFollowing.{HasLive, IsWhole, left_at}, Totals.{StaysAsked}};
ghost use Rattle.cs_hub.specs.Rounds.{GoesOnAfter, HasBytes, OpensBelow, StaysBeside, StaysServed, Went};

use crate::slots::Core;
use cs_base::{Event, Hub, Store};
use cs_engine::Engine;
use std::alloc::Global;

/// How a round went.
#[derive(Clone, Copy, Debug, PartialEq, Eq)]
pub(crate) enum Round {
    /// So many connections were opened by now.
    Goes(u32),
    /// Nothing more comes.
    Over,
    /// The hub gave no event.
    Failed,
}

/// Whether a connection is still to be opened, or is live.
pub(crate) fn is_busy(core: &Core, opened: u32, conns: u32) -> bool
    ensures idle { result ≡ false → (conns ≤ opened) × ((c : ℕ) → left_at core.now c ≡ None) }
    ensures busy { result ≡ true → (opened < conns) ⊎ ((c : ℕ) × (is_some (left_at core.now c) ≡ true)) }
{
    if opened < conns {
        return true;
    }
    !core.is_idle()
}

/// An event comes, and the step of it.
pub(crate) fn take_turn<S: Store, H: Hub>(
    core: &mut Core,
    alloc: Global,
    engine: &mut Engine,
    store: &mut S,
    hub: &mut H,
    buffer: &mut [u8],
    opened: u32,
    conns: u32,
) -> Round
    requires fits { HasAllBlocks (S.bytes store.old) engine.old.index }
    requires some { 0 < length buffer.old }
    requires live { HasLive core.old (H.state hub.old) }
    requires orderly { IsOrderly (H.state hub.old) (H.talk hub.old) }
    requires opened { (H.state hub.old).opened ≡ opened }
    requires conns { (H.state hub.old).conns ≡ conns }
    requires most { opened ≤ conns }

    ensures served { ForSome (S.bytes store.old) (λ b. StandsFor b engine.old.index → AreGood b engine.old
        → StaysServed (file_corpus b) core.old core.new (H.state hub.old) (H.state hub.new) (H.talk hub.old) (H.talk hub.new) (S.faults store.old)
        (S.faults store.new)) }
    ensures good { ForSome (S.bytes store.old) (λ b. StandsFor b engine.old.index → AreGood b engine.old → AreGood b engine.new) }
    ensures asked { StaysAsked (S.bytes store.old) core.old core.new engine.old engine.new (S.reads store.old) (S.reads store.new) (S.faults store.old)
        (S.faults store.new) (H.talk hub.old) (H.talk hub.new) }
    ensures went { Went result (H.state hub.old) (H.state hub.new) (H.talk hub.old) (H.talk hub.new) (H.faults hub.old) (H.faults hub.new) core.old core.new }
    ensures beside { StaysBeside H.state H.talk H.send_faults conns core.new hub.old hub.new }
    ensures hub_later { H.faults hub.old ≤ H.faults hub.new }
    ensures leaves { LeavesIndex S.bytes S.lent S.faults engine.old engine.new store.old store.new }
{
    match hub.next(buffer) {
        Ok(event) => {
            core.step(alloc, engine, store, hub, event, piece_of(event, buffer));
            counted(event, opened, conns)
        }
        Err(_) => Round::Failed,
    }
}

// The bytes of a piece.
fn piece_of(event: Event, buffer: &[u8]) -> &[u8]
    requires { HasBytes event (length buffer.now) }

    ensures whole { IsWhole event result.now }
    ensures came { came_of event result.now ≡ came_of event buffer.now }
{
    match event {
        Event::Piece(_, count) => &buffer[..count],
        _ => &buffer[..0],
    }
}

// How the loop goes on after an event.
fn counted(event: Event, opened: u32, conns: u32) -> Round
    requires { OpensBelow event conns }

    ensures { GoesOnAfter event opened result }
{
    match event {
        Event::Opened(conn) => Round::Goes(conn + 1),
        Event::Over => Round::Over,
        _ => Round::Goes(opened),
    }
}
