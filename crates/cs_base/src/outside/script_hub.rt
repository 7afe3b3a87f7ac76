//! A hub that plays a script of events.
ghost use Rattle.std.specs.Prelude.{◌≡◌, ◌<◌, [], length, Some, IfOk, OnOk, OnErr};
ghost use Rattle.cs_base.specs.outside.Causes.{one_more};
ghost use Rattle.cs_base.specs.outside.Hub.{came_of, sent_on, Happens, IsOrderly};
ghost use Rattle.cs_base.specs.outside.ScriptedHub.{script_begun, comes, played, playable, cut_off, send_called};
ghost use Rattle.cs_base.specs.outside.ScriptParts.{Fits, came_as, is_over};

use crate::outside::Failed;
use crate::outside::connections::Connections;
use crate::outside::failing::count_call;
use crate::outside::hub::{Event, Hub};
use crate::outside::script::{Script, Scripted};
use crate::{Memory, Seq};
use std::alloc::Global;
use std::marker::Model;

// An event that came, with the bytes of a piece.
#[derive(Debug, Drop)]
pub(crate) struct Heard {
    pub event: Event,
    pub bytes: Vec<u8>,
}

/// A hub that plays a script, and then says that all is over. It tells what came and was sent. Want of memory is a fault of its
/// own.
///
/// An event that isn't lawful when its turn comes is left out: a piece or an end of a connection that isn't live, a piece without
/// bytes, an opening beyond the room. A piece that is longer than the buffer comes in several events.
#[derive(Debug, Drop)]
pub struct ScriptHub {
    port: u16,
    conns: u32,
    over: bool,
    script: Script,
    connections: Connections,
    came: Vec<Heard>,
    next_calls: Vec<u64>,
    send_calls: Vec<u64>,
    faults: u64,
    send_faults: u64,
    alloc: Global,
}

impl Model for ScriptHub {
    ghost use Rattle.cs_base.specs.contracts.outside.hub.Event as event;
    ghost use Rattle.cs_base.specs.contracts.outside.script.Scripted as scripted;
    ghost use Rattle.cs_base.specs.outside.ScriptedHub.{ScriptState, script_code};

    ghost Value = { ScriptState };

    ghost coded = { script_code event.the_row.coded scripted.the_row.coded };

    ghost use Rattle.cs_base.specs.outside.ScriptParts.{connected, left_in, came_in, IsKept};

    ghost view = { λ h. let x = connected h.connections in record {
      hub = record { port = h.port; conns = h.conns; opened = x.opened; live = x.live; over = h.over };
      talk = record { came = came_in h.came.items; sent = x.sent; broken = x.broken };
      left = left_in h.script;
      next_calls = h.next_calls.items;
      send_calls = h.send_calls.items;
      faults = h.faults;
      send_faults = h.send_faults;
    } };

    ghost invariant = { λ h. IsKept h.over (left_in h.script) (connected h.connections).opened h.came.items };
}

impl ScriptHub {
    /// A hub that plays these events. It has room for no connection before it listens.
    pub fn new(alloc: Global, events: Seq<Scripted>) -> ScriptHub
        ensures { result ≡ script_begun events }
    {
        ScriptHub {
            port: 0,
            conns: 0,
            over: false,
            script: Script {
                events: events.into_vec(),
                place: 0,
                given: 0,
            },
            connections: Connections::new(alloc),
            came: Vec::new(alloc),
            next_calls: Vec::new(alloc),
            send_calls: Vec::new(alloc),
            faults: 0,
            send_faults: 0,
            alloc,
        }
    }

    /// The bytes sent on a connection; none on one that was never opened.
    pub fn sent(&self, conn: u32) -> &[u8]
        ensures { result.now ≡ sent_on self.now.talk conn }
    {
        self.connections.sent(conn)
    }

    /// Of the calls of `listen` and `next` from now on, together counted from 1, these are to fail.
    pub fn fail_next(&mut self, calls: Vec<u64>)
        ensures { self.new ≡ record self.old { next_calls = calls.items } }
    {
        self.next_calls = calls;
    }

    /// Of the calls of `send` from now on, counted from 1, these are to fail.
    pub fn fail_send(&mut self, calls: Vec<u64>)
        ensures { self.new ≡ record self.old { send_calls = calls.items } }
    {
        self.send_calls = calls;
    }

    // Plays the next event of the script. Where it finds no memory, nothing changed.
    fn play(&mut self, into: &mut [u8]) -> Result<Event, Memory>
        requires { 0 < length into.old }

        ensures event { IfOk result (λ e. came_of e into.new ≡ comes self.old.hub (length into.old) (playable self.old.hub self.old.left)) }
        ensures ok { OnOk result (self.new ≡ played (length into.old) self.old) }
        ensures err { OnErr result (self.new ≡ self.old) }
        ensures happens { IfOk result (λ e. Happens self.old.hub (length into.old) e self.new.hub) }
        ensures orderly { IsOrderly self.new.hub (Some self.new.talk) }
    {
        let turn = self.script.turn(&self.connections, self.conns, into);
        let heard = noted(self.alloc, turn.event, into)?;
        self.came.push(heard)?;
        if self.connections.hear(turn.event).is_err() {
            let _ = self.came.pop();
            return Err(Memory);
        }
        self.script.place = turn.place;
        self.script.given = turn.given;
        self.over = is_over(turn.event);
        Ok(turn.event)
    }

    // Counts a fault of `listen` or `next`.
    fn miss(&mut self) -> Failed
        ensures { self.new ≡ record self.old { faults = one_more self.old.faults } }
    {
        self.faults = self.faults.saturating_add(1);
        Failed
    }

    // Counts a fault of `send`.
    fn miss_send(&mut self) -> Failed
        ensures { self.new ≡ record self.old { send_faults = one_more self.old.send_faults } }
    {
        self.send_faults = self.send_faults.saturating_add(1);
        Failed
    }
}

impl Hub for ScriptHub {
    ghost use Rattle.std.specs.Prelude.{IsErr, IsOk, true, false};
    ghost use Rattle.cs_base.specs.outside.Causes.{Counted};
    ghost use Rattle.cs_base.specs.outside.FailingCalls.{fails_next};
    ghost use Rattle.cs_base.specs.outside.Hub.{IsLive};
    ghost use Rattle.cs_base.specs.outside.ScriptedHub.{listening_anew, hung_up, sent_all, next_called, next_missed};

    ghost state = { λ h. h.hub };

    ghost talk = { λ h. Some h.talk };

    ghost faults = { λ h. h.faults };

    ghost send_faults = { λ h. h.send_faults };

    /// It fails exactly where the call is listed. What is left of the script stays.
    fn listen(&mut self, port: u16, conns: u32) -> Result<(), Failed>
        ensures due { fails_next self.old.next_calls ≡ true → IsErr result }
        ensures not_due { fails_next self.old.next_calls ≡ false → IsOk result }
        ensures ok { OnOk result (self.new ≡ next_called (listening_anew port conns self.old)) }
        ensures err { OnErr result (self.new ≡ next_missed self.old) }
        ensures counted { Counted self.old.faults self.new.faults result }
        ensures orderly { IsOrderly self.new.hub (Some self.new.talk) }
    {
        if count_call(&mut self.next_calls) {
            return Err(self.miss());
        }
        self.port = port;
        self.conns = conns;
        self.over = false;
        self.connections.clear();
        self.came.clear();
        Ok(())
    }

    /// The next lawful event of the script, and Over behind the last one. It fails where the call is listed, and where the event
    /// finds no memory to be kept in; nothing but the counts changed then.
    fn next(&mut self, into: &mut [u8]) -> Result<Event, Failed>
        requires some { 0 < length into.old }

        ensures due { fails_next self.old.next_calls ≡ true → IsErr result }
        ensures ok { OnOk result (self.new ≡ next_called (played (length into.old) self.old)) }
        ensures event { IfOk result (λ e. came_of e into.new ≡ comes self.old.hub (length into.old) (playable self.old.hub self.old.left)) }
        ensures err { OnErr result (self.new ≡ next_missed self.old) }
        ensures happens { IfOk result (λ e. Happens self.old.hub (length into.old) e self.new.hub) }
        ensures counted { Counted self.old.faults self.new.faults result }
        ensures orderly { IsOrderly self.new.hub (Some self.new.talk) }
    {
        if count_call(&mut self.next_calls) {
            return Err(self.miss());
        }
        match self.play(into) {
            Ok(event) => Ok(event),
            Err(Memory) => Err(self.miss()),
        }
    }

    /// It fails where the call is listed, and where the bytes find no memory. None of them was sent then. No bytes always find it.
    fn send(&mut self, conn: u32, bytes: &[u8]) -> Result<(), Failed>
        requires live { IsLive self.old.hub conn }

        ensures due { fails_next self.old.send_calls ≡ true → IsErr result }
        ensures empty { fails_next self.old.send_calls ≡ false → bytes.now ≡ [] → IsOk result }
        ensures ok { OnOk result (self.new ≡ send_called (sent_all conn bytes.now self.old)) }
        ensures err { OnErr result (self.new ≡ send_called (cut_off conn self.old)) }
        ensures same { self.new.hub ≡ self.old.hub }
        ensures counted { Counted self.old.send_faults self.new.send_faults result }
        ensures orderly { IsOrderly self.new.hub (Some self.new.talk) }
    {
        if count_call(&mut self.send_calls) {
            self.connections.break_off(conn);
            return Err(self.miss_send());
        }
        match self.connections.add(conn, bytes) {
            Ok(()) => Ok(()),
            Err(Memory) => Err(self.miss_send()),
        }
    }

    fn close(&mut self, conn: u32)
        ensures hung_up { self.new ≡ hung_up conn self.old }
        ensures orderly { IsOrderly self.new.hub (Some self.new.talk) }
    {
        self.connections.end(conn);
    }
}

// Whether nothing more comes.
fn is_over(event: Event) -> bool
    ensures { result ≡ is_over event }
{
    matches!(event, Event::Over)
}

// An event with the bytes that the buffer holds of it.
fn noted(alloc: Global, event: Event, buffer: &[u8]) -> Result<Heard, Memory>
    requires { Fits (length buffer.now) event }

    ensures { IfOk result (λ h. came_as h ≡ came_of event buffer.now) }
{
    let bytes = match event {
        Event::Piece(_, count) => Vec::from_slice(alloc, &buffer[..count])?,
        _ => Vec::new(alloc),
    };
    Ok(Heard { event, bytes })
}
