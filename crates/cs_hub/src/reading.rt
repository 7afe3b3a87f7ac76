//! The unread bytes of one connection.
ghost use Rattle.std.specs.Prelude.{◌≡◌, ◌++◌, [], cond, length};
ghost use Rattle.cs_base.specs.outside.Hub.{IsLive};
ghost use Rattle.cs_http.specs.Looking.{IsPlaced, IsBelowLimit, look_of};
ghost use Rattle.cs_hub.specs.{Asked.{AsksBy, StaysAnswering}, Speaking.{Calm}, Turns.{HoldsBytes, IsOpen, IsTurnedAway, Turned}};

use crate::answering::Answerer;
use crate::responses::{answer_head, too_long};
use crate::saying::{deliver, starve};
use cs_base::Hub;
use cs_http::{Look, Seen};
use std::alloc::Global;
use std::marker::Model;

/// What a turn gave.
#[derive(Clone, Copy, Debug, PartialEq, Eq)]
pub(crate) enum HeadTurn {
    /// A head was answered, which ended behind so many bytes more.
    Next(usize),
    /// No head ends there.
    Holds,
    /// The connection is to be closed.
    Stops,
}

/// The unread bytes of a connection, which hold no whole head. There are fewer than a head may have.
#[derive(Debug, Drop)]
pub(crate) struct Unread {
    unread: Vec<u8>,
    seen: Seen,
}

impl Model for Unread {
    ghost use Rattle.std.specs.Prelude.{ℕ, List};
    ghost use Rattle.std.specs.Coded.{coded_list, coded_ℕ};
    ghost use Rattle.cs_hub.specs.Turns.{IsOpen};

    ghost Value = { List ℕ };

    ghost coded = { coded_list coded_ℕ };

    ghost view = { λ r. r.unread.items };

    ghost invariant = { λ r. IsOpen r.unread.items r.seen };
}

impl Unread {
    /// Nothing came. It takes no memory.
    pub fn new(alloc: Global) -> Unread
        ensures { result ≡ [] }
    {
        Unread {
            unread: Vec::new(alloc),
            seen: Seen::nothing(),
        }
    }

    /// Answers a head, keeps the bytes where none ends in them, or says that the connection is to be closed.
    pub fn turn<A: Answerer, H: Hub>(
        &mut self,
        alloc: Global,
        answerer: &mut A,
        hub: &mut H,
        conn: u32,
        rest: &[u8],
    ) -> HeadTurn
        requires live { IsLive (H.state hub.old) conn }

        ensures turned { Turned (A.answers answerer.old) conn self.old rest.now result self.new (A.faults answerer.old) (A.faults answerer.new) (H.talk hub.old)
            (H.talk hub.new) }
        ensures asked { AsksBy A.leaves conn self.old rest.now result (A.kept answerer.old) (A.kept answerer.new) (H.talk hub.old) (H.talk hub.new) }
        ensures stays { StaysAnswering A.answers A.lent A.faults answerer.old answerer.new }
        ensures calm { Calm H.state H.talk H.faults H.send_faults hub.old hub.new }
    {
        let held = self.unread.len();
        match self.look(rest) {
            Look::Head { skip, end } => {
                let used = end - held;
                if self.unread.extend_from_slice(&rest[..used]).is_err() {
                    starve(hub, conn);
                    return HeadTurn::Stops;
                }
                let answer = answer_head(alloc, answerer, &self.unread.as_slice()[skip..]);
                let goes = deliver(alloc, hub, conn, answer);
                self.unread.clear();
                self.seen = Seen::nothing();
                turn_behind(goes, used)
            }
            Look::TooLong => {
                refuse(alloc, hub, conn);
                HeadTurn::Stops
            }
            Look::More(seen) => self.keep(hub, conn, rest, seen),
        }
    }

    // Looks at more bytes, each once.
    fn look(&self, rest: &[u8]) -> Look
        ensures found { result ≡ look_of (self.now ++ rest.now) }
        ensures placed { IsPlaced (length self.now) (length rest.now) result }
        ensures few { IsBelowLimit result }
    {
        self.seen.look(rest)
    }

    // Keeps bytes in which no head ends.
    fn keep<H: Hub>(&mut self, hub: &mut H, conn: u32, rest: &[u8], seen: Seen) -> HeadTurn
        requires live { IsLive (H.state hub.old) conn }
        requires seen { IsOpen (self.old ++ rest.now) seen }

        ensures held { HoldsBytes conn self.old rest.now result self.new (H.talk hub.old) (H.talk hub.new) }
        ensures calm { Calm H.state H.talk H.faults H.send_faults hub.old hub.new }
    {
        match self.unread.extend_from_slice(rest) {
            Ok(()) => {
                self.seen = seen;
                HeadTurn::Holds
            }
            Err(_) => {
                starve(hub, conn);
                HeadTurn::Stops
            }
        }
    }
}

// A turn that answered a head, which ended behind so many bytes.
fn turn_behind(goes: bool, used: usize) -> HeadTurn
    ensures { result ≡ cond goes (HeadTurn.Next used) HeadTurn.Stops }
{
    if goes {
        HeadTurn::Next(used)
    } else {
        HeadTurn::Stops
    }
}

// Sends the response where no head ends within the limit.
fn refuse<H: Hub>(alloc: Global, hub: &mut H, conn: u32)
    requires live { IsLive (H.state hub.old) conn }

    ensures refused { IsTurnedAway conn (H.talk hub.old) (H.talk hub.new) }
    ensures calm { Calm H.state H.talk H.faults H.send_faults hub.old hub.new }
{
    let _ = deliver(alloc, hub, conn, Ok(too_long()));
}
