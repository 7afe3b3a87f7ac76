//! One live connection.
ghost use Rattle.std.specs.Prelude.{◌≡◌, ◌≤◌, ◌<◌, ◌++◌, ◌-◌, [], length, take, drop, is_some};
ghost use Rattle.cs_base.specs.declared.content.limits.TheConstants.{MAX_CONNECTION_BYTES as MOST};
ghost use Rattle.cs_base.specs.outside.Hub.{IsLive};
ghost use Rattle.cs_hub.specs.{Asked.{AsksAsSent, StaysAnswering}, DueReads.{SentBefore, requests_on}, Speaking.{Calm}, Turns.{KeepsBelow, Received}};

use crate::answering::Answerer;
use crate::reading::{HeadTurn, Unread};
use cs_base::{Hub, MAX_CONNECTION_BYTES};
use std::alloc::Global;
use std::marker::Model;

/// A live connection: its unread bytes, and how many bytes were taken, fewer than count.
#[derive(Debug, Drop)]
pub(crate) struct Line {
    reading: Unread,
    taken: usize,
}

impl Model for Line {
    ghost use Rattle.std.specs.Prelude.{◌<◌};
    ghost use Rattle.cs_base.specs.declared.content.limits.TheConstants.{MAX_CONNECTION_BYTES as LIMIT};
    ghost use Rattle.cs_model_serving.specs.Connections.{Left};
    ghost use Rattle.cs_hub.specs.Speaking.{left_code};

    ghost Value = { Left };

    ghost coded = { left_code };

    ghost view = { λ l. record { taken = l.taken; unread = l.reading } };

    ghost invariant = { λ l. l.taken < LIMIT };
}

impl Line {
    /// Nothing came. It takes no memory.
    pub fn new(alloc: Global) -> Line
        ensures { result ≡ record { taken = 0; unread = [] } }
    {
        Line {
            reading: Unread::new(alloc),
            taken: 0,
        }
    }

    /// Answers the heads that end in a piece; None where the connection is to be closed.
    pub fn receive<A: Answerer, H: Hub>(
        self,
        alloc: Global,
        answerer: &mut A,
        hub: &mut H,
        conn: u32,
        piece: &[u8],
    ) -> Option<Line>
        requires live { IsLive (H.state hub.old) conn }

        ensures received { Received (A.answers answerer.old) conn self piece.now result (A.faults answerer.old) (A.faults answerer.new) (H.talk hub.old)
            (H.talk hub.new) }
        ensures room { self.taken < MOST }
        ensures asked { AsksAsSent A.leaves (is_some result) (requests_on (self.unread ++ take (MOST - self.taken) piece.now)) (A.kept answerer.old)
            (A.kept answerer.new) (SentBefore conn (is_some result) (self.unread ++ take (MOST - self.taken) piece.now) (H.talk hub.old) (H.talk hub.new)) }
        ensures stays { StaysAnswering A.answers A.lent A.faults answerer.old answerer.new }
        ensures calm { Calm H.state H.talk H.faults H.send_faults hub.old hub.new }
    {
        let Line { mut reading, taken } = self;
        let counted = first_of(piece, MAX_CONNECTION_BYTES - taken);
        let mut rest = counted;
        loop {
            match reading.turn(alloc, answerer, hub, conn, rest) {
                HeadTurn::Next(used) => rest = behind(rest, used),
                HeadTurn::Holds => return kept_of(reading, taken + counted.len()),
                HeadTurn::Stops => return None,
            }
        }
    }
}

// A connection that goes on behind its bytes; None where no more of them count.
fn kept_of(reading: Unread, taken: usize) -> Option<Line>
    ensures { KeepsBelow taken reading result }
{
    if taken < MAX_CONNECTION_BYTES {
        Some(Line { reading, taken })
    } else {
        None
    }
}

// The bytes behind so many.
fn behind(bytes: &[u8], count: usize) -> &[u8]
    requires { count ≤ length bytes.now }

    ensures { result.now ≡ drop count bytes.now }
{
    &bytes[count..]
}

// So many first bytes, or all.
fn first_of(piece: &[u8], count: usize) -> &[u8]
    ensures { result.now ≡ take count piece.now }
{
    if piece.len() <= count {
        return piece;
    }
    &piece[..count]
}
