//! Scripts of events.
ghost use Rattle.std.specs.Prelude.{◌≡◌, ◌<◌, [], MatchOption, drop, length, true};
ghost use Rattle.cs_base.specs.outside.Hub.{came_of};
ghost use Rattle.cs_base.specs.outside.ScriptedHub.{comes, is_lawful, left_behind, playable};
ghost use Rattle.cs_base.specs.outside.ScriptParts.{connected, without_given, given_at, hub_of, left_from, left_in, Fits, HeadIs};

use crate::Seq;
use crate::outside::connections::Connections;
use crate::outside::hub::Event;

/// An event of a script.
#[derive(Debug, Drop)]
pub enum Scripted {
    /// The next connection is opened.
    Opened,
    /// Bytes come on a connection.
    Piece {
        /// The connection's number.
        conn: u32,
        /// The bytes, at least one. Where the buffer holds fewer, they come in several events.
        bytes: Seq<u8>,
    },
    /// A connection ends.
    Ended {
        /// The connection's number.
        conn: u32,
    },
}

// The events of a script, and which of them are left.
#[derive(Debug, Drop)]
pub(crate) struct Script {
    pub events: Vec<Scripted>,
    // Where the first one stands that is left.
    pub place: usize,
    // How many bytes of it came, where it is a piece.
    pub given: usize,
}

// An event that comes, and where the script goes on behind it.
#[derive(Clone, Copy, Debug)]
pub(crate) struct Turn {
    pub event: Event,
    pub place: usize,
    pub given: usize,
}

impl Script {
    /// The next lawful event, with its bytes at the front of `into`; Over where none is left.
    pub fn turn(&self, connections: &Connections, conns: u32, into: &mut [u8]) -> Turn
        ensures came { came_of result.event into.new ≡ comes (hub_of conns (connected connections.now)) (length into.old) (playable (hub_of conns (connected connections.now)) (left_in self.now)) }
        ensures left { without_given result.given (drop result.place self.now.events.items) ≡ left_behind (length into.old) (playable (hub_of conns (connected connections.now)) (left_in self.now)) }
        ensures fits { Fits (length into.old) result.event }
    {
        match self.lawful_place(connections, conns) {
            Some(place) => self.turn_at(place, connections, conns, into),
            None => Turn {
                event: Event::Over,
                place: self.events.len(),
                given: 0,
            },
        }
    }

    // Where the first lawful event stands of those that are left.
    fn lawful_place(&self, connections: &Connections, conns: u32) -> Option<usize>
        ensures { MatchOption result (playable (hub_of conns (connected connections.now)) (left_in self.now) ≡ []) (λ place. (place < length self.now.events.items) × HeadIs (λ e. is_lawful (hub_of conns (connected connections.now)) e ≡ true) (left_from self.now place) × (left_from self.now place ≡ playable (hub_of conns (connected connections.now)) (left_in self.now))) }
    {
        for place in self.place..self.events.len() {
            if self.may_come(place, connections, conns) {
                return Some(place);
            }
        }
        None
    }

    // Whether the event at a place is lawful.
    fn may_come(&self, place: usize, connections: &Connections, conns: u32) -> bool
        requires { place < length self.now.events.items }

        ensures { HeadIs (λ e. result ≡ is_lawful (hub_of conns (connected connections.now)) e) (left_from self.now place) }
    {
        match &self.events[place] {
            Scripted::Opened => connections.len() < conns as usize,
            Scripted::Piece { conn, bytes } => {
                !self.rest(place, bytes).is_empty() && connections.is_live(*conn)
            }
            Scripted::Ended { conn } => connections.is_live(*conn),
        }
    }

    // The event at a place, with its bytes at the front of `into`.
    fn turn_at(&self, place: usize, connections: &Connections, conns: u32, into: &mut [u8]) -> Turn
        requires within { place < length self.now.events.items }
        requires lawful { HeadIs (λ e. is_lawful (hub_of conns (connected connections.now)) e ≡ true) (left_from self.now place) }

        ensures came { came_of result.event into.new ≡ comes (hub_of conns (connected connections.now)) (length into.old) (left_from self.now place) }
        ensures left { without_given result.given (drop result.place self.now.events.items) ≡ left_behind (length into.old) (left_from self.now place) }
        ensures fits { Fits (length into.old) result.event }
    {
        let behind = place + 1;
        match &self.events[place] {
            Scripted::Opened => Turn {
                event: Event::Opened(connections.len() as u32),
                place: behind,
                given: 0,
            },
            Scripted::Piece { conn, bytes } => {
                let rest = self.rest(place, bytes);
                let count = rest.len().min(into.len());
                into[..count].copy_from_slice(&rest[..count]);
                Turn {
                    event: Event::Piece(*conn, count),
                    place,
                    given: bytes.len() - rest.len() + count,
                }
            }
            Scripted::Ended { conn } => Turn {
                event: Event::Ended(*conn),
                place: behind,
                given: 0,
            },
        }
    }

    // The bytes of the piece at a place that didn't come yet.
    fn rest<'a>(&self, place: usize, bytes: &'a Seq<u8>) -> &'a [u8]
        ensures { result.now ≡ drop (given_at self.now place) bytes.now }
    {
        let given = if place == self.place { self.given } else { 0 };
        let bytes = bytes.as_slice();
        if given < bytes.len() {
            &bytes[given..]
        } else {
            &[]
        }
    }
}
