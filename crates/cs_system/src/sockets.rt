//! The sockets of the connections, and whose turn it is.
ghost use Rattle.std.specs.Prelude.{◌≡◌, ◌≤◌, ℕ, Option, IfSome, true};
ghost use Rattle.cs_system.specs.declared.bounds.TheConstants.{KEPT_MOST};
ghost use Rattle.cs_system.specs.{Living.{IsSocketTurn, IsSocketStep}, Seats.{HasSeat}};

use crate::bounds::{KEPT_MOST, SWEEP, TURNS};
use crate::living::lives;
use crate::phase::has_passed;
use crate::socket::{Linger, Pause, Socket};
use mio::Token;
use mio::net::TcpStream;
use slab::Slab;
use std::alloc::{AllocError, Global};
use std::collections::VecDeque;
use std::io::{self, ErrorKind};
use std::time::Instant;

/// What came.
#[derive(Clone, Copy, Debug, PartialEq, Eq)]
pub enum SocketTurn {
    /// The connection that was to come.
    Opened(u32),
    /// So many bytes on a live connection.
    Piece(u32, usize),
    /// The end of a live connection.
    Ended(u32),
}

// What a socket's turn gave.
#[derive(Clone, Copy, Debug, PartialEq, Eq)]
pub enum SocketStep {
    // So many bytes on a live connection, and whether there may be more.
    Piece(u32, usize, bool),
    // The end of a live connection, which is done with.
    Ended(u32),
    // The end of a live connection whose time is up.
    Late(u32),
    // There is more to do for one that was closed.
    Again,
    // One that was closed is done with.
    Done,
    // Nothing now.
    Rests,
}

// Where the socket of a live connection is.
#[derive(Clone, Copy, Debug)]
struct Place {
    number: u32,
    key: usize,
}

/// The sockets that were let in and aren't done with.
#[derive(Drop)]
pub struct Sockets {
    // By the number that the system reports them under.
    slab: Slab<Socket<TcpStream>>,
    // No key of it is greater or the same.
    top: usize,
    // Those that are live, by number.
    places: Vec<Place>,
    // How many there may be.
    most: usize,
    // Those of which the system reported something, and those that had a turn and may have more; each is in one of them once.
    ready: VecDeque<usize>,
    busy: VecDeque<usize>,
    // The next turn is a busy one's.
    is_busy_turn: bool,
    // How many have their turn before the system is asked again.
    left: usize,
    // About how many bytes are kept that peers haven't taken.
    kept: usize,
    now: Instant,
    swept: Instant,
    // One is done with, so there may be room for another.
    has_left: bool,
    alloc: Global,
}

impl Sockets {
    /// None yet, with the memory for so many.
    pub fn new(alloc: Global, most: usize, now: Instant) -> Result<Sockets, AllocError> {
        Ok(Sockets {
            slab: Slab::with_capacity(alloc, most)?,
            top: 0,
            places: Vec::with_capacity(alloc, most)?,
            most,
            ready: VecDeque::with_capacity(alloc, most)?,
            busy: VecDeque::with_capacity(alloc, most)?,
            is_busy_turn: false,
            left: 0,
            kept: 0,
            now,
            swept: now,
            has_left: false,
            alloc,
        })
    }

    /// Whether there are none.
    pub fn is_empty(&self) -> bool {
        self.slab.is_empty()
    }

    /// The time of the last look at what the system reports.
    pub fn now(&self) -> Instant {
        self.now
    }

    /// Whether none has its turn before the system is asked again.
    pub fn is_round_over(&self) -> bool {
        self.left == 0
    }

    /// How many are to have their turn.
    pub fn waiting(&self) -> usize {
        self.ready.len().saturating_add(self.busy.len())
    }

    /// Begins a look at what the system reports.
    pub fn begin_look(&mut self, now: Instant) {
        self.now = now;
    }

    /// Ends a look.
    pub fn end_look(&mut self) {
        self.sweep();
        self.left = self.waiting().min(TURNS);
    }

    /// Whether one became done with since this was asked.
    pub fn take_left(&mut self) -> bool {
        let has_left = self.has_left;
        self.has_left = false;
        has_left
    }

    /// Notes what the system reports.
    pub fn note(&mut self, token: Token, is_writable: bool, is_over: bool) {
        let now = self.now;
        if let Some(socket) = self.slab.get_mut(token.0) {
            if is_writable || is_over {
                socket.flush(now);
            }
            if is_over {
                socket.note_end();
            }
        }
        self.queue(token.0, false);
    }

    // The one that has its turn: in turns one that was reported and one that is busy, so that who asks one thing doesn't wait behind
    // all who ask many.
    fn pop(&mut self) -> Option<usize> {
        self.is_busy_turn = !self.is_busy_turn;
        self.left = self.left.saturating_sub(1);
        if self.is_busy_turn {
            match self.busy.pop_front() {
                Some(key) => Some(key),
                None => self.ready.pop_front(),
            }
        } else {
            match self.ready.pop_front() {
                Some(key) => Some(key),
                None => self.busy.pop_front(),
            }
        }
    }

    // Gives a socket its turn, behind those that have it before.
    fn queue(&mut self, key: usize, is_busy: bool) {
        let is_new = match self.slab.get_mut(key) {
            Some(socket) => socket.queue(),
            None => false,
        };
        if is_new && self.push(key, is_busy).is_err() {
            if let Some(socket) = self.slab.get_mut(key) {
                socket.unqueue();
            }
        }
    }

    fn push(&mut self, key: usize, is_busy: bool) -> io::Result<()> {
        let answer = if is_busy {
            self.busy.push_back(key)
        } else {
            self.ready.push_back(key)
        };
        if answer.is_err() {
            return Err(ErrorKind::OutOfMemory.into());
        }
        Ok(())
    }

    // A socket is done with, which makes a place.
    fn remove(&mut self, key: usize) {
        let _ = self.slab.try_remove(key);
        self.has_left = true;
    }

    // Sends on what is pending, and finds those whose time is up.
    fn sweep(&mut self) {
        if !has_passed(self.swept, self.now, SWEEP) {
            return;
        }
        self.swept = self.now;
        self.kept = 0;
        for key in 0..self.top {
            self.sweep_one(key);
        }
    }

    fn sweep_one(&mut self, key: usize) {
        let Some(socket) = self.slab.get_mut(key) else {
            return;
        };
        let is_free = socket.flush(self.now);
        let is_due = socket.is_due(self.now);
        if is_due {
            socket.expire();
        }
        let kept = socket.kept();
        self.kept = self.kept.saturating_add(kept);
        if is_free || is_due {
            self.queue(key, false);
        }
    }

    /// Whether there is room, and memory, for another one.
    pub fn has_room(&mut self) -> bool
        ensures { result ≡ true → HasSeat self.new }
    {
        self.slab.len() < self.most
            && self.slab.reserve(1).is_ok()
            && self.places.reserve(1).is_ok()
    }

    /// The number that the system reports the next one under.
    pub fn next_token(&self) -> Token {
        Token(self.slab.vacant_key())
    }

    /// Keeps a stream. This takes no memory.
    pub fn seat(&mut self, stream: TcpStream, number: u32)
        requires { HasSeat self.old }
    {
        let socket = Socket::new(self.alloc, stream, number, self.now);
        let key = self.slab.insert_reserved(socket);
        self.places.push_reserved(Place { number, key });
        self.top = self.top.max(key.saturating_add(1));
    }

    /// Ends the one that makes way best for another one. Whether there is one.
    pub fn make_way(&mut self) -> bool {
        let mut best: Option<usize> = None;
        for key in 0..self.top {
            if self.is_better(key, best) {
                best = Some(key);
            }
        }
        let Some(key) = best else {
            return false;
        };
        if let Some(socket) = self.slab.get_mut(key) {
            socket.spare();
        }
        self.queue(key, false);
        true
    }

    fn is_better(&self, key: usize, best: Option<usize>) -> bool {
        let Some(socket) = self.slab.get(key) else {
            return false;
        };
        if !socket.is_spare(self.now) {
            return false;
        }
        match best.and_then(|best| self.slab.get(best)) {
            Some(other) => socket.goes_before(other),
            None => true,
        }
    }

    /// The next turn of a socket. It may give nothing. Where nobody else waits, it gives all that was read.
    pub fn serve(
        &mut self,
        live: &Vec<u32>,
        into: &mut [u8],
        is_awaited: bool,
    ) -> Option<SocketTurn>
        ensures { IfSome result (λ t. (o : Option ℕ) → IsSocketTurn live.now.items o into.new t) }
    {
        let key = self.pop()?;
        let is_whole = !is_awaited && self.kept == 0 && self.waiting() == 0;
        match step_of(self.slab.get_mut(key), live, into, is_whole, self.now) {
            SocketStep::Piece(number, count, may_have_more) => {
                if may_have_more {
                    self.queue(key, true);
                }
                Some(SocketTurn::Piece(number, count))
            }
            SocketStep::Ended(number) => {
                let _ = self.take_place(number);
                self.remove(key);
                Some(SocketTurn::Ended(number))
            }
            SocketStep::Late(number) => {
                self.close(number);
                Some(SocketTurn::Ended(number))
            }
            SocketStep::Again => {
                self.queue(key, true);
                None
            }
            SocketStep::Done => {
                self.remove(key);
                None
            }
            SocketStep::Rests => None,
        }
    }

    /// The next turn of a socket where all are closed.
    pub fn serve_closed(&mut self) {
        let Some(key) = self.pop() else {
            return;
        };
        let linger = match self.slab.get_mut(key) {
            Some(socket) => {
                socket.unqueue();
                socket.linger(self.now)
            }
            None => Linger::Rests,
        };
        self.go_on(key, linger);
    }

    // The key of a live connection.
    fn key_of(&self, number: u32) -> Option<usize> {
        let at = self
            .places
            .binary_search_by_key(&number, |place| place.number)
            .ok()?;
        Some(self.places[at].key)
    }

    // The key of a connection that is live no more.
    fn take_place(&mut self, number: u32) -> Option<usize> {
        let at = self
            .places
            .binary_search_by_key(&number, |place| place.number)
            .ok()?;
        Some(self.places.remove(at).key)
    }

    /// Sends bytes on a connection.
    pub fn send(&mut self, number: u32, bytes: &[u8]) -> io::Result<()>
        ensures { self.old.kept ≤ KEPT_MOST → self.new.kept ≤ KEPT_MOST }
    {
        let now = self.now;
        let Some(key) = self.key_of(number) else {
            return Err(ErrorKind::NotConnected.into());
        };
        let room = KEPT_MOST.saturating_sub(self.kept);
        let mut more = 0usize;
        let answer = match self.slab.get_mut(key) {
            Some(socket) => {
                let before = socket.kept();
                let answer = socket.send(bytes, room, now);
                more = socket.kept().saturating_sub(before);
                answer
            }
            None => Err(ErrorKind::NotConnected.into()),
        };
        self.kept = self.kept.saturating_add(more);
        answer
    }

    /// Closes a connection. It is still sent what it is to be sent, while others are served.
    pub fn close(&mut self, number: u32) {
        let now = self.now;
        let Some(key) = self.take_place(number) else {
            return;
        };
        let linger = match self.slab.get_mut(key) {
            Some(socket) => {
                socket.leave(now);
                socket.linger(now)
            }
            None => Linger::Rests,
        };
        self.go_on(key, linger);
    }

    // What becomes of a socket that was closed.
    fn go_on(&mut self, key: usize, linger: Linger) {
        match linger {
            Linger::Again => self.queue(key, true),
            Linger::Done => self.remove(key),
            Linger::Rests => {}
        }
    }
}

// A socket's turn. One that isn't live was closed. One whose time is up has bytes all the same where they came before it was
// looked, but for one that took too long for a head.
fn step_of(
    socket: Option<&mut Socket<TcpStream>>,
    live: &Vec<u32>,
    into: &mut [u8],
    is_whole: bool,
    now: Instant,
) -> SocketStep
    ensures { IsSocketStep live.now.items into.new result }
{
    let Some(socket) = socket else {
        return SocketStep::Rests;
    };
    socket.unqueue();
    let number = socket.number();
    if !lives(live, number) {
        return match socket.linger(now) {
            Linger::Rests => SocketStep::Rests,
            Linger::Again => SocketStep::Again,
            Linger::Done => SocketStep::Done,
        };
    }
    if socket.is_dead() {
        return SocketStep::Ended(number);
    }
    if socket.is_stuck() {
        return SocketStep::Late(number);
    }
    if socket.is_pending() {
        return SocketStep::Rests;
    }
    match socket.read(into, is_whole, now) {
        Ok(count) => SocketStep::Piece(number, count, socket.may_have_more()),
        Err(Pause::Blocked) if socket.is_late() => SocketStep::Late(number),
        Err(Pause::Blocked) if socket.is_spared() => SocketStep::Ended(number),
        Err(Pause::Blocked) => SocketStep::Rests,
        Err(Pause::Ended) => SocketStep::Ended(number),
    }
}
