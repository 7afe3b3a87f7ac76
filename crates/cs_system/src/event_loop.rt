//! The loop over what the system reports of a listener and the sockets that it let in.
ghost use Rattle.std.specs.Prelude.{◌≡◌, ◌↔◌, ℕ, ◌+◌, ◌*◌, ◌<◌, ◌≤◌, true, false, IfOk, IfSome, IsSome, IsSomeAnd, vec_len, vec_capacity};
ghost use Rattle.std.specs.Net.Addr.{IsLoopbackV4, IsLoopbackV6, MatchIp};
ghost use Rattle.std.specs.Net.Socket.{socket_ip, socket_port};
ghost use Rattle.std.specs.Duration.{as_nanos};
ghost use Rattle.cs_system.specs.declared.bounds.TheConstants.{ACCEPT_PAUSE, SWEEP};
ghost use Rattle.cs_system.specs.Living.{IsSocketTurn};
ghost use Rattle.cs_system.specs.Seats.{HasSeat};

use crate::acceptor::Acceptor;
use crate::bounds::{ACCEPT_PAUSE, SWEEP};
use crate::sockets::{SocketTurn, Sockets};
use mio::net::{TcpListener, TcpStream};
use mio::{Events, Interest, Poll, Token};
use std::io::{self, ErrorKind};
use std::net::{IpAddr, Ipv4Addr, Net, SocketAddr};
use std::time::{Clock, Duration, Instant};

// The listener's name among the sockets' keys.
const LISTENER: Token = Token(usize::MAX);

/// A listener with the sockets that it let in.
#[derive(Drop)]
pub struct EventLoop {
    poll: Poll,
    events: Events,
    acceptor: Acceptor<TcpListener>,
    sockets: Sockets,
    // The last that came is a connection.
    has_admitted: bool,
}

impl EventLoop {
    /// One that listens at this port. It takes no memory.
    pub fn open<R: Net>(
        rt: &R,
        port: u16,
        events: Events,
        sockets: Sockets,
    ) -> io::Result<EventLoop> {
        let mut listener = TcpListener::bind(rt, own_address(port))?;
        let poll = Poll::new(rt)?;
        poll.registry()
            .register(&mut listener, LISTENER, Interest::READABLE)?;
        Ok(EventLoop {
            poll,
            events,
            acceptor: Acceptor::new(listener),
            sockets,
            has_admitted: false,
        })
    }

    /// Where it listens.
    pub fn address(&self) -> io::Result<SocketAddr> {
        self.acceptor.listener().local_addr()
    }

    /// Waits for what comes next. A connection of the number that may come, or bytes or the end of a live one.
    pub fn turn<C: Clock>(
        &mut self,
        clock: &C,
        live: &Vec<u32>,
        comes: Option<u32>,
        into: &mut [u8],
    ) -> io::Result<SocketTurn>
        ensures { IfOk result (λ t. IsSocketTurn live.now.items comes into.new t) }
    {
        for _ in 0..u64::MAX {
            if let Some(turn) = self.round(clock, live, comes, into)? {
                return Ok(turn);
            }
        }
        Err(ErrorKind::Interrupted.into())
    }

    // One try at it: the system is asked where nothing has its turn, then one may come in, then one that is in has its turn.
    fn round<C: Clock>(
        &mut self,
        clock: &C,
        live: &Vec<u32>,
        comes: Option<u32>,
        into: &mut [u8],
    ) -> io::Result<Option<SocketTurn>>
        ensures { IfOk result (λ o. IfSome o (λ t. IsSocketTurn live.now.items comes into.new t)) }
    {
        if self.sockets.is_round_over() {
            self.look(clock, comes.is_some())?;
            if self.acceptor.gives_up(live.is_empty()) {
                return Err(ErrorKind::ConnectionRefused.into());
            }
        }
        if self.sockets.take_left() {
            self.acceptor.go_on();
        }
        let is_awaited = self.admits_now();
        if let Some(number) = comes {
            if is_awaited && self.admit(number) {
                return Ok(Some(SocketTurn::Opened(number)));
            }
        }
        if makes_way(comes, is_awaited, !self.acceptor.is_paused()) {
            self.sockets.make_way();
        }
        self.has_admitted = false;
        let is_awaited = comes.is_some() && self.acceptor.is_awaited();
        Ok(self.sockets.serve(live, into, is_awaited))
    }

    // Asks the system what is ready. It waits where nothing is known to be.
    fn look<C: Clock>(&mut self, clock: &C, may_admit: bool) -> io::Result<()> {
        let timeout = self.timeout(may_admit);
        self.poll.poll(&mut self.events, timeout)?;
        self.sockets.begin_look(Instant::now(clock)?);
        for event in &self.events {
            if event.token() == LISTENER {
                self.acceptor.note();
            } else {
                let is_over = event.is_read_closed() || event.is_error() || event.is_write_closed();
                self.sockets
                    .note(event.token(), event.is_writable(), is_over);
            }
        }
        self.sockets.end_look();
        self.acceptor.look(self.sockets.now());
        Ok(())
    }

    // How long may be waited.
    fn timeout(&self, may_admit: bool) -> Option<Duration> {
        let has_turn = self.sockets.waiting() > 0 || (may_admit && self.acceptor.is_open());
        longest_wait(has_turn, self.acceptor.is_paused(), self.sockets.is_empty())
    }

    // Whether it is tried now to let someone in. Between two that come in, one that is in has its turn.
    fn admits_now(&self) -> bool {
        self.acceptor.is_open() && (!self.has_admitted || self.sockets.is_round_over())
    }

    // Lets one in, if one waits. Where there is no place for it, or letting it in fails, nobody is let in for a while.
    fn admit(&mut self, number: u32) -> bool {
        let now = self.sockets.now();
        if !self.sockets.has_room() {
            self.acceptor.pause(now);
        } else if let Some(stream) = self.acceptor.accept(now) {
            self.has_admitted = self.seat(stream, number);
            self.acceptor.note_admission(self.has_admitted, now);
            return self.has_admitted;
        }
        false
    }

    // Keeps a stream, if the system reports what comes on it. One that sends small parts late is as good.
    fn seat(&mut self, mut stream: TcpStream, number: u32) -> bool
        requires { HasSeat self.old.sockets }
    {
        let token = self.sockets.next_token();
        let interests = Interest::READABLE | Interest::WRITABLE;
        let _ = stream.set_nodelay(true);
        if self
            .poll
            .registry()
            .register(&mut stream, token, interests)
            .is_err()
        {
            return false;
        }
        self.sockets.seat(stream, number);
        true
    }

    /// Sends bytes on a connection.
    pub fn send(&mut self, number: u32, bytes: &[u8]) -> io::Result<()> {
        self.sockets.send(number, bytes)
    }

    /// Closes a connection. It is still sent what it is to be sent, while others are served.
    pub fn close(&mut self, number: u32) {
        self.sockets.close(number);
    }

    /// Waits until all connections that were closed are done with.
    pub fn settle<C: Clock>(&mut self, clock: &C) {
        for _ in 0..u64::MAX {
            if self.sockets.is_empty() || self.settle_some(clock).is_err() {
                break;
            }
        }
    }

    fn settle_some<C: Clock>(&mut self, clock: &C) -> io::Result<()> {
        self.look(clock, false)?;
        for _ in 0..self.sockets.waiting() {
            self.sockets.serve_closed();
        }
        Ok(())
    }
}

// How long may be waited: not at all where one has its turn now, and without end only where there is nothing to look for.
fn longest_wait(has_turn: bool, is_paused: bool, is_empty: bool) -> Option<Duration>
    ensures turn { has_turn ≡ true → IsSomeAnd result (λ d. as_nanos d ≡ 0) }
    ensures rests { has_turn ≡ false → IfSome result (λ d. 0 < as_nanos d) }
    ensures paused { is_paused ≡ true → IsSomeAnd result (λ d. as_nanos d ≤ ACCEPT_PAUSE * 1_000_000) }
    ensures swept { is_empty ≡ false → IsSomeAnd result (λ d. as_nanos d ≤ SWEEP * 1_000_000) }
{
    if has_turn {
        Some(Duration::from_millis(0))
    } else if is_paused {
        Some(Duration::from_millis(ACCEPT_PAUSE))
    } else if is_empty {
        None
    } else {
        Some(Duration::from_millis(SWEEP))
    }
}

// Whether one that is in makes way: where another one is to come, waits, and finds no place.
fn makes_way(comes: Option<u32>, is_awaited: bool, has_place: bool) -> bool
    ensures { result ≡ true ↔ (IsSome comes × (is_awaited ≡ true) × (has_place ≡ false)) }
{
    comes.is_some() && is_awaited && !has_place
}

// Where it listens: nobody on another machine reaches it.
fn own_address(port: u16) -> SocketAddr
    ensures own { MatchIp (socket_ip result) IsLoopbackV4 IsLoopbackV6 }
    ensures port { socket_port result ≡ port }
{
    SocketAddr::new(IpAddr::V4(Ipv4Addr::LOCALHOST), port)
}
