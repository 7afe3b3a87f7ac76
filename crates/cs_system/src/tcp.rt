//! A TCP listener on this machine as the hub that the program meets.
ghost use Rattle.std.specs.Prelude.{◌≡◌, ◌↔◌, [], None, true, IfOk};
ghost use Rattle.cs_system.specs.Living.{IsSocketTurn, AreBelow};

use crate::bounds::MOST_SOCKETS;
use crate::event_loop::EventLoop;
use crate::faults::Faults;
use crate::living::{coming, forget, nobody, welcome};
use crate::room::Room;
use crate::run_files::room;
use crate::run_hub::RunHub;
use crate::sockets::SocketTurn;
use cs_base::{Event, Failed, Hub, Memory};
use std::alloc::Global;
use std::cell::OnceCell;
use std::io::{self, ErrorKind};
use std::net::{Net, SocketAddr};
use std::time::Clock;

/// A listener on 127.0.0.1 that serves its connections side by side.
///
/// It tells nothing of what came and was sent.
#[derive(Drop)]
pub struct TcpHub<'a, R: Net + Clock> {
    alloc: Global,
    rt: &'a R,
    // What the next listening takes memory for, where that was taken.
    room: OnceCell<Room>,
    event_loop: Option<EventLoop>,
    // How many sockets there may be at once.
    most: usize,
    live: Vec<u32>,
    port: u16,
    conns: u32,
    opened: u32,
    faults: Faults,
    send_faults: Faults,
    ghost numbered: { AreBelow opened live.items },
}

impl<'a, R: Net + Clock> TcpHub<'a, R> {
    /// A hub of this runtime that doesn't listen yet, with no failure.
    pub fn new(alloc: Global, rt: &'a R) -> TcpHub<'a, R>
        ensures opened { result.opened ≡ 0 }
        ensures conns { result.conns ≡ 0 }
        ensures live { result.live.items ≡ [] }
        ensures faults { result.faults.count ≡ 0 }
        ensures send_faults { result.send_faults.count ≡ 0 }
    {
        TcpHub {
            alloc,
            rt,
            room: OnceCell::new(),
            event_loop: None,
            most: MOST_SOCKETS,
            live: nobody(alloc),
            port: 0,
            conns: 0,
            opened: 0,
            faults: Faults::none(),
            send_faults: Faults::none(),
        }
    }

    /// The same with room for so many sockets at once.
    pub fn with_room(mut self, most: usize) -> TcpHub<'a, R>
        ensures { result.most ≡ most }
    {
        self.most = most;
        self
    }

    /// Where it listens: with port 0 the system picks one.
    pub fn address(&self) -> io::Result<SocketAddr> {
        match &self.event_loop {
            Some(event_loop) => event_loop.address(),
            None => Err(ErrorKind::NotConnected.into()),
        }
    }
}

impl<R: Net + Clock> Hub for TcpHub<'_, R> {
    ghost use Rattle.cs_system.specs.Living.{telling};

    ghost state = { λ h. telling h.port h.conns h.opened h.live.items };

    ghost talk = { λ _. None };

    ghost faults = { λ h. h.faults.count };

    ghost send_faults = { λ h. h.send_faults.count };

    /// What listened before doesn't any more, so a hub may listen at its port again.
    fn listen(&mut self, port: u16, conns: u32) -> Result<(), Failed> {
        self.event_loop = None;
        let answer = open(self.alloc, self.rt, self.room.take(), self.most, port);
        let (event_loop, live) = self.faults.note(answer)?;
        self.event_loop = Some(event_loop);
        self.live = live;
        self.port = port;
        self.conns = conns;
        self.opened = 0;
        Ok(())
    }

    /// A read that fails ends its connection. Where all connections were opened and none is live, it fails.
    fn next(&mut self, into: &mut [u8]) -> Result<Event, Failed> {
        let comes = coming(&mut self.live, self.opened, self.conns);
        let answer = await_turn(self.rt, &mut self.event_loop, &self.live, comes, into);
        match self.faults.note(answer)? {
            SocketTurn::Opened(number) => {
                welcome(&mut self.live, number);
                self.opened += 1;
                Ok(Event::Opened(number))
            }
            SocketTurn::Piece(number, count) => Ok(Event::Piece(number, count)),
            SocketTurn::Ended(number) => {
                forget(&mut self.live, number);
                settle(
                    self.rt,
                    &mut self.event_loop,
                    &self.live,
                    self.opened,
                    self.conns,
                );
                Ok(Event::Ended(number))
            }
        }
    }

    fn send(&mut self, conn: u32, bytes: &[u8]) -> Result<(), Failed> {
        let answer = match &mut self.event_loop {
            Some(event_loop) => event_loop.send(conn, bytes),
            None => Err(ErrorKind::NotConnected.into()),
        };
        self.send_faults.note(answer)
    }

    /// What the connection is still to be sent goes out while others are served, and before the last one is closed.
    fn close(&mut self, conn: u32) {
        if let Some(event_loop) = &mut self.event_loop {
            event_loop.close(conn);
        }
        forget(&mut self.live, conn);
        settle(
            self.rt,
            &mut self.event_loop,
            &self.live,
            self.opened,
            self.conns,
        );
    }
}

impl<R: Net + Clock> RunHub for TcpHub<'_, R> {
    fn make_room(&self) -> Result<(), Memory> {
        room(take_room(self.alloc, self.rt, self.most, &self.room))
    }
}

fn take_room<C: Clock>(
    alloc: Global,
    clock: &C,
    most: usize,
    into: &OnceCell<Room>,
) -> io::Result<()> {
    let _ = into.set(Room::of(alloc, clock, most)?);
    Ok(())
}

// Listens, with nobody who is live.
fn open<R: Net + Clock>(
    alloc: Global,
    rt: &R,
    room: Option<Room>,
    most: usize,
    port: u16,
) -> io::Result<(EventLoop, Vec<u32>)>
    ensures none { IfOk result (λ p. p.1.items ≡ []) }
    ensures below { IfOk result (λ p. AreBelow 0 p.1.items) }
{
    let Room {
        events,
        sockets,
        live,
    } = match room {
        Some(room) => room,
        None => Room::of(alloc, rt, most)?,
    };
    let event_loop = EventLoop::open(rt, port, events, sockets)?;
    Ok((event_loop, live))
}

// Waits for what comes next.
fn await_turn<C: Clock>(
    clock: &C,
    event_loop: &mut Option<EventLoop>,
    live: &Vec<u32>,
    comes: Option<u32>,
    into: &mut [u8],
) -> io::Result<SocketTurn>
    ensures { IfOk result (λ t. IsSocketTurn live.now.items comes into.new t) }
{
    match event_loop {
        Some(event_loop) if comes.is_some() || !live.is_empty() => event_loop.turn(
            clock, live, comes, into,
        ),
        _ => Err(ErrorKind::NotConnected.into()),
    }
}

// Where nothing comes any more, the connections that were closed are waited for.
fn settle<C: Clock>(
    clock: &C,
    event_loop: &mut Option<EventLoop>,
    live: &Vec<u32>,
    opened: u32,
    conns: u32,
) {
    if is_over(live.is_empty(), opened, conns) {
        if let Some(event_loop) = event_loop {
            event_loop.settle(clock);
        }
    }
}

// Whether nothing comes any more: none is live, and all were opened.
fn is_over(is_deserted: bool, opened: u32, conns: u32) -> bool
    ensures { result ≡ true ↔ ((is_deserted ≡ true) × (opened ≡ conns)) }
{
    is_deserted && opened == conns
}
