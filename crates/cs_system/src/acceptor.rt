//! Who lets connections in.
ghost use Rattle.std.specs.Prelude.{◌≡◌, ◌↔◌, ◌≤◌, ◌+◌, ◌-◌, ◌^◌, min, true, false, IsSome};
ghost use Rattle.cs_system.specs.declared.bounds.TheConstants.{ACCEPT_TRIES};
ghost use Rattle.cs_system.specs.SystemErrors.{SaysNobody};

use crate::bounds::{ACCEPT_PAUSE, ACCEPT_TRIES};
use crate::phase::has_passed;
use mio::net::{TcpListener, TcpStream};
use std::io::{self, ErrorKind};
use std::time::Instant;

/// A listener that doesn't wait.
pub trait Accept {
    /// What a connection comes as.
    type Stream: Drop;

    /// The next connection, where one waits.
    fn accept_now(&self) -> io::Result<Self::Stream>;
}

impl Accept for TcpListener {
    type Stream = TcpStream;

    fn accept_now(&self) -> io::Result<TcpStream> {
        let (stream, _) = self.accept()?;
        Ok(stream)
    }
}

/// A listener, with what is known of those who wait to come in.
#[derive(Drop)]
pub struct Acceptor<L: Drop> {
    listener: L,
    is_awaited: bool,
    // Since when nobody is let in.
    paused: Option<Instant>,
    // How often letting someone in failed since someone came in.
    failures: u32,
}

impl<L: Accept + Drop> Acceptor<L> {
    /// Nobody is known to wait.
    pub fn new(listener: L) -> Acceptor<L> {
        Acceptor {
            listener,
            is_awaited: false,
            paused: None,
            failures: 0,
        }
    }

    /// The listener.
    pub fn listener(&self) -> &L {
        &self.listener
    }

    /// Notes that someone may wait.
    pub fn note(&mut self) {
        self.is_awaited = true;
    }

    /// Whether someone may wait.
    pub fn is_awaited(&self) -> bool {
        self.is_awaited
    }

    /// Whether someone may be let in now.
    pub fn is_open(&self) -> bool {
        self.is_awaited && self.paused.is_none()
    }

    /// Whether nobody is let in for a while.
    pub fn is_paused(&self) -> bool {
        self.paused.is_some()
    }

    /// Lets nobody in for a while.
    pub fn pause(&mut self, now: Instant) {
        self.paused = Some(now);
    }

    /// Ends a pause.
    pub fn go_on(&mut self) {
        self.paused = None;
    }

    /// Ends a pause that was long enough.
    pub fn look(&mut self, now: Instant) {
        if let Some(since) = self.paused {
            if has_passed(since, now, ACCEPT_PAUSE) {
                self.paused = None;
            }
        }
    }

    /// One who waits, who is then to be let in. Where that fails it pauses.
    pub fn accept(&mut self, now: Instant) -> Option<L::Stream>
        ensures { IsSome result → self.new.failures ≡ self.old.failures }
    {
        match self.listener.accept_now() {
            Ok(stream) => Some(stream),
            Err(error) => {
                self.note_failure(error.kind(), now);
                None
            }
        }
    }

    // One who went away before coming in is no failure, nor is that nobody waits.
    fn note_failure(&mut self, kind: ErrorKind, now: Instant)
        ensures nobody { SaysNobody kind → (self.new.failures ≡ self.old.failures) × (self.new.paused ≡ self.old.paused) }
        ensures failed { ¬ SaysNobody kind → self.new.failures ≡ min (self.old.failures + 1) (2 ^ 32 - 1) }
    {
        match kind {
            ErrorKind::WouldBlock => self.is_awaited = false,
            ErrorKind::Interrupted | ErrorKind::ConnectionAborted => {}
            _ => self.note_admission(false, now),
        }
    }

    /// Notes whether one who waited came in. Where not it pauses.
    pub fn note_admission(&mut self, is_in: bool, now: Instant)
        ensures came { is_in ≡ true → self.new.failures ≡ 0 }
        ensures failed { is_in ≡ false → self.new.failures ≡ min (self.old.failures + 1) (2 ^ 32 - 1) }
    {
        if is_in {
            self.failures = 0;
        } else {
            self.failures = self.failures.saturating_add(1);
            self.paused = Some(now);
        }
    }

    /// Whether serving ends, since nobody could be let in for long and nobody is there.
    pub fn gives_up(&self, is_deserted: bool) -> bool
        ensures { result ≡ true ↔ ((is_deserted ≡ true) × (ACCEPT_TRIES ≤ self.now.failures)) }
    {
        is_deserted && self.failures >= ACCEPT_TRIES
    }
}
