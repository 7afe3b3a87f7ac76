//! The memory that listening takes, so that it can be taken before.
ghost use Rattle.std.specs.Prelude.{◌≡◌, []};
ghost use Rattle.cs_system.specs.Living.{AreBelow};

use crate::bounds::EVENTS;
use crate::living::nobody_yet;
use crate::sockets::Sockets;
use mio::Events;
use std::alloc::Global;
use std::io;
use std::time::{Clock, Instant};

/// Memory for what is known of so many connections at once.
#[derive(Drop)]
pub struct Room {
    /// For what the system reports.
    pub events: Events,
    /// For their sockets.
    pub sockets: Sockets,
    /// For the numbers of those that are live; none is.
    pub live: Vec<u32>,
    ghost none: { live.items ≡ [] },
    ghost below: { AreBelow 0 live.items },
}

impl Room {
    /// Takes it.
    pub fn of<C: Clock>(alloc: Global, clock: &C, most: usize) -> io::Result<Room> {
        let now = Instant::now(clock)?;
        Ok(Room {
            events: Events::with_capacity(alloc, EVENTS)?,
            sockets: Sockets::new(alloc, most, now)?,
            live: nobody_yet(alloc, most)?,
        })
    }
}
