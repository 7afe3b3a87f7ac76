//! The connections of a hub in memory.
ghost use Rattle.std.specs.Prelude.{◌≡◌, ◌<◌, [], length, OnOk, OnErr, IsOk};
ghost use Rattle.std.specs.FinSet as set;
ghost use Rattle.cs_base.specs.outside.ScriptParts.{connected, connected_of, bytes_on, adds, breaks_off, behind_event};

use crate::Memory;
use crate::outside::hub::Event;
use std::alloc::Global;

// What is kept of one connection.
#[derive(Debug, Drop)]
pub(crate) struct Connection {
    pub live: bool,
    pub broken: bool,
    // None as long as nothing was to be sent.
    pub sent: Option<Vec<u8>>,
}

// The connections that were opened, each at its number.
#[derive(Debug, Drop)]
pub(crate) struct Connections {
    pub list: Vec<Connection>,
    pub alloc: Global,
}

impl Connections {
    /// None was opened. It takes no memory.
    pub fn new(alloc: Global) -> Connections
        ensures { connected result ≡ connected_of [] }
    {
        Connections {
            list: Vec::new(alloc),
            alloc,
        }
    }

    /// Forgets them all.
    pub fn clear(&mut self)
        ensures { connected self.new ≡ connected_of [] }
    {
        self.list.clear();
    }

    /// How many were opened.
    pub fn len(&self) -> usize
        ensures { result ≡ (connected self.now).opened }
    {
        self.list.len()
    }

    /// Whether a connection is live.
    pub fn is_live(&self, conn: u32) -> bool
        ensures { result ≡ set.contains (connected self.now).live conn }
    {
        match self.list.get(conn as usize) {
            Some(connection) => connection.live,
            None => false,
        }
    }

    /// What was sent on a connection; nothing where it wasn't opened.
    pub fn sent(&self, conn: u32) -> &[u8]
        ensures { result.now ≡ bytes_on (connected self.now) conn }
    {
        match self.list.get(conn as usize) {
            Some(connection) => match &connection.sent {
                Some(bytes) => bytes.as_slice(),
                None => &[],
            },
            None => &[],
        }
    }

    /// What an event changes. Where an opened connection finds no memory, nothing changed.
    pub fn hear(&mut self, event: Event) -> Result<(), Memory>
        ensures ok { OnOk result (connected self.new ≡ behind_event event (connected self.old)) }
        ensures err { OnErr result (connected self.new ≡ connected self.old) }
    {
        match event {
            Event::Opened(_) => self.open(),
            Event::Piece(_, _) => Ok(()),
            Event::Ended(conn) => {
                self.end(conn);
                Ok(())
            }
            Event::Over => Ok(()),
        }
    }

    // Opens the next connection.
    fn open(&mut self) -> Result<(), Memory>
        ensures ok { OnOk result (connected self.new ≡ behind_event (Event.Opened (connected self.old).opened) (connected self.old)) }
        ensures err { OnErr result (connected self.new ≡ connected self.old) }
    {
        self.list.push(Connection {
            live: true,
            broken: false,
            sent: None,
        })?;
        Ok(())
    }

    /// A connection isn't live any more, if it was.
    pub fn end(&mut self, conn: u32)
        ensures { connected self.new ≡ behind_event (Event.Ended conn) (connected self.old) }
    {
        if let Some(connection) = self.list.get_mut(conn as usize) {
            connection.live = false;
        }
    }

    /// Adds bytes to what was sent on a connection. Where they find no memory, none of them was, and it is broken.
    pub fn add(&mut self, conn: u32, bytes: &[u8]) -> Result<(), Memory>
        requires opened { conn < (connected self.old).opened }

        ensures ok { OnOk result (connected self.new ≡ adds conn bytes.now (connected self.old)) }
        ensures err { OnErr result (connected self.new ≡ breaks_off conn (connected self.old)) }
        ensures empty { bytes.now ≡ [] → IsOk result }
    {
        let connection = &mut self.list[conn as usize];
        let mut sent = connection.sent.take().unwrap_or(Vec::new(self.alloc));
        let outcome = sent.extend_from_slice(bytes);
        connection.sent = Some(sent);
        match outcome {
            Ok(()) => Ok(()),
            Err(_) => {
                connection.broken = true;
                Err(Memory)
            }
        }
    }

    /// Breaks a connection: nothing more was sent on it.
    pub fn break_off(&mut self, conn: u32)
        requires { conn < (connected self.old).opened }

        ensures { connected self.new ≡ breaks_off conn (connected self.old) }
    {
        let connection = &mut self.list[conn as usize];
        connection.sent = Some(connection.sent.take().unwrap_or(Vec::new(self.alloc)));
        connection.broken = true;
    }
}
