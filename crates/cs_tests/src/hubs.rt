//! Hubs that play a script.
use cs_base::{Memory, ScriptHub, Scripted, Seq};
use std::alloc::Global;

/// What comes to a hub.
#[derive(Clone, Copy)]
pub(crate) enum Came<'a> {
    Opened,
    Piece(u32, &'a [u8]),
    Ended(u32),
}

/// A request that comes in two pieces, and beside it a head that is too long.
pub(crate) const TWO_CONNECTIONS: &[Came<'static>] = &[
    Came::Opened,
    Came::Opened,
    Came::Piece(0, b"GET /search?q= HT"),
    Came::Piece(1, &[b'a'; 4096]),
    Came::Piece(1, &[b'a'; 4096]),
    Came::Piece(0, b"TP/1.1\r\n\r\n"),
    Came::Ended(0),
];

/// A hub to which this comes.
pub(crate) fn hub_of(alloc: Global, rows: &[Came<'_>]) -> Result<ScriptHub, Memory> {
    let mut events = Seq::new(alloc);
    for row in rows {
        events.push(event_of(alloc, *row)?)?;
    }
    Ok(ScriptHub::new(alloc, events))
}

fn event_of(alloc: Global, row: Came<'_>) -> Result<Scripted, Memory> {
    match row {
        Came::Opened => Ok(Scripted::Opened),
        Came::Piece(conn, bytes) => {
            let bytes = Seq::from_vec(bytes.to_vec(alloc)?);
            Ok(Scripted::Piece { conn, bytes })
        }
        Came::Ended(conn) => Ok(Scripted::Ended { conn }),
    }
}
