//! What no clause says of a hub that plays a script: that with memory at hand its calls succeed where they aren't to fail.
ghost use Rattle.std.specs.Prelude.{◌<◌, length};

use crate::tests::rows::same;
use cs_base::{Event, Hub, ScriptHub, Scripted, Seq};
use std::alloc::Global;
use std::process::Abort;
use std::test::Fail;

// A piece of a script.
fn piece(alloc: Global, conn: u32, bytes: &[u8]) -> Result<Scripted, Fail> {
    let bytes = Seq::from_vec(bytes.to_vec(alloc)?);
    Ok(Scripted::Piece { conn, bytes })
}

// Two connections: a request that comes in two pieces, and between them a head without end on the other one.
fn two_connections(alloc: Global) -> Result<ScriptHub, Fail> {
    let mut events = Seq::new(alloc);
    for _ in 0..2 {
        events.push(Scripted::Opened)?;
    }
    events.push(piece(alloc, 0, b"GET /search?q= HT")?)?;
    for _ in 0..2 {
        events.push(piece(alloc, 1, &[b'a'; 4096])?)?;
    }
    events.push(piece(alloc, 0, b"TP/1.1\r\n\r\n")?)?;
    events.push(Scripted::Ended { conn: 0 })?;
    Ok(ScriptHub::new(alloc, events))
}

// An event, and the bytes that come with it.
type Row = (Event, &'static [u8]);

// Both connections are opened, which comes first.
const OPENED: &[Row] = &[(Event::Opened(0), b""), (Event::Opened(1), b"")];

const WHOLE_PIECES: &[Row] = &[
    (Event::Piece(0, 17), b"GET /search?q= HT"),
    (Event::Piece(1, 4096), &[b'a'; 4096]),
    (Event::Piece(1, 4096), &[b'a'; 4096]),
];

const IN_PARTS: &[Row] = &[
    (Event::Piece(0, 16), b"GET /search?q= H"),
    (Event::Piece(0, 1), b"T"),
];

const LETTERS: &[Row] = &[(Event::Piece(1, 16), &[b'a'; 16])];

// The end of the request, then that of its connection, and then nothing.
const REST: &[Row] = &[
    (Event::Piece(0, 10), b"TP/1.1\r\n\r\n"),
    (Event::Ended(0), b""),
    (Event::Over, b""),
    (Event::Over, b""),
];

// That these events come next, with their bytes.
fn come(rt: &impl Abort, hub: &mut ScriptHub, buffer: &mut [u8], rows: &[Row])
    requires { 0 < length buffer.old }
{
    for (event, bytes) in rows {
        let found = (hub.next(buffer), buffer.starts_with(bytes));
        same(rt, &found, &(Ok(*event), true), "the script");
    }
}

#[test]
fn events_come_in_order(rt: HostRuntime) -> Result<(), Fail> {
    let mut buffer = [0; 4096];
    let mut hub = two_connections(rt.alloc())?;
    hub.listen(8080, 2)?;
    for rows in [OPENED, WHOLE_PIECES, REST] {
        come(&rt, &mut hub, &mut buffer, rows);
    }
    Ok(())
}

#[test]
fn long_pieces_come_in_parts(rt: HostRuntime) -> Result<(), Fail> {
    let mut buffer = [0; 16];
    let mut hub = two_connections(rt.alloc())?;
    hub.listen(8080, 2)?;
    come(&rt, &mut hub, &mut buffer, OPENED);
    come(&rt, &mut hub, &mut buffer, IN_PARTS);
    for _ in 0..512 {
        come(&rt, &mut hub, &mut buffer, LETTERS);
    }
    come(&rt, &mut hub, &mut buffer, REST);
    Ok(())
}

// A script of which some events can't come: pieces and an end of what isn't open, a second connection where one may be.
fn early_events(alloc: Global) -> Result<ScriptHub, Fail> {
    let mut events = Seq::new(alloc);
    events.push(piece(alloc, 0, b"too early")?)?;
    events.push(Scripted::Opened)?;
    events.push(Scripted::Opened)?;
    events.push(piece(alloc, 0, b"")?)?;
    events.push(Scripted::Ended { conn: 1 })?;
    events.push(piece(alloc, 0, b"in time")?)?;
    Ok(ScriptHub::new(alloc, events))
}

const IN_TIME: &[Row] = &[(Event::Opened(0), b""), (Event::Piece(0, 7), b"in time")];

#[test]
fn events_that_cannot_come_are_left_out(rt: HostRuntime) -> Result<(), Fail> {
    let mut hub = early_events(rt.alloc())?;
    let mut buffer = [0; 16];
    hub.listen(8080, 1)?;
    come(&rt, &mut hub, &mut buffer, IN_TIME);
    hub.close(0);
    come(&rt, &mut hub, &mut buffer, &[(Event::Over, b"")]);
    Ok(())
}

#[test]
fn a_listed_listen_and_next_fail(rt: HostRuntime) -> Result<(), Fail> {
    let mut hub = two_connections(rt.alloc())?;
    let mut buffer = [0; 16];
    hub.fail_next(vec![in rt.alloc(); 1, 3]?);
    assert!(rt; hub.listen(8080, 2).is_err());
    hub.listen(8080, 2)?;
    assert!(rt; hub.next(&mut buffer).is_err());
    come(&rt, &mut hub, &mut buffer, &[(Event::Opened(0), b"")]);
    Ok(())
}

#[test]
fn a_listed_send_fails(rt: HostRuntime) -> Result<(), Fail> {
    let mut hub = two_connections(rt.alloc())?;
    let mut buffer = [0; 16];
    hub.listen(8080, 2)?;
    hub.fail_send(vec![in rt.alloc(); 2]?);
    come(&rt, &mut hub, &mut buffer, OPENED);
    let Ok(Event::Piece(conn, _)) = hub.next(&mut buffer) else {
        return Err(Fail::new("another event"));
    };
    hub.send(conn, b"ab")?;
    assert!(rt; hub.send(conn, b"c").is_err());
    hub.send(conn, b"d")?;
    let sent = (hub.sent(0), hub.sent(1));
    same(&rt, &sent, &(b"abd".as_slice(), b"".as_slice()), "sent");
    Ok(())
}
