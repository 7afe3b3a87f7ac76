//! The hub over real sockets, which plays both ends in one thread.
use crate::equal::same;
use cs_base::{Event, Failed, Hub};
use cs_system::{KEEP_LEAST, RunHub, TcpHub};
use std::alloc::AllocError;
use std::io::{self, Read, Write};
use std::net::{Shutdown, TcpStream};
use std::test::Fail;
use std::thread;
use std::time::Duration;

const REQUEST: &[u8] = b"GET /search?q=typ HTTP/1.1\r\n\r\n";

const RESPONSE: &[u8] = b"HTTP/1.1 200 OK\r\nContent-Length: 2\r\n\r\n{}";

// A hub that listens for so many connections.
fn listening(rt: &HostRuntime, conns: u32) -> Result<TcpHub<'_, HostRuntime>, Fail> {
    let mut hub = TcpHub::new(rt.alloc(), rt);
    hub.make_room()?;
    hub.listen(0, conns)?;
    Ok(hub)
}

// A client that has sent these bytes.
fn client_of(
    rt: &HostRuntime,
    hub: &TcpHub<'_, HostRuntime>,
    bytes: &[u8],
) -> io::Result<TcpStream> {
    let mut client = TcpStream::connect(rt, hub.address()?)?;
    client.write_all(bytes)?;
    Ok(client)
}

// Opens the first connection and answers the first piece that comes on it. How many bytes that has.
fn answer_first(hub: &mut TcpHub<'_, HostRuntime>, into: &mut [u8; 64]) -> Result<usize, Fail> {
    open_first(hub, into)?;
    let Event::Piece(0, count) = hub.next(into)? else {
        return Err(Fail::new("no piece"));
    };
    hub.send(0, RESPONSE)?;
    Ok(count)
}

// Answers the piece that comes next. The connection that it comes on.
fn answer_next(
    hub: &mut TcpHub<'_, HostRuntime>,
    into: &mut [u8; 64],
    response: &[u8],
) -> Result<u32, Fail> {
    let Event::Piece(conn, _) = hub.next(into)? else {
        return Err(Fail::new("no piece"));
    };
    hub.send(conn, response)?;
    Ok(conn)
}

// Opens the first connection.
fn open_first(hub: &mut TcpHub<'_, HostRuntime>, into: &mut [u8; 64]) -> Result<(), Fail> {
    if hub.next(into)? != Event::Opened(0) {
        return Err(Fail::new("not opened"));
    }
    Ok(())
}

// So many bytes. It has no clause, so that no test's proof goes through them.
fn filled(rt: &HostRuntime, count: usize) -> Result<Vec<u8>, AllocError> {
    vec![in rt.alloc(); b'x'; count]
}

// All that comes to a client.
fn response_of(rt: &HostRuntime, client: &mut TcpStream) -> io::Result<String> {
    let mut response = String::new(rt.alloc());
    client.read_to_string(&mut response)?;
    Ok(response)
}

#[test]
fn a_client_that_ends_its_side_reads_its_response(rt: HostRuntime) -> Result<(), Fail> {
    let mut hub = listening(&rt, 1)?;
    let mut client = client_of(&rt, &hub, REQUEST)?;
    client.shutdown(Shutdown::Write)?;
    let mut into = [0u8; 64];
    let count = answer_first(&mut hub, &mut into)?;
    same(&rt, &into.get(..count), &Some(REQUEST), "the request");
    same(&rt, &hub.next(&mut into), &Ok(Event::Ended(0)), "its end");
    hub.close(0);
    let response = response_of(&rt, &mut client)?;
    same(&rt, &response.as_bytes(), &RESPONSE, "the response");
    same(&rt, &hub.next(&mut into), &Err(Failed), "no more");
    Ok(())
}

// Whether a hub listens on this machine alone, and at which port.
fn place_of(hub: &TcpHub<'_, HostRuntime>) -> io::Result<(bool, u16)> {
    let address = hub.address()?;
    Ok((address.ip().is_loopback(), address.port()))
}

// What another hub is told that is to listen there, and then is asked what comes.
fn told_another(rt: &HostRuntime, port: u16) -> (Result<(), Failed>, Result<Event, Failed>) {
    let mut hub = TcpHub::new(rt.alloc(), rt);
    let listens = hub.listen(port, 1);
    (listens, hub.next(&mut [0u8; 1]))
}

#[test]
fn a_port_in_use_fails_and_ones_own_does_not(rt: HostRuntime) -> Result<(), Fail> {
    let mut piece = [0u8; 1];
    let mut hub = TcpHub::new(rt.alloc(), &rt);
    let before = hub.next(&mut piece);
    hub.listen(0, 1)?;
    let (is_own, port) = place_of(&hub)?;
    let other = told_another(&rt, port);
    hub.listen(port, 2)?;
    let _client = client_of(&rt, &hub, b"")?;
    let found = (before, is_own, other, hub.next(&mut piece));
    let want = (
        Err(Failed),
        true,
        (Err(Failed), Err(Failed)),
        Ok(Event::Opened(0)),
    );
    same(&rt, &found, &want, "before, where, another one, its own");
    Ok(())
}

// As many bytes as the system takes of a reply, and more than it brings to a peer that doesn't read.
const HELD: usize = 524_288;

// More than is read of a request at once.
const UNREAD: usize = 8_192;

#[test]
fn unread_bytes_reset_no_response(rt: HostRuntime) -> Result<(), Fail> {
    let mut hub = listening(&rt, 2)?;
    let mut client = client_of(&rt, &hub, &filled(&rt, UNREAD)?)?;
    let mut into = [0u8; 64];
    open_first(&mut hub, &mut into)?;
    let held = filled(&rt, HELD)?;
    answer_next(&mut hub, &mut into, &held)?;
    hub.close(0);
    let response = response_of(&rt, &mut client)?;
    same(&rt, &response.len(), &HELD, "the response");
    Ok(())
}

#[test]
fn a_silent_connection_holds_nobody_up(rt: HostRuntime) -> Result<(), Fail> {
    let mut hub = listening(&rt, 3)?;
    let _silent = client_of(&rt, &hub, b"")?;
    let _half = client_of(&rt, &hub, b"GET /")?;
    let _asking = client_of(&rt, &hub, REQUEST)?;
    let mut into = [0u8; 64];
    let (mut opened, mut half, mut whole) = (0u32, 0u32, 0u32);
    for _ in 0..5 {
        match hub.next(&mut into)? {
            Event::Opened(number) if number == opened => opened = opened.saturating_add(1),
            Event::Piece(1, 5) => half = half.saturating_add(1),
            Event::Piece(2, count) if count == REQUEST.len() => whole = whole.saturating_add(1),
            _ => return Err(Fail::new("another event")),
        }
    }
    same(&rt, &(opened, half, whole), &(3, 1, 1), "what came");
    Ok(())
}

#[test]
fn heads_have_turns(rt: HostRuntime) -> Result<(), Fail> {
    let mut hub = listening(&rt, 2)?;
    let mut many = client_of(&rt, &hub, REQUEST)?;
    many.write_all(REQUEST)?;
    let _other = client_of(&rt, &hub, REQUEST)?;
    let mut into = [0u8; 128];
    let (mut opened, mut first, mut second) = (0u32, 0u32, 0u32);
    for _ in 0..5 {
        match hub.next(&mut into)? {
            Event::Opened(_) => opened = opened.saturating_add(1),
            Event::Piece(0, count) if count == REQUEST.len() => first = first.saturating_add(1),
            Event::Piece(1, count) if count == REQUEST.len() => second = second.saturating_add(1),
            _ => return Err(Fail::new("another event")),
        }
    }
    same(&rt, &(opened, first, second), &(2, 2, 1), "heads");
    Ok(())
}

#[test]
fn one_that_rests_makes_way(rt: HostRuntime) -> Result<(), Fail> {
    let mut hub = TcpHub::new(rt.alloc(), &rt).with_room(1);
    hub.listen(0, 2)?;
    let mut first = client_of(&rt, &hub, REQUEST)?;
    let mut into = [0u8; 64];
    answer_first(&mut hub, &mut into)?;
    let _second = client_of(&rt, &hub, REQUEST)?;
    same(&rt, &hub.next(&mut into), &Ok(Event::Ended(0)), "its end");
    same(&rt, &hub.next(&mut into), &Ok(Event::Opened(1)), "the next");
    let response = response_of(&rt, &mut first)?;
    same(&rt, &response.as_bytes(), &RESPONSE, "the response");
    Ok(())
}

#[test]
fn one_that_may_not_come_ends_nobody(rt: HostRuntime) -> Result<(), Fail> {
    let mut hub = TcpHub::new(rt.alloc(), &rt).with_room(2);
    hub.listen(0, 2)?;
    let _first = client_of(&rt, &hub, REQUEST)?;
    let mut into = [0u8; 64];
    answer_first(&mut hub, &mut into)?;
    let _second = client_of(&rt, &hub, &filled(&rt, 2048)?)?;
    same(&rt, &hub.next(&mut into), &Ok(Event::Opened(1)), "the next");
    let _third = client_of(&rt, &hub, REQUEST)?;
    thread::sleep(&rt, Duration::from_millis(2 * KEEP_LEAST));
    let mut pieces = 0u32;
    for _ in 0..32 {
        pieces = pieces.saturating_add(u32::from(hub.next(&mut into)? == Event::Piece(1, 64)));
    }
    same(&rt, &pieces, &32, "the second one's");
    Ok(())
}

#[test]
fn a_send_that_fails_is_told(rt: HostRuntime) -> Result<(), Fail> {
    let mut hub = listening(&rt, 1)?;
    let client = client_of(&rt, &hub, REQUEST)?;
    let mut into = [0u8; 64];
    open_first(&mut hub, &mut into)?;
    let Event::Piece(0, _) = hub.next(&mut into)? else {
        return Err(Fail::new("no piece"));
    };
    hub.send(0, RESPONSE)?;
    drop(client);
    same(&rt, &hub.send(0, RESPONSE), &Err(Failed), "no reader");
    Ok(())
}

// More bytes than the system takes of a reply that isn't read.
const LONG: usize = 16_777_216;

#[test]
fn a_reply_that_is_not_read_waits_for_its_reader(rt: HostRuntime) -> Result<(), Fail> {
    let mut hub = listening(&rt, 2)?;
    let slow = client_of(&rt, &hub, REQUEST)?;
    let mut into = [0u8; 64];
    open_first(&mut hub, &mut into)?;
    let long = filled(&rt, LONG)?;
    answer_next(&mut hub, &mut into, &long)?;
    let mut other = client_of(&rt, &hub, REQUEST)?;
    same(
        &rt,
        &hub.next(&mut into),
        &Ok(Event::Opened(1)),
        "the other",
    );
    let next = answer_next(&mut hub, &mut into, RESPONSE)?;
    hub.close(next);
    let response = response_of(&rt, &mut other)?;
    same(&rt, &response.as_bytes(), &RESPONSE, "the other's response");
    drop(slow);
    same(&rt, &hub.next(&mut into), &Ok(Event::Ended(0)), "its end");
    Ok(())
}
