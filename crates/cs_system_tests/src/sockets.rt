//! A connection over a stream that fails in between, who lets connections in, and where heads end.
use crate::equal::same;
use crate::weak::Weak;
use cs_system::{Accept, Acceptor, HeadMark, Linger, Socket, first_part};
use std::cell::Cell;
use std::io::{self, ErrorKind};
use std::test::Fail;
use std::time::{Duration, Instant};

#[test]
fn what_is_not_taken_is_kept(rt: HostRuntime) -> Result<(), Fail> {
    let now = Instant::now(&rt)?;
    let mut socket = Socket::new(rt.alloc(), Weak { calls: 0 }, 7, now);
    let mut into = [0u8; 4];
    let count = socket.read(&mut into, true, now);
    same(&rt, &(count, into[0]), &(Ok(1), b'r'), "read");
    socket.send(b"0123456789", 64, now)?;
    same(&rt, &socket.kept(), &4, "what is left");
    socket.send(b"ab", 64, now)?;
    same(&rt, &socket.kept(), &6, "behind it");
    socket.flush(now);
    same(
        &rt,
        &(socket.is_pending(), socket.kept()),
        &(false, 0),
        "all",
    );
    socket.send(b"0123456789", 64, now)?;
    let cut = (
        socket.send(&[0u8; 65], 64, now).is_err(),
        socket.send(b"a", 64, now).is_err(),
    );
    same(&rt, &cut, &(true, true), "no room, and nothing behind");
    socket.leave(now);
    let kept = (socket.is_dead(), socket.kept(), socket.linger(now));
    same(&rt, &kept, &(false, 7, Linger::Rests), "what came before");
    same(&rt, &(socket.flush(now), socket.kept()), &(true, 0), "sent");
    let read = (socket.linger(now), socket.linger(now));
    same(&rt, &read, &(Linger::Rests, Linger::Again), "read on");
    Ok(())
}

#[test]
fn a_broken_stream_is_done_with(rt: HostRuntime) -> Result<(), Fail> {
    let now = Instant::now(&rt)?;
    let mut socket = Socket::new(rt.alloc(), Weak { calls: 999 }, 7, now);
    let sent = socket.send(b"a", 64, now).is_err();
    let found = (sent, socket.is_dead(), socket.linger(now));
    same(&rt, &found, &(true, true, Linger::Done), "broken");
    Ok(())
}

// Whether its time is up so many seconds after then.
fn is_due(socket: &Socket<Weak>, then: Instant, seconds: u64) -> bool {
    match then.checked_add(Duration::from_secs(seconds)) {
        Some(now) => socket.is_due(now),
        None => false,
    }
}

#[test]
fn half_a_head_is_no_response(rt: HostRuntime) -> Result<(), Fail> {
    let now = Instant::now(&rt)?;
    let mut socket = Socket::new(rt.alloc(), Weak { calls: 0 }, 7, now);
    let first = (is_due(&socket, now, 9), is_due(&socket, now, 10));
    same(&rt, &first, &(false, true), "the first byte");
    let _ = socket.read(&mut [0u8; 4], true, now);
    let head = (is_due(&socket, now, 29), is_due(&socket, now, 30));
    same(&rt, &head, &(false, true), "a head");
    socket.send(b"abc", 64, now)?;
    let half = (is_due(&socket, now, 29), is_due(&socket, now, 30));
    same(&rt, &half, &(false, true), "the rest of a head");
    let mut other = Socket::new(rt.alloc(), Weak { calls: 0 }, 8, now);
    other.send(b"abc", 64, now)?;
    let idle = (is_due(&other, now, 59), is_due(&other, now, 60));
    same(&rt, &idle, &(false, true), "the next request");
    Ok(())
}

#[test]
fn a_reader_that_goes_on_is_not_cut_off(rt: HostRuntime) -> Result<(), Fail> {
    let mut now = Instant::now(&rt)?;
    let mut socket = Socket::new(rt.alloc(), Weak { calls: 0 }, 7, now);
    let reply = [b'x'; 100];
    socket.send(&reply, 100, now)?;
    let mut late = 0u32;
    for _ in 0..20 {
        now = now.checked_add(Duration::from_secs(9)).unwrap_or(now);
        late = late.saturating_add(u32::from(socket.is_pending() && socket.is_due(now)));
        socket.flush(now);
    }
    same(&rt, &(late, socket.is_pending()), &(0, false), "the reply");
    Ok(())
}

// A listener whose first two calls fail, and of which the next finds nobody.
#[derive(Drop)]
struct Failing {
    left: Cell<u32>,
}

impl Accept for Failing {
    type Stream = Weak;

    fn accept_now(&self) -> io::Result<Weak> {
        let left = self.left.get();
        self.left.set(left.saturating_sub(1));
        match left {
            4 | 3 => Err(ErrorKind::Other.into()),
            2 => Ok(Weak { calls: 0 }),
            _ => Err(ErrorKind::WouldBlock.into()),
        }
    }
}

#[test]
fn who_fails_to_come_in_may_try_again(rt: HostRuntime) -> Result<(), Fail> {
    let mut now = Instant::now(&rt)?;
    let mut acceptor = Acceptor::new(Failing { left: Cell::new(4) });
    acceptor.note();
    let (mut came, mut paused) = (0u32, 0u32);
    for _ in 0..4 {
        came = came.saturating_add(u32::from(acceptor.accept(now).is_some()));
        paused = paused.saturating_add(u32::from(acceptor.is_paused()));
        now = now.checked_add(Duration::from_secs(1)).unwrap_or(now);
        acceptor.look(now);
    }
    let seen = (came, paused, acceptor.is_awaited(), acceptor.gives_up(true));
    same(&rt, &seen, &(1, 2, false, false), "who came");
    Ok(())
}

#[test]
fn heads_end_behind_an_empty_line(rt: HostRuntime) -> Result<(), Fail> {
    let rows: [(&[u8], usize, bool); 6] = [
        (b"GET / HTTP/1.1\r\n\r\nGET", 18, false),
        (b"\n\r\na\n\r\nb", 7, false),
        (b"a\n\r\r\n", 5, true),
        (b"\n\n\n", 3, false),
        (b"a\r\n\nb\n\n", 4, false),
        (b"a\r", 2, true),
    ];
    for (row, (bytes, count, has_begun)) in rows.iter().enumerate() {
        let part = first_part(bytes, HeadMark::Between, false);
        let found = (part.count, part.mark.has_begun());
        same(&rt, &found, &(*count, *has_begun), row);
    }
    Ok(())
}
