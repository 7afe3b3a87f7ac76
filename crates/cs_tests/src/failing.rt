//! What no clause says: each call of the outside fails in turn, and what a run then leaves.
use crate::hubs::{Came, TWO_CONNECTIONS, hub_of};
use crate::runs::{ASK, REPLAY, SERVE, built, run_beside, run_over, same, status_of};
use cs_base::{MemFiles, MemSink};
use cs_worked::{BAD_FACET, FAILED_READ, NO_DOCUMENTS, THREE_DOCUMENTS};
use std::alloc::Global;
use std::test::Fail;

// What is typed, key by key, and then the first word alone again.
const TYPING: &[u8] = b"q=t\nq=ty\nq=typ\nq=typ+s\nq=typ+se\nq=typ\n";

// Which calls fail.
#[derive(Clone, Copy, Debug, PartialEq, Eq)]
enum Calls {
    Reads,
    Writes,
    Puts,
    Says,
    Nexts,
    Sends,
}

// What a run leaves.
#[derive(Drop)]
struct Left {
    status: u8,
    index: Vec<u8>,
    out: Vec<u8>,
    err: Vec<u8>,
    first: Vec<u8>,
    second: Vec<u8>,
}

impl Left {
    fn is(&self, whole: &Left) -> bool {
        self.status == whole.status
            && self.index.as_slice() == whole.index.as_slice()
            && self.out.as_slice() == whole.out.as_slice()
            && self.err.as_slice() == whole.err.as_slice()
            && self.first.as_slice() == whole.first.as_slice()
            && self.second.as_slice() == whole.second.as_slice()
    }

    // A beginning of what a whole run leaves, whatever is said.
    fn begins(&self, whole: &Left) -> bool {
        whole.index.as_slice().starts_with(&self.index)
            && whole.out.as_slice().starts_with(&self.out)
            && whole.first.as_slice().starts_with(&self.first)
            && whole.second.as_slice().starts_with(&self.second)
    }
}

// The files of all runs: two collections, a script, and two index files, of which the second one is of no documents.
fn all_files(alloc: Global) -> Result<MemFiles, Fail> {
    let mut files = built(alloc, THREE_DOCUMENTS, TYPING)?;
    files.hold("B", BAD_FACET.to_vec(alloc)?)?;
    files.hold("E", NO_DOCUMENTS.file.to_vec(alloc)?)?;
    Ok(files)
}

// What a run of the words leaves where the k-th of these calls fails.
fn left_at(alloc: Global, words: &[&str], calls: Calls, k: u64) -> Result<Left, Fail> {
    let mut files = all_files(alloc)?;
    let mut hub = hub_of(alloc, TWO_CONNECTIONS)?;
    let mut out = MemSink::new(alloc);
    let mut err = MemSink::new(alloc);
    let failing = vec![in alloc; k; 1]?;
    match calls {
        Calls::Reads => files.fail_reads(failing),
        Calls::Writes => files.fail_writes(failing),
        Calls::Puts => out.fail(failing),
        Calls::Says => err.fail(failing),
        Calls::Nexts => hub.fail_next(failing),
        Calls::Sends => hub.fail_send(failing),
    }
    let status = status_of(alloc, words, &mut files, &mut hub, &mut out, &mut err)?;
    let index = files.bytes("N").unwrap_or(b"");
    Ok(Left {
        status,
        index: index.to_vec(alloc)?,
        out: out.into_bytes(),
        err: err.into_bytes(),
        first: hub.sent(0).to_vec(alloc)?,
        second: hub.sent(1).to_vec(alloc)?,
    })
}

// The status where one of these calls failed.
fn status_behind(calls: Calls) -> u8 {
    match calls {
        Calls::Says => 3,
        Calls::Sends => 0,
        Calls::Reads | Calls::Writes | Calls::Puts | Calls::Nexts => 6,
    }
}

// Where a read failed, lines are right or say so; where a send did, the other connection has what it should have.
fn is_right(calls: Calls, left: &Left, whole: &Left) -> bool {
    match calls {
        Calls::Reads => are_right(&left.out, &whole.out),
        Calls::Sends => {
            left.begins(whole)
                && (left.first.as_slice() == whole.first.as_slice()
                    || left.second.as_slice() == whole.second.as_slice())
        }
        Calls::Writes | Calls::Puts | Calls::Says | Calls::Nexts => left.begins(whole),
    }
}

// The line that says that a read failed.
const FAILED: &[u8] = b"{\"error\":\"read\"}\n";

// Whether whole lines are put, each that of the whole text or one that says that a read failed. Where one says so none is missing: a read of
// the script failed where some are.
fn are_right(out: &[u8], whole: &[u8]) -> bool {
    let mut is_said = false;
    let mut wanted = whole.split_inclusive(|b| *b == b'\n');
    for line in out.split_inclusive(|b| *b == b'\n') {
        is_said = is_said || line == FAILED;
        if wanted.next() != Some(line) && line != FAILED {
            return false;
        }
    }
    !is_said || wanted.next().is_none()
}

// Each of these calls fails in turn, up to a run in which none does. How many runs failed.
fn fails_in_turn(alloc: Global, words: &[&str], calls: Calls) -> Result<u64, Fail> {
    let whole = left_at(alloc, words, calls, 0)?;
    for k in 1..200 {
        let left = left_at(alloc, words, calls, k)?;
        if left.is(&whole) {
            return Ok(k - 1);
        }
        if left.status != status_behind(calls) || !is_right(calls, &left, &whole) {
            return Err(Fail::new("something else is left"));
        }
    }
    Err(Fail::new("no run was whole"))
}

// Command lines, and calls that fail while they are run.
const FAILING: &[(&[&str], Calls)] = &[
    (&["build", "C", "N"], Calls::Writes),
    (&["upgrade", "I", "N"], Calls::Writes),
    (&["merge", "I", "E", "N"], Calls::Reads),
    (REPLAY, Calls::Reads),
    (ASK, Calls::Puts),
    (&["serve", "E", "8080", "2"], Calls::Sends),
    (&["serve", "E", "8080", "2"], Calls::Nexts),
    (&["ask", "B", "Q"], Calls::Says),
];

#[test]
fn each_call_fails_in_turn(rt: HostRuntime) -> Result<(), Fail> {
    for (words, calls) in FAILING {
        let failed = fails_in_turn(rt.alloc(), words, *calls)?;
        same(&rt, &(failed > 0), &true, *words);
    }
    Ok(())
}

const UNREAD: &[u8] = b"{\"error\":\"read\"}\n{\"at\":2,\"error\":\"bad\"}\n";

// Each read in turn: of the index file at opening, of the script, and of blocks and titles, where a line says so.
#[test]
fn a_failed_read_of_a_replay_is_said_in_its_line(rt: HostRuntime) -> Result<(), Fail> {
    let mut is_said = false;
    for k in 1..100 {
        let mut files = built(rt.alloc(), THREE_DOCUMENTS, b"q=typ\nq=a||b\n")?;
        files.fail_reads(vec![in rt.alloc(); k; 1]?);
        let left = run_over(rt.alloc(), REPLAY, &mut files)?;
        if left.status == 0 {
            assert!(rt; is_said);
            return Ok(());
        }
        same(&rt, &left.status, &6, k);
        if left.is(6, UNREAD, "device failed\n") {
            is_said = true;
        }
    }
    Err(Fail::new("no run was whole"))
}

const ANSWER: &str = concat!(
    "HTTP/1.1 200 OK\r\nContent-Type: application/json\r\nContent-Length: 151\r\n\r\n",
    r#"{"completions":[{"docs":2,"word":"type"},{"docs":1,"word":"typed"},{"docs":1,"word":"types"}],"facets":{},"#,
    r#""hits":[],"total":{"completions":3,"hits":3}}"#,
);

fn is_twice(sent: &[u8], response: &[u8]) -> bool {
    sent.len() == 2 * response.len() && sent.starts_with(response) && sent.ends_with(response)
}

// The status, and what was sent, where all reads from the k-th on fail.
fn served_without_reads(alloc: Global, k: u64) -> Result<(u8, Vec<u8>), Fail> {
    let mut files = all_files(alloc)?;
    let mut failing = Vec::new(alloc);
    for behind in 0..10_000u64 {
        failing.push(k.saturating_add(behind))?;
    }
    files.fail_reads(failing);
    let head = b"GET /search?q=typ&h=0 HTTP/1.1\r\n\r\nGET /search?q=typ&h=0 HTTP/1.1\r\n\r\n";
    let rows = [Came::Opened, Came::Piece(0, head), Came::Ended(0)];
    let mut hub = hub_of(alloc, &rows)?;
    let left = run_beside(alloc, SERVE, &mut files, &mut hub)?;
    Ok((left.status, hub.sent(0).to_vec(alloc)?))
}

// Opening fails, then the blocks of the first request, and then nothing: the second request is answered from what is kept.
#[test]
fn a_second_request_needs_no_read(rt: HostRuntime) -> Result<(), Fail> {
    let mut is_stopped = false;
    let mut is_unread = false;
    for k in 1..200 {
        let (status, sent) = served_without_reads(rt.alloc(), k)?;
        if is_twice(&sent, ANSWER.as_bytes()) {
            assert!(rt; status == 0 && is_stopped && is_unread);
            return Ok(());
        }
        let is_read = status == 0;
        let is_right = if is_read {
            is_twice(&sent, FAILED_READ.as_bytes())
        } else {
            status == 6 && sent.is_empty()
        };
        same(&rt, &is_right, &true, k);
        is_unread = is_unread || is_read;
        is_stopped = is_stopped || !is_read;
    }
    Err(Fail::new("no run was whole"))
}
