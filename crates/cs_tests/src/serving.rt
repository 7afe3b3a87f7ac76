//! What no clause says: that with memory at hand responses come, each on its own connection, and that serving ends.
use crate::engine::engine_over;
use crate::hubs::{Came, TWO_CONNECTIONS, hub_of};
use crate::runs::same;
use cs_base::{Hub, MemStore, Memory, ScriptHub};
use cs_hub::{ServeEnd, serve};
use cs_worked::{HEADS, LONG_HEAD, NO_DOCUMENTS, NO_QUERY, OTHER_PATH};
use std::alloc::Global;
use std::process::Abort;
use std::test::Fail;

// Serves two connections of a hub to the end, over the empty collection.
fn serve_two(alloc: Global, hub: &mut ScriptHub) -> Result<(), Fail> {
    let mut store = MemStore::new(NO_DOCUMENTS.file.to_vec(alloc)?);
    let mut engine = engine_over(alloc, &mut store)?;
    hub.listen(8080, 2)?;
    if serve(alloc, &mut engine, &mut store, hub, 2) != ServeEnd::Done {
        return Err(Fail::new("another end"));
    }
    Ok(())
}

#[test]
fn each_connection_has_its_own_unread_bytes(rt: HostRuntime) -> Result<(), Fail> {
    let mut hub = hub_of(rt.alloc(), TWO_CONNECTIONS)?;
    serve_two(rt.alloc(), &mut hub)?;
    same(
        &rt,
        &hub.sent(0),
        &NO_QUERY.response.as_bytes(),
        "in pieces",
    );
    same(&rt, &hub.sent(1), &LONG_HEAD.as_bytes(), "too long");
    Ok(())
}

// The heads of the table, and one behind that which closes the connection.
fn all_heads(alloc: Global) -> Result<Vec<u8>, Memory> {
    let mut heads = Vec::new(alloc);
    for (head, _) in HEADS {
        heads.extend_from_slice(head.as_bytes())?;
    }
    heads.extend_from_slice(OTHER_PATH.as_bytes())?;
    Ok(heads)
}

// That the responses of the table are sent, and nothing behind them.
fn are_sent(rt: &impl Abort, sent: &[u8]) {
    let mut rest = sent;
    for (head, response) in HEADS {
        same(rt, &rest.starts_with(response.as_bytes()), &true, *head);
        rest = rest.get(response.len()..).unwrap_or(b"");
    }
    same(rt, &rest, &b"".as_slice(), "the rest");
}

#[test]
fn heads_are_answered_until_one_closes_the_connection(rt: HostRuntime) -> Result<(), Fail> {
    let heads = all_heads(rt.alloc())?;
    let rows = [
        Came::Opened,
        Came::Piece(0, &heads),
        Came::Piece(0, NO_QUERY.head.as_bytes()),
    ];
    let mut hub = hub_of(rt.alloc(), &rows)?;
    serve_two(rt.alloc(), &mut hub)?;
    are_sent(&rt, hub.sent(0));
    Ok(())
}

// A refused head behind which the connection is closed: the head, the status, the body's length and the body.
type Closing = (&'static str, &'static str, usize, &'static str);

// Each refusal of a head and of parameters, over HTTP/1.0 or with the word `close`; and bytes that are no head.
const CLOSING: &[Closing] = &[
    (
        "GET /x HTTP/1.0\r\n\r\n",
        "404 Not Found",
        16,
        r#"{"error":"path"}"#,
    ),
    (
        "GET /x HTTP/1.1\r\nConnection: Close\r\n\r\n",
        "404 Not Found",
        16,
        r#"{"error":"path"}"#,
    ),
    (
        "POST /search HTTP/1.0\r\n\r\n",
        "405 Method Not Allowed\r\nAllow: GET",
        18,
        r#"{"error":"method"}"#,
    ),
    (
        "PUT /search?q=a HTTP/1.1\r\nConnection: x, close\r\n\r\n",
        "405 Method Not Allowed\r\nAllow: GET",
        18,
        r#"{"error":"method"}"#,
    ),
    (
        "GET /search?q=a%7C%7Cb HTTP/1.0\r\n\r\n",
        "400 Bad Request",
        22,
        r#"{"at":2,"error":"bad"}"#,
    ),
    (
        "GET /search?q=a%7C%7Cb HTTP/1.1\r\nConnection: close\r\n\r\n",
        "400 Bad Request",
        22,
        r#"{"at":2,"error":"bad"}"#,
    ),
    (
        "GET /search?q=a&h=101 HTTP/1.0\r\n\r\n",
        "400 Bad Request",
        29,
        r#"{"error":"param","param":"h"}"#,
    ),
    (
        "GET /search?q=a&f=Author HTTP/1.1\r\nConnection: close\r\n\r\n",
        "400 Bad Request",
        29,
        r#"{"error":"param","param":"f"}"#,
    ),
    (
        "GET /search?q=a+a+a+a+a+a+a+a+a+a+a+a+a+a+a+a+a HTTP/1.0\r\n\r\n",
        "400 Bad Request",
        41,
        r#"{"at":32,"error":"limit","which":"parts"}"#,
    ),
    (
        "GET /search HTTP/1.0\r\nContent-Length: 1\r\n\r\n",
        "400 Bad Request",
        16,
        r#"{"error":"body"}"#,
    ),
    (
        "GET /search\r\n\r\n",
        "400 Bad Request",
        16,
        r#"{"error":"head"}"#,
    ),
];

// What is sent on a connection for such a head, and another one behind it.
fn sent_for(alloc: Global, head: &str) -> Result<Vec<u8>, Fail> {
    let rows = [
        Came::Opened,
        Came::Piece(0, head.as_bytes()),
        Came::Piece(0, NO_QUERY.head.as_bytes()),
    ];
    let mut hub = hub_of(alloc, &rows)?;
    serve_two(alloc, &mut hub)?;
    Ok(hub.sent(0).to_vec(alloc)?)
}

#[test]
fn a_refused_head_closes_the_connection_and_is_told_as_what_it_is(
    rt: HostRuntime,
) -> Result<(), Fail> {
    let alloc = rt.alloc();
    for (head, status, len, body) in CLOSING {
        let want = format!(in alloc;
            "HTTP/1.1 {status}\r\nContent-Type: application/json\r\nContent-Length: {len}\r\nConnection: close\r\n\r\n{body}"
        )?;
        let sent = sent_for(alloc, head)?;
        same(&rt, &sent.as_slice(), &want.as_str().as_bytes(), *head);
    }
    Ok(())
}

#[test]
fn a_failed_send_is_that_of_one_connection(rt: HostRuntime) -> Result<(), Fail> {
    let alloc = rt.alloc();
    let head = NO_QUERY.head.as_bytes();
    let rows = [
        Came::Opened,
        Came::Opened,
        Came::Piece(1, head),
        Came::Piece(0, head),
        Came::Piece(1, head),
        Came::Piece(0, head),
    ];
    let mut hub = hub_of(alloc, &rows)?;
    hub.fail_send(vec![in alloc; 2]?);
    serve_two(alloc, &mut hub)?;
    same(&rt, &hub.sent(0), &b"".as_slice(), "the first");
    let sent = format!(in alloc; "{}{}", NO_QUERY.response, NO_QUERY.response)?;
    same(&rt, &hub.sent(1), &sent.as_str().as_bytes(), "the second");
    Ok(())
}
