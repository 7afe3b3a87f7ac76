//! Heads of requests, and the responses: a reply of each status that a head alone can bring about.
use crate::WorkedHead;

// A response: its status and what stands behind that, the length of its body and what stands behind that, and its body.
macro_rules! response {
    ($status:literal, $length:literal, $body:literal) => {
        concat!(
            "HTTP/1.1 ",
            $status,
            "\r\nContent-Type: application/json\r\nContent-Length: ",
            $length,
            "\r\n\r\n",
            $body
        )
    };
}

/// A path that is none of the program's.
pub const OTHER_PATH: &str = "GET /x HTTP/1.1\r\n\r\n";

/// The right path with a method that it does not have.
pub const OTHER_METHOD: &str = "POST /search HTTP/1.1\r\n\r\n";

// The second bar is refused, escaped or not.
const REFUSED_QUERY: &str = "GET /search?q=a%7C%7Cb HTTP/1.1\r\n\r\n";

/// A body may follow, so where the next head begins isn't known.
pub const ANNOUNCED_BODY: &str = "GET /search HTTP/1.1\r\nTransfer-Encoding: chunked\r\n\r\n";

/// Heads that are refused over every collection, each with its response; the last one closes the connection.
pub const HEADS: &[(&str, &str)] = &[
    (
        OTHER_PATH,
        response!("404 Not Found", "16", r#"{"error":"path"}"#),
    ),
    (
        OTHER_METHOD,
        response!(
            "405 Method Not Allowed\r\nAllow: GET",
            "18",
            r#"{"error":"method"}"#
        ),
    ),
    (
        REFUSED_QUERY,
        response!("400 Bad Request", "22", r#"{"at":2,"error":"bad"}"#),
    ),
    (
        ANNOUNCED_BODY,
        response!(
            "400 Bad Request",
            "16\r\nConnection: close",
            r#"{"error":"body"}"#
        ),
    ),
];

/// The empty query over no documents.
pub const NO_QUERY: WorkedHead = WorkedHead {
    head: "GET /search?q= HTTP/1.1\r\n\r\n",
    response: response!(
        "200 OK",
        "75",
        r#"{"completions":[],"facets":{},"hits":[],"total":{"completions":0,"hits":0}}"#
    ),
};

/// The query `typ`.
pub const TYPED_HEAD: &str = "GET /search?q=typ HTTP/1.1\r\n\r\n";

/// The same over the three documents.
pub const TYPED: WorkedHead = WorkedHead {
    head: TYPED_HEAD,
    response: response!(
        "200 OK",
        "307",
        r#"{"completions":[{"docs":2,"word":"type"},{"docs":1,"word":"typed"},{"docs":1,"word":"types"}],"facets":{},"hits":[{"doc":0,"score":4,"title":"Type less find more"},{"doc":2,"score":4,"title":"Typed lambda calculi"},{"doc":1,"score":1,"title":"The CompleteSearch engine"}],"total":{"completions":3,"hits":3}}"#
    ),
};

/// The response to a head that is too long.
pub const LONG_HEAD: &str = response!(
    "431 Request Header Fields Too Large",
    "25\r\nConnection: close",
    r#"{"error":"head too long"}"#
);

/// The response to a request for which the index file could not be read.
pub const FAILED_READ: &str = response!("500 Internal Server Error", "16", r#"{"error":"read"}"#);
