//! What no clause says: that with memory at hand worked scripts have these replies, and how the lines read.
use crate::hubs::{Came, hub_of};
use crate::runs::{ASK, REPLAY, SERVE, built, held, run_beside, run_over, same};
use cs_base::Memory;
use cs_worked::{
    BAD_FACET, BAD_NAME, BAD_WEIGHTS, EXCERPTED, PREFIX, SCRIPTS, SECOND_BAR, THREE_DOCUMENTS,
    TYPED, USAGE, Worked, WorkedScript,
};
use std::alloc::Global;
use std::process::Abort;
use std::test::Fail;

const TRIAL: &[&str] = &["trial", "1"];

const IMPORT_CSV: &[&str] = &["import", "csv", "C", "I"];

const IMPORT_JSONL: &[&str] = &["import", "jsonl", "C", "I"];

const UPGRADE: &[&str] = &["upgrade", "I", "N"];

const MERGE: &[&str] = &["merge", "C", "Q", "N"];

const EXCERPTS: &[&str] = &["excerpts", "C", "Q"];

// What a plain search over sets of rows, in another language, counts of the first trial.
const SUMMARY: &str =
    "documents 100\nrows 1600\nblocks 2\nreplies 260\nhits 4023\nsame 47\nnarrow 189\nextend 20\nfresh 4\n";

// What is put for a word that stands in each of eleven documents.
const MANY_ROWS: &[u8] =
    b"{\"completions\":[{\"docs\":11,\"word\":\"a\"}],\"facets\":{},\"hits\":[],\"total\":{\"completions\":1,\"hits\":11}}\n";

// The lines, each with an ending.
fn script_of(alloc: Global, rows: &[Worked]) -> Result<Vec<u8>, Memory> {
    let mut script = Vec::new(alloc);
    for row in rows {
        script.extend_from_slice(row.line.as_bytes())?;
        script.push(b'\n')?;
    }
    Ok(script)
}

// That the replies to these lines are put, each in a line, and nothing behind them.
fn are_put(rt: &impl Abort, out: &[u8], rows: &[Worked]) {
    let mut replies = out.split(|b| *b == b'\n');
    for row in rows {
        let reply = replies.next();
        same(rt, &reply, &Some(row.reply.as_bytes()), row.line);
    }
    same(rt, &replies.next(), &Some(b"".as_slice()), "the last line");
    same(rt, &replies.next(), &None, "its end");
}

fn are_answered(rt: &impl Abort, alloc: Global, row: &WorkedScript) -> Result<(), Fail> {
    let script = script_of(alloc, row.lines)?;
    let mut files = built(alloc, row.collection, &script)?;
    for words in [ASK, REPLAY] {
        let left = run_over(alloc, words, &mut files)?;
        let ending = (left.status, left.err.as_slice());
        same(rt, &ending, &(0, b"".as_slice()), row.collection);
        are_put(rt, &left.out, row.lines);
    }
    Ok(())
}

// Over a collection, and over its index file.
#[test]
fn lines_have_these_replies(rt: HostRuntime) -> Result<(), Fail> {
    for row in SCRIPTS {
        are_answered(&rt, rt.alloc(), row)?;
    }
    Ok(())
}

#[test]
fn hits_have_these_excerpts(rt: HostRuntime) -> Result<(), Fail> {
    let alloc = rt.alloc();
    for row in EXCERPTED {
        let script = script_of(alloc, row.lines)?;
        let mut files = held(alloc, Some(row.collection.as_bytes()), Some(&script))?;
        let left = run_over(alloc, EXCERPTS, &mut files)?;
        let ending = (left.status, left.err.as_slice());
        same(&rt, &ending, &(0, b"".as_slice()), row.collection);
        are_put(&rt, &left.out, row.lines);
    }
    Ok(())
}

// A script over the three documents: bytes, so many `&`, and bytes; the lines that are answered; the status and what is said.
type Ending = (
    &'static [u8],
    usize,
    &'static [u8],
    &'static [Worked],
    u8,
    &'static str,
);

const ENDINGS: &[Ending] = &[
    (b"", 0, b"", &[], 0, ""),
    (b"\n\r\n", 0, b"", &[], 0, ""),
    (b"q=typ\n", 0, b"", &[PREFIX], 0, ""),
    (b"q=a||b", 0, b"", &[SECOND_BAR], 0, ""),
    // a mark in front, CR before LF, and lines without bytes
    (
        b"\xEF\xBB\xBFq=typ\r\n\n\r\nq=a||b\n",
        0,
        b"",
        &[PREFIX, SECOND_BAR],
        0,
        "",
    ),
    (
        b"q=a||b\n\n\xFF\nq=a||b\n",
        0,
        b"",
        &[SECOND_BAR],
        8,
        "script: line 3: not UTF-8\n",
    ),
    (
        b"\nq=typ\n\nq=\xFF\nq=typ",
        0,
        b"",
        &[PREFIX],
        8,
        "script: line 4: not UTF-8\n",
    ),
    // of 4,096 bytes without its ending, and of more
    (b"q=a||b", 4_090, b"", &[SECOND_BAR], 0, ""),
    (b"q=a||b", 4_090, b"\r\n", &[SECOND_BAR], 0, ""),
    (
        b"q=a||b",
        4_090,
        b"\nq=a||b",
        &[SECOND_BAR, SECOND_BAR],
        0,
        "",
    ),
    (b"q=typ\nq=typ", 4_091, b"", &[PREFIX, PREFIX], 0, ""),
    (
        b"q=typ\nq=typ",
        4_092,
        b"",
        &[PREFIX],
        8,
        "script: line 2: too long\n",
    ),
    (
        b"q=a||b",
        4_090,
        b"\r",
        &[],
        8,
        "script: line 1: too long\n",
    ),
    (
        b"q=a||b",
        4_091,
        b"\n",
        &[],
        8,
        "script: line 1: too long\n",
    ),
    (
        b"q=a||b",
        4_091,
        b"\xFF\n",
        &[],
        8,
        "script: line 1: too long\n",
    ),
    (
        b"q=a||b",
        8_994,
        b"\n",
        &[],
        8,
        "script: line 1: too long\n",
    ),
];

fn filled_script(
    alloc: Global,
    front: &[u8],
    filled: usize,
    behind: &[u8],
) -> Result<Vec<u8>, Memory> {
    let mut script = front.to_vec(alloc)?;
    script.extend_from_slice("&".repeat(alloc, filled)?.as_bytes())?;
    script.extend_from_slice(behind)?;
    Ok(script)
}

#[test]
fn what_ends_a_script_is_named_after_the_lines_before_it(rt: HostRuntime) -> Result<(), Fail> {
    let alloc = rt.alloc();
    for (front, filled, behind, rows, status, err) in ENDINGS {
        let script = filled_script(alloc, front, *filled, behind)?;
        let mut files = held(alloc, Some(THREE_DOCUMENTS.as_bytes()), Some(&script))?;
        let left = run_over(alloc, ASK, &mut files)?;
        let ending = (left.status, left.err.as_slice());
        same(&rt, &ending, &(*status, err.as_bytes()), (*front, *filled));
        are_put(&rt, &left.out, rows);
    }
    Ok(())
}

// A command line, the bytes of C and of Q, the status, and what is put and said.
type Run = (
    &'static [&'static str],
    Option<&'static [u8]>,
    Option<&'static [u8]>,
    u8,
    &'static str,
    &'static str,
);

const RUNS: &[Run] = &[
    (
        ASK,
        Some(BAD_FACET),
        Some(b"q=typ\n"),
        3,
        "",
        "collection: line 1: bad facet\n",
    ),
    (
        ASK,
        Some(BAD_NAME),
        Some(b"q=typ\n"),
        3,
        "",
        "collection: line 1: bad facet name\n",
    ),
    (
        ASK,
        Some(BAD_WEIGHTS),
        Some(b"q=typ\n"),
        3,
        "",
        "collection: line 1: bad weights\n",
    ),
    (
        ASK,
        Some(b"a\n\xFF\nx\ty"),
        Some(b"q=typ\n"),
        3,
        "",
        "collection: line 2: not UTF-8\n",
    ),
    (
        IMPORT_CSV,
        Some(b"name,text\n"),
        None,
        3,
        "",
        "collection: line 1: bad header\n",
    ),
    (
        IMPORT_JSONL,
        Some(b"{\"title\":5}"),
        None,
        3,
        "",
        "collection: line 1: bad field\n",
    ),
    (
        IMPORT_JSONL,
        Some(b"{\"facets\":\"k=C\"}\n{"),
        None,
        3,
        "",
        "collection: line 2: not JSON\n",
    ),
    // a document in front of a bad line, by the number of its own line
    (
        IMPORT_JSONL,
        Some(b"{\"facets\":\"k\"}\n{"),
        None,
        3,
        "",
        "collection: line 1: bad facet\n",
    ),
    (IMPORT_CSV, None, None, 5, "", "absent: C\n"),
    (ASK, None, Some(b"q=a\n"), 5, "", "absent: C\n"),
    (ASK, None, None, 5, "", "absent: C\n"),
    (ASK, Some(b"\xFF"), None, 5, "", "absent: Q\n"),
    (
        EXCERPTS,
        Some(b"\xFF"),
        Some(b""),
        3,
        "",
        "collection: line 1: not UTF-8\n",
    ),
    (EXCERPTS, Some(b""), None, 5, "", "absent: Q\n"),
    (SERVE, None, None, 5, "", "absent: I\n"),
    (UPGRADE, None, None, 5, "", "absent: I\n"),
    (MERGE, Some(b""), None, 5, "", "absent: Q\n"),
    (MERGE, Some(b""), Some(b""), 4, "", "index: rule 1 at 0\n"),
    (&["ask", "C"], None, None, 2, "", USAGE),
    (&["trial", "1001"], None, None, 2, "", USAGE),
    (&["import", "tsv", "C", "I"], None, None, 2, "", USAGE),
    (TRIAL, None, None, 0, SUMMARY, ""),
];

#[test]
fn what_is_refused_or_missing_is_named(rt: HostRuntime) -> Result<(), Fail> {
    for (words, collection, script, status, out, err) in RUNS {
        let mut files = held(rt.alloc(), *collection, *script)?;
        let left = run_over(rt.alloc(), words, &mut files)?;
        let found = (left.status, left.out.as_slice(), left.err.as_slice());
        same(
            &rt,
            &found,
            &(*status, out.as_bytes(), err.as_bytes()),
            *words,
        );
    }
    Ok(())
}

// A command line, the bytes of its source, and a collection with the same index file.
type Source = (&'static [&'static str], &'static [u8], &'static str);

const SOURCES: &[Source] = &[
    (
        IMPORT_CSV,
        b"title,text,year\n\"Type, less\",\"a \"\"b\"\"\",2006\n",
        "Type, less\t\ta \"b\"",
    ),
    (
        IMPORT_JSONL,
        b"{\"title\":\"Ab\",\"facets\":[\"k=C\"],\"text\":\"b a\"}",
        "Ab\tk=C\tb a",
    ),
];

#[test]
fn sources_have_the_index_files_of_their_collections(rt: HostRuntime) -> Result<(), Fail> {
    let alloc = rt.alloc();
    for (words, source, collection) in SOURCES {
        let mut files = held(alloc, Some(*source), None)?;
        let left = run_over(alloc, words, &mut files)?;
        assert!(rt; left.is(0, b"", ""));
        let wanted = built(alloc, collection, b"")?;
        same(&rt, &files.bytes("I"), &wanted.bytes("I"), *collection);
    }
    Ok(())
}

// Eleven documents of 99,999 words each.
#[test]
fn more_than_a_million_rows_are_asked(rt: HostRuntime) -> Result<(), Fail> {
    let alloc = rt.alloc();
    let line = format!(in alloc; "\t\t{}\n", "a ".repeat(alloc, 99_999)?)?;
    let collection = line.as_str().repeat(alloc, 11)?;
    let script = b"q=a&h=0&c=1\n".as_slice();
    let mut files = held(alloc, Some(collection.as_bytes()), Some(script))?;
    let left = run_over(alloc, ASK, &mut files)?;
    assert!(rt; left.is(0, MANY_ROWS, ""));
    Ok(())
}

#[test]
fn a_connection_has_the_reply_of_its_request(rt: HostRuntime) -> Result<(), Fail> {
    let mut files = built(rt.alloc(), THREE_DOCUMENTS, b"")?;
    let rows = [Came::Opened, Came::Piece(0, TYPED.head.as_bytes())];
    let mut hub = hub_of(rt.alloc(), &rows)?;
    let left = run_beside(rt.alloc(), SERVE, &mut files, &mut hub)?;
    assert!(rt; left.is(0, b"serving 8080\n", ""));
    same(
        &rt,
        &hub.sent(0),
        &TYPED.response.as_bytes(),
        "the response",
    );
    Ok(())
}
