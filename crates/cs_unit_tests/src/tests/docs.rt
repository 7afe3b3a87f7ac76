//! What no clause says: that the calls succeed where there is memory, and that the definitions give what
//! `docs/MEANING.md` says of them.
use crate::tests::rows::{Long, are_told, long_are_told, same, shown};
use cs_base::{Memory, Row, Text};
use cs_docs::{Collected, Doc, DocFault, RowsFault, read_docs, rows_of};
use cs_worked::{BAD_FACET, BAD_NAME, BAD_WEIGHTS, GUIDE, MARKED_LINES, WEIGHED};
use std::alloc::Global;
use std::fmt::{Debug, Display};
use std::process::Abort;
use std::test::Fail;

// A collection, and its documents as `line|title|facets|text` with LF behind each.
const DOCUMENTS: &[(&str, &str)] = &[
    ("", ""),
    ("\n\r\n\n", ""),
    // the mark, CR before LF, an empty line, an unended last line
    (MARKED_LINES, "1|a||\n3|b||\n"),
    // the mark once
    ("\u{FEFF}\u{FEFF}a", "1|\u{FEFF}a||\n"),
    // CR elsewhere belongs to the line
    ("a\r\r\nb\r", "1|a\r||\n2|b\r||\n"),
    // columns, and further tabs
    ("t\tk=v\tx\ty\n", "1|t|k=v|x\ty\n"),
    ("\t\tx\n\t\n", "1|||x\n2|||\n"),
    // empty pieces, and values without a word
    ("t\t ; ;k=--;K = a;;\n", "1|t| ; ;k=--;K = a;;|\n"),
    // the weights line is none; another word begins a title, and so does a later line
    (
        "\u{FEFF}#weights title=255 facet=01 text=001\r\na",
        "2|a||\n",
    ),
    ("#weightsx\n#weights", "1|#weightsx||\n2|#weights||\n"),
];

// A collection, and its rows as `doc word pos score` with LF behind each.
const ROWS: &[(&str, &str)] = &[
    ("", ""),
    ("Type less\n\nless", "0 type 1 4\n0 less 2 4\n1 less 1 4\n"),
    ("a b\t\tx y", "0 a 1 4\n0 b 2 4\n0 x 11 1\n0 y 12 1\n"),
    ("\t\tx", "0 x 9 1\n"),
    // by bytes, each once; a value without a word has none
    (
        "t\tk=v;a = V w ;k=V;b=--",
        "0 :a:v_w 0 2\n0 :k:v 0 2\n0 t 1 4\n",
    ),
    // with the scores of the weights line
    (WEIGHED, "0 :k:c 0 3\n0 ab 1 9\n0 b 10 2\n0 a 11 2\n"),
    // the name by its key text, the value from the first `=`
    ("\tKe\u{212A}=a=b", "0 :kek:a_b 0 2\n"),
    (
        GUIDE,
        "0 :lang:de 0 2\n0 :publisher:o_reilly_co 0 2\n0 mu\u{308}ller 1 4\n0 s 2 4\n0 u\u{308}ber 3 4\n0 guide 4 4\n0 2nd 5 4\n0 ed 6 4\n0 the 15 1\n0 handbook 16 1\n",
    ),
];

// A collection, and its refusal.
const REFUSED: &[(&[u8], DocFault)] = &[
    (b"a\n\xFF", DocFault::NotUtf8 { line: 2 }),
    (b"\xEF\xBB", DocFault::NotUtf8 { line: 1 }),
    (BAD_FACET, DocFault::BadFacet { line: 1 }),
    (b"a\tk=v;b", DocFault::BadFacet { line: 1 }),
    (BAD_NAME, DocFault::BadName { line: 1 }),
    (b"x\t=b", DocFault::BadName { line: 1 }),
    (b"x\ta b=c", DocFault::BadName { line: 1 }),
    (b"x\tabcdefghijklmnopq=c", DocFault::BadName { line: 1 }),
    // refused, though the value has no word
    (b"x\t1a=--", DocFault::BadName { line: 1 }),
    // pieces from left to right
    (b"x\t1=a;b", DocFault::BadName { line: 1 }),
    (b"x\tb;1=a", DocFault::BadFacet { line: 1 }),
    (BAD_WEIGHTS, DocFault::BadWeights { line: 1 }),
    (b"#weights\n\xFF", DocFault::BadWeights { line: 1 }),
    (
        b"#weights title=4 facet=2 text=256",
        DocFault::BadWeights { line: 1 },
    ),
    (
        b"#weights title=4  facet=2 text=1",
        DocFault::BadWeights { line: 1 },
    ),
    (b"#weights \xFF", DocFault::NotUtf8 { line: 1 }),
    // the least line
    (b"\n\nx\tb\n\xFF", DocFault::BadFacet { line: 3 }),
];

// A long collection, and why it is refused, where it is.
const LIMITS: &[Long] = &[
    ("", "a", 1 << 20, "", ""),
    ("\n", "a", (1 << 20) + 1, "", "LineTooLong { line: 2 }"),
    ("", "a ", 100_000, "", ""),
    ("\u{E9} \t\t", "a ", 99_999, "", ""),
    // too many words go before a bad facet
    ("a\tb\t", "a ", 100_000, "", "WordsTooMany { line: 1 }"),
];

// A fault, and its text.
const OF_DOCUMENTS: &[(DocFault, &str)] = &[
    (DocFault::TooLarge, "too large"),
    (DocFault::NotUtf8 { line: 1 }, "line 1: not UTF-8"),
    (DocFault::LineTooLong { line: 2 }, "line 2: line too long"),
    (DocFault::BadWeights { line: 1 }, "line 1: bad weights"),
    (DocFault::WordsTooMany { line: 3 }, "line 3: too many words"),
    (DocFault::BadFacet { line: 4 }, "line 4: bad facet"),
    (DocFault::BadName { line: 5 }, "line 5: bad facet name"),
    (
        DocFault::TooManyDocs { line: 1_048_577 },
        "line 1048577: too many documents",
    ),
    (DocFault::Memory, "out of memory"),
];

const OF_ROWS: &[(RowsFault, &str)] = &[
    (RowsFault::TooManyRows, "too many rows"),
    (RowsFault::Memory, "out of memory"),
];

#[test]
fn collections_have_these_documents_and_rows(rt: HostRuntime) -> Result<(), Fail> {
    are_told(&rt, rt.alloc(), DOCUMENTS, told_docs)?;
    are_told(&rt, rt.alloc(), ROWS, told_rows)
}

#[test]
fn collections_are_refused_by_their_first_broken_rule(rt: HostRuntime) -> Result<(), Fail> {
    for (bytes, want) in REFUSED {
        same(&rt, &refusal(rt.alloc(), bytes), &Some(*want), *bytes);
    }
    long_are_told(&rt, rt.alloc(), LIMITS, told_refusal)
}

#[test]
fn faults_have_these_texts(rt: HostRuntime) -> Result<(), Fail> {
    are_printed(&rt, rt.alloc(), OF_DOCUMENTS)?;
    are_printed(&rt, rt.alloc(), OF_ROWS)
}

fn are_printed<E: Debug + Display>(
    rt: &impl Abort,
    alloc: Global,
    rows: &[(E, &str)],
) -> Result<(), Fail> {
    for (fault, want) in rows {
        let text = format!(in alloc; "{fault}")?;
        same(rt, &text.as_str(), want, fault);
    }
    Ok(())
}

fn told_docs(alloc: Global, text: &str) -> Result<Text, Memory> {
    let mut told = Text::new(alloc);
    match read_docs(alloc, text.as_bytes()) {
        Ok(collected) => {
            for doc in collected.docs.as_slice() {
                tell_doc(alloc, &mut told, doc)?;
            }
            Ok(told)
        }
        Err(fault) => shown(alloc, &fault),
    }
}

fn tell_doc(alloc: Global, told: &mut Text, doc: &Doc) -> Result<(), Memory> {
    let line = format!(in alloc;
        "{}|{}|{}|{}\n",
        doc.line,
        doc.title.as_str(),
        doc.facets.as_str(),
        doc.text.as_str()
    )?;
    told.push_str(line.as_str())
}

fn told_rows(alloc: Global, text: &str) -> Result<Text, Memory> {
    let Ok(Collected { docs, weights }) = read_docs(alloc, text.as_bytes()) else {
        return Text::from_str(alloc, "no documents");
    };
    let Ok(rows) = rows_of(alloc, &docs, weights) else {
        return Text::from_str(alloc, "no rows");
    };
    let mut told = Text::new(alloc);
    for row in rows.as_slice() {
        tell_row(alloc, &mut told, row)?;
    }
    Ok(told)
}

fn tell_row(alloc: Global, told: &mut Text, row: &Row) -> Result<(), Memory> {
    let word = str::from_utf8(row.word.bytes()).unwrap_or("no text");
    let line = format!(in alloc; "{} {word} {} {}\n", row.doc, row.pos, row.score)?;
    told.push_str(line.as_str())
}

fn refusal(alloc: Global, bytes: &[u8]) -> Option<DocFault> {
    read_docs(alloc, bytes).err()
}

fn told_refusal(alloc: Global, text: &str) -> Result<Text, Memory> {
    match refusal(alloc, text.as_bytes()) {
        None => Ok(Text::new(alloc)),
        Some(fault) => shown(alloc, &fault),
    }
}
