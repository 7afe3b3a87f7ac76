//! Tables of comma-separated values and lines of JSON, against the collections that they are.
use crate::tests::rows::{repeated, same};
use cs_more::{BadLine, Flat, Why, flat_csv, flat_jsonl};
use std::alloc::Global;
use std::process::Abort;
use std::test::Fail;

// A source, its documents as lines of a collection, and its first bad line.
type Source = (&'static str, &'static str, Option<BadLine>);

const TABLES: &[Source] = &[
    ("", "", None),
    (
        "name,text\n",
        "",
        Some(BadLine {
            line: 1,
            why: Why::Header,
        }),
    ),
    // commas and quotes stand in quotes, other columns are ignored, and an absent one is empty
    (
        "title,text,year\n\"Type, less\",\"a \"\"b\"\"\",2006\n",
        "Type, less\t\ta \"b\"\n",
        None,
    ),
    (
        "Text,FACETS,Title\r\nb a,k=C,Ab\r\n",
        "Ab\tk=C\tb a\n",
        None,
    ),
    (
        "title,text\n\"A\tb\",\"x\ny\r\nz\"\n",
        "A b\t\tx y  z\n",
        None,
    ),
];

const LINES: &[Source] = &[
    (
        "{\"title\":\"Ab\",\"facets\":[\"k=C\",\"j=D\"],\"text\":\"b a\"}",
        "Ab\tk=C;j=D\tb a\n",
        None,
    ),
    (
        "{\"title\":null,\"x\":[1,{}]}\n\n{\"text\":\"b\"}\n",
        "\t\t\n\n\t\tb\n",
        None,
    ),
    (
        "{\"title\":\"A\"}\n{\"title\":5}\n",
        "A\t\t\n",
        Some(BadLine {
            line: 2,
            why: Why::Field,
        }),
    ),
    (
        "{",
        "",
        Some(BadLine {
            line: 1,
            why: Why::Json,
        }),
    ),
];

#[test]
fn tables_are_these_collections(rt: HostRuntime) -> Result<(), Fail> {
    for row in TABLES {
        let flat = flat_csv(rt.alloc(), row.0.as_bytes())?;
        is_flat(&rt, rt.alloc(), &flat, row)?;
    }
    Ok(())
}

#[test]
fn lines_of_json_are_these_collections(rt: HostRuntime) -> Result<(), Fail> {
    for row in LINES {
        let flat = flat_jsonl(rt.alloc(), row.0.as_bytes())?;
        is_flat(&rt, rt.alloc(), &flat, row)?;
    }
    Ok(())
}

// That it is the usual weights, and behind them the documents of the row.
fn is_flat(rt: &impl Abort, alloc: Global, flat: &Flat, row: &Source) -> Result<(), Fail> {
    let (source, documents, bad) = row;
    let tsv = repeated(alloc, "#weights title=4 facet=2 text=1\n", "", 0, documents)?;
    same(
        rt,
        &(flat.tsv.as_slice(), flat.bad),
        &(tsv.as_str().as_bytes(), *bad),
        *source,
    );
    Ok(())
}
