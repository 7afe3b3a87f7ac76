//! Excerpts of small texts.
use crate::tests::rows::same;
use cs_base::{Doc, MAX_DOC_WORDS, Text};
use cs_more::excerpt;
use cs_query::parse;
use cs_text::words;
use std::alloc::Global;
use std::test::Fail;

// A text, a query, and what is shown of the text.
const EXCERPTS: &[(&str, &str, &str)] = &[
    (
        "autocompletion search with a succinct index",
        "search typ",
        "[search]",
    ),
    (
        "type ahead search and faceted search",
        "search typ",
        "[type] ahead [search]",
    ),
    (
        "type ahead search and faceted search",
        "type-ahead",
        "[ahead]",
    ),
    (
        "type ahead search and faceted search",
        "typ|search and",
        "[search] [and]",
    ),
    ("types", "lambda", ""),
    ("types", "typ -search", "[types]"),
    // the shortest run, of equals the first, and at most 32 words of it
    ("a x b x x a b", "a b", "[a] [b]"),
    ("a b a b", "a b", "[a] [b]"),
    (
        "a x x x x x x x x x x x x x x x x x x x x x x x x x x x x x x x x x x x x x x x x b",
        "a b",
        "[a] x x x x x x x x x x x x x x x x x x x x x x x x x x x x x x x",
    ),
    (
        "Café École ouverte",
        "cafe ouv",
        "[cafe\u{301}] e\u{301}cole [ouverte]",
    ),
];

#[test]
fn texts_have_these_excerpts(rt: HostRuntime) -> Result<(), Fail> {
    for (text, query, want) in EXCERPTS {
        let found = excerpt_of(rt.alloc(), text, query)?;
        same(&rt, &found.as_str(), want, (*text, *query));
    }
    Ok(())
}

// What is shown of a document that has this text alone.
fn excerpt_of(alloc: Global, text: &str, query: &str) -> Result<Text, Fail> {
    let query = parse(alloc, query)?;
    let doc = Doc {
        title: Text::new(alloc),
        facets: Text::new(alloc),
        text: Text::from_str(alloc, text)?,
        line: 1,
    };
    if words(alloc, doc.text.as_str())?.len() > MAX_DOC_WORDS {
        return Err(Fail::new("too many words"));
    }
    let shown = excerpt(alloc, &doc, &query)?;
    Ok(shown)
}
