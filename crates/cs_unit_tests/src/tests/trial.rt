//! The first trial's first line and its texts, and a summary.
use crate::tests::rows::same;
use cs_base::{Memory, Text};
use cs_trial::{TrialCounts, collection, requests, summary_bytes, texts};
use std::alloc::Global;
use std::test::Fail;

const LINE: &[u8] =
    b"dotedi bodeke batata\tkind=di\tkodeki batobo kikeki katodi debike kokoki betoko datobi tedota bobiba takoki babata\n";

// The first texts that are typed, each with a comma behind it.
const TYPED: &str =
    "t,ti,tid,tida,tidab,tidabe,tidabe d,tidabe de,tidabe deb,tidabe deba,tidabe debab,tidabe debabi,tidabe,";

const COUNTS: TrialCounts = TrialCounts {
    documents: 100,
    rows: 1600,
    blocks: 2,
    replies: 260,
    hits: 12,
    same: 20,
    narrow: 200,
    extend: 38,
    fresh: 2,
};

const SUMMARY: &[u8] =
    b"documents 100\nrows 1600\nblocks 2\nreplies 260\nhits 12\nsame 20\nnarrow 200\nextend 38\nfresh 2\n";

#[test]
fn the_first_trial_begins_so(rt: HostRuntime) -> Result<(), Fail> {
    let bytes = collection(rt.alloc(), 1)?;
    assert!(rt; bytes.as_slice().starts_with(LINE));
    same(&rt, &bytes.len(), &(100 * LINE.len()), "the collection");
    let typed = texts(rt.alloc(), 1)?;
    same(&rt, &typed.len(), &260, "the texts");
    let begun = typed.as_slice().get(..13).unwrap_or(&[]);
    same(
        &rt,
        &joined(rt.alloc(), begun)?.as_str(),
        &TYPED,
        "the first",
    );
    Ok(())
}

fn joined(alloc: Global, texts: &[Text]) -> Result<Text, Memory> {
    let mut joined = Text::new(alloc);
    for text in texts {
        joined.push_str(text.as_str())?;
        joined.push(',')?;
    }
    Ok(joined)
}

#[test]
fn each_text_is_asked_with_the_defaults(rt: HostRuntime) -> Result<(), Fail> {
    let asked = requests(rt.alloc(), 1)?;
    same(&rt, &asked.len(), &260, "the requests");
    for request in asked.as_slice() {
        let counts = (request.hits, request.completions, request.offset);
        same(&rt, &counts, &(10, 10, 0), "the counts");
        let parts = request.query.parts.len();
        assert!(rt; 1 <= parts && parts <= 2);
    }
    Ok(())
}

#[test]
fn a_summary_has_nine_lines(rt: HostRuntime) -> Result<(), Fail> {
    let bytes = summary_bytes(rt.alloc(), &COUNTS)?;
    same(&rt, &bytes.as_slice(), &SUMMARY, "the summary");
    Ok(())
}
