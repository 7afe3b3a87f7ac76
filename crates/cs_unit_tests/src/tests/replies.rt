//! Texts of replies and faults against those of the format's description.
use crate::tests::rows::same;
use cs_base::{Seq, Text};
use cs_json::{Fault, fault_bytes, reply_bytes};
use cs_query::{FacetShown, HitShown, Param, Reply, ReqFault, Shown, Which};
use cs_worked::{LONG_WORD, MANY_HITS, SECOND_BAR, Worked};
use std::alloc::Global;
use std::process::Abort;
use std::test::Fail;

fn table(alloc: Global, docs: u32, word: &str) -> Result<Seq<Shown>, Fail> {
    let mut table = Seq::new(alloc);
    let word = Text::from_str(alloc, word)?;
    table.push(Shown { docs, word })?;
    Ok(table)
}

fn facet(alloc: Global, name: &str, table: Seq<Shown>) -> Result<FacetShown, Fail> {
    let name = Text::from_str(alloc, name)?;
    Ok(FacetShown { name, table })
}

fn facets(alloc: Global) -> Result<Seq<FacetShown>, Fail> {
    let mut facets = Seq::new(alloc);
    facets.push(facet(alloc, "zzz", Seq::new(alloc))?)?;
    facets.push(facet(alloc, "author", table(alloc, 2, "author:bast")?)?)?;
    Ok(facets)
}

fn hits(alloc: Global, title: &str) -> Result<Seq<HitShown>, Fail> {
    let mut hits = Seq::new(alloc);
    let title = Text::from_str(alloc, title)?;
    hits.push(HitShown {
        doc: 0,
        score: 4,
        title,
    })?;
    Ok(hits)
}

const REPLY: &str =
    r#"{"completions":[{"docs":2,"word":"search"}],"facets":{"author":[{"docs":2,"word":"author:bast"}],"zzz":[]},"hits":[{"doc":0,"score":4,"title":"Müller's \"Über-Guide\": 2nd ed."}],"total":{"completions":7,"hits":4294967295}}"#;

#[test]
fn a_reply_has_its_keys_in_byte_order(rt: HostRuntime) -> Result<(), Fail> {
    let reply = Reply {
        completions: table(rt.alloc(), 2, "search")?,
        facets: facets(rt.alloc())?,
        hits: hits(rt.alloc(), "Müller's \"Über-Guide\": 2nd ed.")?,
        total_completions: 7,
        total_hits: 4_294_967_295,
    };
    let bytes = reply_bytes(rt.alloc(), &reply)?;
    same(&rt, &bytes.as_slice(), &REPLY.as_bytes(), "the reply");
    Ok(())
}

// A fault, and the worked reply that tells it.
const REFUSED: &[(Fault, Worked)] = &[
    (Fault::Refused(ReqFault::Bad { at: 2 }), SECOND_BAR),
    (
        Fault::Refused(ReqFault::Limit {
            at: 120,
            which: Which::Word,
        }),
        LONG_WORD,
    ),
    (
        Fault::Refused(ReqFault::BadParam { which: Param::H }),
        MANY_HITS,
    ),
];

// A fault, and its text.
const FAULTS: &[(Fault, &str)] = &[
    (Fault::Refused(ReqFault::Memory), r#"{"error":"memory"}"#),
    (
        Fault::Changed { rule: 13, at: 106 },
        r#"{"at":106,"error":"changed","rule":13}"#,
    ),
    (Fault::TooLong, r#"{"error":"head too long"}"#),
];

#[test]
fn faults_have_the_texts_of_the_format(rt: HostRuntime) -> Result<(), Fail> {
    for (fault, worked) in REFUSED {
        is_told(&rt, rt.alloc(), fault, worked.reply)?;
    }
    for (fault, want) in FAULTS {
        is_told(&rt, rt.alloc(), fault, want)?;
    }
    Ok(())
}

fn is_told(rt: &impl Abort, alloc: Global, fault: &Fault, want: &str) -> Result<(), Fail> {
    let text = fault_bytes(alloc, fault)?;
    same(rt, &text.as_slice(), &want.as_bytes(), want);
    Ok(())
}
