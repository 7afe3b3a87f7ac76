//! The best of a worked list, and the hits that are shown.
use crate::tests::rows::same;
use cs_base::Scored;
use cs_rank::{Best, top};
use std::alloc::{AllocError, Global};
use std::test::Fail;

// Documents 0 to 3 with their scores.
const SCORED: &[Scored] = &[
    Scored { doc: 0, score: 4 },
    Scored { doc: 1, score: 1 },
    Scored { doc: 2, score: 4 },
    Scored { doc: 3, score: 9 },
];

// How many of them are left out in front, how many are shown at most, and these.
const HITS: &[(u32, u32, &[u32])] = &[
    (0, 0, &[]),
    (0, 1, &[3]),
    (0, 10, &[3, 0, 2, 1]),
    (1, 2, &[0, 2]),
    (3, 100, &[1]),
    (4, 1, &[]),
];

// The best two, once each was offered.
const BEST: &[&[u32]] = &[&[0], &[0, 1], &[0, 2], &[3, 0]];

fn docs_of(alloc: Global, scored: &[Scored]) -> Result<Vec<u32>, AllocError> {
    let mut docs = Vec::new(alloc);
    for s in scored {
        docs.push(s.doc)?;
    }
    Ok(docs)
}

#[test]
fn hits_go_by_score_and_then_by_document(rt: HostRuntime) -> Result<(), Fail> {
    for (o, h, want) in HITS {
        let shown = top(rt.alloc(), SCORED, *o, *h)?;
        let docs = docs_of(rt.alloc(), shown.as_slice())?;
        same(&rt, &docs.as_slice(), want, (*o, *h));
    }
    Ok(())
}

#[test]
fn a_list_keeps_the_best_of_its_room(rt: HostRuntime) -> Result<(), Fail> {
    let mut best = Best::new(rt.alloc(), 2)?;
    let mut none = Best::new(rt.alloc(), 0)?;
    same(&rt, &SCORED.len(), &BEST.len(), "as many");
    for (s, want) in SCORED.iter().zip(BEST) {
        best.offer(*s);
        none.offer(*s);
        let docs = docs_of(rt.alloc(), best.list())?;
        same(&rt, &(docs.as_slice(), none.list().len()), &(*want, 0), s);
    }
    // what stands there with the same score isn't put twice
    best.offer(Scored { doc: 0, score: 4 });
    let docs = docs_of(rt.alloc(), best.list())?;
    same(&rt, &docs.as_slice(), &[3, 0].as_slice(), "again");
    same(&rt, &best.room(), &2, "the room");
    Ok(())
}
