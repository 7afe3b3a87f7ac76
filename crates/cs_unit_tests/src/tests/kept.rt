//! What no clause says: that `new` gives a list where there is memory, and what six keystrokes leave in a list of two.
ghost use Rattle.std.specs.Prelude.{◌≡◌, IfOk};

use crate::tests::rows::same;
use cs_base::{Base, Kept, Key, Keys, Memory, Narrower, Plan, Post, Seq, Text};
use cs_cache::{Answers, Entry};
use cs_cols::Cols;
use std::alloc::Global;
use std::test::Fail;

// A query by its canonical text, those with a shorter last prefix, each with the bytes of that prefix, and that without its last
// part, which is empty where there is none.
type Typed<'a> = (&'a str, &'a [(u32, &'a str)], &'a str);

fn key(alloc: Global, text: &str) -> Result<Key, Memory>
    ensures { IfOk result (λ k. k ≡ text.now) }
{
    let text = Text::from_str(alloc, text)?;
    Key::new(alloc, &text)
}

// An entry of so many rows.
fn entry(alloc: Global, rows: u32) -> Result<Entry, Memory> {
    let mut cols = Cols::new(alloc);
    for doc in 0..rows {
        cols.reserve(1)?;
        cols.push_reserved(Post {
            doc,
            word: 0,
            pos: 1,
            score: 4,
        });
    }
    Ok(Entry {
        base: Base::All,
        rows: cols,
    })
}

fn keys(alloc: Global, typed: &Typed<'_>) -> Result<Keys, Memory>
    ensures { IfOk result (λ k. k.same ≡ typed.now.0.now) }
{
    let (same, shorter, before) = *typed;
    let mut narrow = Seq::new(alloc);
    for (cut, text) in shorter {
        let key = key(alloc, text)?;
        narrow.push(Narrower { cut: *cut, key })?;
    }
    let extend = if before.is_empty() {
        None
    } else {
        Some(key(alloc, before)?)
    };
    let same = key(alloc, same)?;
    Ok(Keys {
        same,
        narrow,
        extend,
    })
}

// The plan of a query, whose own entry is kept with so many rows where it wasn't had.
fn ask(alloc: Global, answers: &mut Answers, typed: &Typed<'_>, rows: u32) -> Result<Plan, Memory> {
    let keys = keys(alloc, typed)?;
    let own = key(alloc, typed.0)?;
    let entry = entry(alloc, rows)?;
    let plan = answers.look(&keys);
    answers.resume(&keys, plan);
    match plan {
        Plan::Same => (),
        _ => {
            let _kept = answers.keep(own, entry);
        }
    }
    Ok(plan)
}

// How many rows the entry of a query has, where it is held.
fn rows_of(alloc: Global, answers: &Answers, typed: &Typed<'_>) -> Result<Option<usize>, Memory> {
    let keys = keys(alloc, typed)?;
    match answers.look(&keys) {
        Plan::Same => Ok(Some(answers.view(&keys, Plan::Same).rows.len())),
        _ => Ok(None),
    }
}

const TYP: Typed<'static> = ("typ", &[(2, "ty"), (1, "t")], "");

const TYP_S: Typed<'static> = ("typ s", &[], "typ");

const TYP_SE: Typed<'static> = ("typ se", &[(1, "typ s")], "typ");

// A query, the rows of its entry, and its plan.
type Asked = (Typed<'static>, u32, Plan);

const SIX: &[Asked] = &[
    (("t", &[], ""), 1, Plan::Fresh),
    (("ty", &[(1, "t")], ""), 2, Plan::Narrow { cut: 1 }),
    (TYP, 3, Plan::Narrow { cut: 2 }),
    (TYP_S, 4, Plan::Extend),
    (TYP_SE, 5, Plan::Narrow { cut: 1 }),
    (TYP, 6, Plan::Fresh),
];

// What is used comes to the front, so the other one goes.
const TWO_MORE: &[Asked] = &[(TYP_SE, 7, Plan::Same), (("x", &[], ""), 8, Plan::Fresh)];

// A query, and how many rows its entry has, where it is held.
type Held = (Typed<'static>, Option<usize>);

const BEHIND_SIX: &[Held] = &[(TYP, Some(6)), (TYP_SE, Some(5)), (TYP_S, None)];

const BEHIND_ALL: &[Held] = &[(TYP_SE, Some(5)), (TYP, None)];

#[test]
fn two_entries_are_kept_of_six_queries(rt: HostRuntime) -> Result<(), Fail> {
    let mut answers = Answers::new(rt.alloc(), 2)?;
    for (asked, held) in [(SIX, BEHIND_SIX), (TWO_MORE, BEHIND_ALL)] {
        for (typed, rows, plan) in asked {
            let found = ask(rt.alloc(), &mut answers, typed, *rows)?;
            same(&rt, &found, plan, typed.0);
        }
        for (typed, rows) in held {
            let found = rows_of(rt.alloc(), &answers, typed)?;
            same(&rt, &found, rows, typed.0);
        }
    }
    Ok(())
}
