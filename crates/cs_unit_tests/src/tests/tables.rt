//! Tables, scores and hits of a few rows, against numbers that were counted by hand.
ghost use Rattle.std.specs.Prelude.{◌≡◌, IfOk};
ghost use Rattle.cs_unit_tests.specs.Sample.{sample, sample_base};

use crate::tests::rows::same;
use cs_base::{Base, Memory, Post, Scored, Seq};
use cs_cols::Cols;
use cs_rank::score;
use cs_tables::{Completion, WordCounts, completions};
use std::alloc::Global;
use std::test::Fail;

fn post(doc: u32, word: u32, pos: u32, score: u8) -> Post
    ensures { result ≡ record { doc = doc; word = word; pos = pos; score = score } }
{
    Post {
        doc,
        word,
        pos,
        score,
    }
}

fn rows(alloc: Global) -> Result<Cols, Memory>
    ensures { IfOk result (λ c. c.posts ≡ sample) }
{
    let mut rows = Cols::new(alloc);
    rows.reserve(5)?;
    rows.push_reserved(post(0, 24, 1, 4));
    rows.push_reserved(post(0, 20, 14, 1));
    rows.push_reserved(post(1, 24, 12, 1));
    rows.push_reserved(post(1, 20, 14, 1));
    rows.push_reserved(post(1, 20, 17, 1));
    Ok(rows)
}

fn base(alloc: Global) -> Result<Seq<Scored>, Memory>
    ensures { IfOk result (λ s. s ≡ sample_base) }
{
    let mut base = Seq::new(alloc);
    base.push(Scored { doc: 0, score: 1 })?;
    base.push(Scored { doc: 1, score: 1 })?;
    Ok(base)
}

const ONE_WORD: &[Completion] = &[Completion { word: 20, docs: 2 }];

const THREE_WORDS: &[Completion] = &[
    Completion { word: 20, docs: 2 },
    Completion { word: 24, docs: 2 },
    Completion { word: 22, docs: 1 },
];

#[test]
fn a_word_counts_once_in_a_document(rt: HostRuntime) -> Result<(), Fail> {
    let rows = rows(rt.alloc())?;
    let table = completions(rt.alloc(), &rows, 1)?;
    same(
        &rt,
        &(table.total, table.first.as_slice()),
        &(2, ONE_WORD),
        "cut",
    );
    Ok(())
}

#[test]
fn rows_that_come_in_pieces_count_in_listed_documents(rt: HostRuntime) -> Result<(), Fail> {
    let mut counts = WordCounts::new(rt.alloc(), 20, 25)?;
    counts.add(&[0, 1, 1, 2], &[20, 20, 20, 19], &[true, true, true]);
    counts.add_rows(&[0, 1, 2, 2], &[24, 24, 24, 25], &[true, false, true]);
    counts.add_rows(&[0, 0, 1], &[22, 22, 22], &[true, false, true]);
    let table = counts.table(rt.alloc(), 5)?;
    same(
        &rt,
        &(table.total, table.first.as_slice()),
        &(3, THREE_WORDS),
        "pieces",
    );
    Ok(())
}

const SCORED: &[Scored] = &[Scored { doc: 0, score: 5 }, Scored { doc: 1, score: 2 }];

#[test]
fn a_document_has_its_greatest_score_and_that_of_its_base(rt: HostRuntime) -> Result<(), Fail> {
    let rows = rows(rt.alloc())?;
    let base = Base::Listed(base(rt.alloc())?);
    let scored = score(rt.alloc(), &base, &rows)?;
    same(&rt, &scored.as_slice(), &SCORED, "the scores");
    Ok(())
}
