//! The scores of documents.
ghost use Rattle.std.specs.Prelude.{◌≡◌, ◌+◌, ◌≤◌, ◌<◌, ◌^◌, List, ◌∷◌, ◌++◌, map, length, take, IfOk, All, slice_index_or};
ghost use Rattle.std.specs.Vec.{vec_len, vec_capacity};
ghost use Rattle.cs_base.specs.content.Orders.{docs_of, AreSorted, AreByDoc};
ghost use Rattle.cs_base.specs.declared.content.doc.Scored.{Scored};
ghost use Rattle.cs_base.specs.declared.content.doc.Base.TheVariants.{Listed};
ghost use Rattle.cs_base.specs.content.Bases.{base_score};
ghost use Rattle.cs_base.specs.declared.content.scores.TheConstants.{MAX_ROW_SCORE};
ghost use Rattle.cs_rank.specs.Groups.{group, with_greater};
ghost use Rattle.cs_rank.specs.DocScores.{best_row, with_base, doc_scores, IsBase, PassedBelow};

use cs_base::{Base, Memory, Scored, Seq};
use cs_cols::Cols;
use std::alloc::Global;

// What stands at a place before a document is put there.
const NOTHING: Scored = Scored { doc: 0, score: 0 };

/// Each document of the rows, ascending, with its score: what the base gave it and the greatest score of its
/// rows. A document that the base doesn't list counts there as 0.
pub fn score(alloc: Global, base: &Base, rows: &Cols) -> Result<Seq<Scored>, Memory>
    requires base { IsBase base.now }
    requires rows_sorted { AreSorted rows.now.posts }

    ensures ok { IfOk result (λ v. v ≡ doc_scores base.now rows.now.posts) }
{
    let best = best_scores(alloc, rows)?;
    match base {
        Base::All => Ok(Seq::from_vec(best)),
        Base::Listed(listed) => {
            let scored = add_base(alloc, listed.as_slice(), best.as_slice())?;
            Ok(Seq::from_vec(scored))
        }
    }
}

// Each document with the greatest score of its rows.
fn best_scores(alloc: Global, rows: &Cols) -> Result<Vec<Scored>, Memory>
    requires { AreSorted rows.now.posts }

    ensures best { IfOk result (λ v. v.items ≡ map (best_row rows.now.posts) (docs_of rows.now.posts)) }
    ensures small { IfOk result (λ v. All (λ h. h.score ≤ MAX_ROW_SCORE) v.items) }
{
    let docs = rows.docs();
    let scores = rows.scores();
    if docs.is_empty() {
        return Ok(Vec::new(alloc));
    }
    let mut best = room_for(alloc, docs.len())?;
    let mut current = scored_at(docs, scores, 0);
    best[0] = current;
    let mut last = 0;
    for i in 1..docs.len() {
        let next = scored_at(docs, scores, i);
        last = absorb(&mut best, last, current, next);
        current = with_greater(current, next);
    }
    best.truncate(last + 1);
    Ok(best)
}

// A list for so many documents.
fn room_for(alloc: Global, many: usize) -> Result<Vec<Scored>, Memory>
    ensures len { IfOk result (λ v. length v.items ≡ many) }
    ensures small { IfOk result (λ v. All (λ h. h.score ≤ MAX_ROW_SCORE) v.items) }
{
    let room = vec![in alloc; NOTHING; many]?;
    Ok(room)
}

#[inline]
fn scored_at(docs: &[u32], scores: &[u8], i: usize) -> Scored
    requires docs { i < length docs.now }
    requires scores { i < length scores.now }

    ensures doc { result.doc ≡ slice_index_or docs.now i result.doc }
    ensures score { result.score ≡ slice_index_or scores.now i result.score }
    ensures small { result.score ≤ MAX_ROW_SCORE }
{
    Scored {
        doc: docs[i],
        score: u32::from(scores[i]),
    }
}

// One more row: of the current document, which stands at `last`, or of the next, and then the current one is done. It is put in the place
// of the current one, or behind it, without a branch, since nothing tells beforehand which.
#[inline]
fn absorb(best: &mut Vec<Scored>, last: usize, current: Scored, next: Scored) -> usize
    requires room { last + 1 < length best.old.items }
    requires held { (d : Scored) → slice_index_or best.old.items last d ≡ current }

    // a row's score is at most the greatest u8
    requires current { current.score ≤ MAX_ROW_SCORE }
    requires next { next.score ≤ MAX_ROW_SCORE }

    ensures groups { (rest : List Scored) → take result best.new.items ++ group (with_greater current next) rest
        ≡ take last best.old.items ++ group current (next ∷ rest) }
    ensures held { (d : Scored) → slice_index_or best.new.items result d ≡ with_greater current next }
    ensures small { All (λ h. h.score ≤ MAX_ROW_SCORE) best.old.items → All (λ h. h.score ≤ MAX_ROW_SCORE) best.new.items }
    ensures near { result ≤ last + 1 }
    ensures len { length best.new.items ≡ length best.old.items }
{
    let place = last + usize::from(next.doc != current.doc);
    best[place] = with_greater(current, next);
    place
}

// The next one, with the greater score of the two where they are of the same document.
#[inline]
fn with_greater(current: Scored, next: Scored) -> Scored
    requires current { current.score ≤ MAX_ROW_SCORE }
    requires next { next.score ≤ MAX_ROW_SCORE }

    ensures value { result ≡ with_greater current next }
    ensures small { result.score ≤ MAX_ROW_SCORE }
{
    let greater = current.score.max(next.score);
    let same = next.doc == current.doc;
    Scored {
        doc: next.doc,
        score: if same { greater } else { next.score },
    }
}

/// Scored documents, ascending, each with what a base gave it added to its score. A document that the base doesn't list counts there
/// as 0.
pub fn add_base(alloc: Global, listed: &[Scored], best: &[Scored]) -> Result<Vec<Scored>, Memory>
    requires base { IsBase (Listed listed.now) }
    requires best_sorted { AreByDoc best.now }
    requires small { All (λ h. h.score ≤ MAX_ROW_SCORE) best.now }

    ensures { IfOk result (λ v. v.items ≡ map (with_base (Listed listed.now)) best.now) }
{
    let mut scored = Vec::with_capacity(alloc, best.len())?;
    let mut place = 0;
    for h in best {
        place = skip_below(listed, place, h.doc);
        let base = score_at(listed, place, h.doc);
        scored.push_reserved(Scored {
            doc: h.doc,
            score: base + h.score,
        });
    }
    Ok(scored)
}

// The first place from `from` on whose document isn't below `doc`.
#[inline]
fn skip_below(listed: &[Scored], from: usize, doc: u32) -> usize
    requires { PassedBelow listed.now from doc }

    ensures passed { PassedBelow listed.now result doc }
    ensures stop { (d : Scored) → result < length listed.now → doc ≤ (slice_index_or listed.now result d).doc }
{
    let mut i = from;
    while i < listed.len() && listed[i].doc < doc {
        i += 1;
    }
    i
}

// The score of `doc`, where it stands at `place`, else 0.
#[inline]
fn score_at(listed: &[Scored], place: usize, doc: u32) -> u32
    requires base { IsBase (Listed listed.now) }
    requires passed { PassedBelow listed.now place doc }
    requires stop { (d : Scored) → place < length listed.now → doc ≤ (slice_index_or listed.now place d).doc }

    ensures value { result ≡ base_score (Listed listed.now) doc }
    ensures small { result ≤ 2 ^ 20 }
{
    if place < listed.len() && listed[place].doc == doc {
        listed[place].score
    } else {
        0
    }
}
