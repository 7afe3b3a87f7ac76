//! The best score of each document, over rows in any order.
ghost use Rattle.std.specs.Prelude.{◌≡◌, ◌+◌, ◌<◌, ◌≤◌, ◌++◌, ◌*◌, ◌^◌, [], ℕ, true, List, IfOk, drop, filter, length, map, take, if◌then◌else◌};
ghost use Rattle.std.specs.{List.{All}, Vec.{vec_capacity, vec_len}};
ghost use Rattle.cs_base.specs.declared.content.doc.Base.TheVariants as base;
ghost use Rattle.cs_base.specs.{declared.content.doc.Post.{Post}, declared.content.scores.TheConstants.{MAX_ROW_SCORE}, content.Orders.{AreByDoc}};
ghost use Rattle.cs_file.specs.CallAnswers.{AreScoredOf};
ghost use Rattle.{cs_rank.specs.DocScores.{IsBase, doc_scores, with_base}, cs_cols.specs.SpanPlaces.{IsSpan}};
ghost use Rattle.cs_rows.specs.BestScores.{HasBestScores, hits_in};
ghost use Rattle.cs_rows.specs.Packing.{doc_of_key, post_of_key};
ghost use Rattle.cs_rows.specs.Spans.{AreHitsBetween, HasEntry, hit_at};
ghost use Rattle.cs_rows.specs.Steps.{IsBaseOf};
ghost use Rattle.cs_tables.specs.WordCounts.{is_chosen, is_of_listed};

use crate::between::{SPAN, are_chosen};
use crate::packing::post_of_key;
use cs_base::{Base, Memory, Post, Scored, Seq, Weights};
use cs_file::Fetched;
use cs_rank::add_base;
use cs_tables::are_within;
use std::alloc::Global;

/// The documents that have an entry, each with what hits gave it added to its score.
pub(crate) fn scored_in(alloc: Global, hits: &Base, best: &[u8]) -> Result<Seq<Scored>, Memory>
    requires base { IsBase hits.now }
    requires few { length best.now < 2 ^ 32 }

    ensures scored { IfOk result (λ scored. scored ≡ map (with_base hits.now) (hits_in 0 best.now)) }
    ensures within { IfOk result (λ scored. (n : ℕ) → IsBaseOf (length best.now) (MAX_ROW_SCORE * n) hits.now
        → IsBaseOf (length best.now) (MAX_ROW_SCORE * (n + 1)) (base.Listed scored)) }
{
    let found = hits_in(alloc, best)?;
    let scored = scored_over(alloc, hits, found)?;
    Ok(scored)
}

// Scored documents, each with what a base gave it added to its score.
fn scored_over(alloc: Global, base: &Base, found: Vec<Scored>) -> Result<Seq<Scored>, Memory>
    requires base { IsBase base.now }
    requires sorted { AreByDoc found.items }
    requires small { All (λ h. h.score ≤ MAX_ROW_SCORE) found.items }

    ensures { IfOk result (λ hits. hits ≡ map (with_base base.now) found.items) }
{
    match base {
        Base::All => Ok(Seq::from_vec(found)),
        Base::Listed(listed) => {
            let scored = add_base(alloc, listed.as_slice(), found.as_slice())?;
            Ok(Seq::from_vec(scored))
        }
    }
}

/// A table of no rows.
pub(crate) fn blank_table(alloc: Global, docs: u32) -> Result<Vec<u8>, Memory>
    ensures none { IfOk result (λ v. HasBestScores [] v.items) }
    ensures long { IfOk result (λ v. length v.items ≡ docs) }
{
    let table = vec![in alloc; 0; docs as usize]?;
    Ok(table)
}

/// Notes the scores of rows, of which these are the numbers: by document the greatest one.
pub(crate) fn raise_keys(best: &mut Vec<u8>, weights: Weights, keys: &[u64])
    requires { All (λ k. doc_of_key k < length best.old.items) keys.now }

    ensures best { (seen : List Post) → HasBestScores seen best.old.items
        → HasBestScores (seen ++ map (post_of_key weights) keys.now) best.new.items }
    ensures len { length best.new.items ≡ length best.old.items }
{
    raise_all(best, weights, keys);
}

// The same.
fn raise_all(best: &mut [u8], weights: Weights, keys: &[u64])
    requires { All (λ k. doc_of_key k < length best.old) keys.now }

    ensures best { (seen : List Post) → HasBestScores seen best.old → HasBestScores (seen ++ map (post_of_key weights) keys.now) best.new }
    ensures len { length best.new ≡ length best.old }
{
    for key in keys {
        let row = post_of_key(weights, *key);
        let at = row.doc as usize;
        best[at] = best[at].max(row.score);
    }
}

/// Notes the scores of rows at hand: of those in listed documents whose word's number is `words.0` or more and below `words.1`.
pub(crate) fn raise_at_hand(best: &mut Vec<u8>, rows: &[Post], words: (u32, u32), listed: &[bool])
    requires known { All (λ p. p.doc < length best.old.items) rows.now }
    requires long { length listed.now ≡ length best.old.items }

    ensures best { (seen : List Post) → HasBestScores seen best.old.items
        → HasBestScores (seen ++ filter (is_chosen words.0 words.1 listed.now) rows.now) best.new.items }
    ensures len { length best.new.items ≡ length best.old.items }
{
    raise_posts(best, rows, words, listed);
}

// The same.
fn raise_posts(best: &mut [u8], rows: &[Post], words: (u32, u32), listed: &[bool])
    requires known { All (λ p. p.doc < length best.old) rows.now }
    requires long { length listed.now ≡ length best.old }

    ensures best { (seen : List Post) → HasBestScores seen best.old
        → HasBestScores (seen ++ filter (is_chosen words.0 words.1 listed.now) rows.now) best.new }
    ensures len { length best.new ≡ length best.old }
{
    for row in rows {
        let at = row.doc as usize;
        let counts = are_chosen(row.doc, row.word, words.0, words.1, listed);
        best[at] = best[at].max(entry_of(counts, row.score));
    }
}

/// Notes the scores of the rows of a block: of those in listed documents whose word's number is `words.0` or more and below `words.1`.
pub(crate) fn raise_rows(best: &mut Vec<u8>, words: (u32, u32), listed: &[bool], block: &Fetched)
    requires words_even { length block.now.words.items ≡ length block.now.docs.items }
    requires scores_even { length block.now.scores.items ≡ length block.now.docs.items }
    requires known { All (λ d. d < length best.old.items) block.now.docs.items }
    requires long { length listed.now ≡ length best.old.items }

    ensures best { (rows : List Post) → AreScoredOf rows block.now.docs.items block.now.words.items block.now.scores.items → (seen : List Post)
        → HasBestScores seen best.old.items → HasBestScores (seen ++ filter (is_chosen words.0 words.1 listed.now) rows) best.new.items }
    ensures len { length best.new.items ≡ length best.old.items }
{
    raise_chosen(
        best,
        words,
        listed,
        &block.docs,
        &block.words,
        &block.scores,
    );
}

// The same, by the documents, words and scores of the rows. Where all words are of these, they aren't looked at again.
fn raise_chosen(
    best: &mut [u8],
    words: (u32, u32),
    listed: &[bool],
    docs: &[u32],
    row_words: &[u32],
    scores: &[u8],
)
    requires words_even { length row_words.now ≡ length docs.now }
    requires scores_even { length scores.now ≡ length docs.now }
    requires known { All (λ d. d < length best.old) docs.now }
    requires long { length listed.now ≡ length best.old }

    ensures best { (rows : List Post) → AreScoredOf rows docs.now row_words.now scores.now → (seen : List Post) → HasBestScores seen best.old
        → HasBestScores (seen ++ filter (is_chosen words.0 words.1 listed.now) rows) best.new }
    ensures len { length best.new ≡ length best.old }
{
    let (lo, hi) = words;
    if are_within(row_words, lo, hi) {
        raise_listed(best, listed, docs, scores);
        return;
    }
    for i in 0..docs.len() {
        let at = docs[i] as usize;
        let counts = are_chosen(docs[i], row_words[i], lo, hi, listed);
        best[at] = best[at].max(entry_of(counts, scores[i]));
    }
}

// The same of rows in listed documents, whatever their words are.
fn raise_listed(best: &mut [u8], listed: &[bool], docs: &[u32], scores: &[u8])
    requires scores_even { length scores.now ≡ length docs.now }
    requires known { All (λ d. d < length best.old) docs.now }
    requires long { length listed.now ≡ length best.old }

    ensures best { (rows : List Post) (words : List ℕ) → AreScoredOf rows docs.now words scores.now → (seen : List Post)
        → HasBestScores seen best.old → HasBestScores (seen ++ filter (is_of_listed listed.now) rows) best.new }
    ensures len { length best.new ≡ length best.old }
{
    for i in 0..docs.len() {
        let at = docs[i] as usize;
        best[at] = best[at].max(entry_of(listed[at], scores[i]));
    }
}

// What a row of this score gives its document, where it counts.
#[inline]
fn entry_of(counts: bool, score: u8) -> u8
    ensures { result ≡ (if counts then score else 0) }
{
    if counts { score } else { 0 }
}

// The documents that have an entry, with their scores.
fn hits_in(alloc: Global, best: &[u8]) -> Result<Vec<Scored>, Memory>
    requires { length best.now < 2 ^ 32 }

    ensures hits { IfOk result (λ v. v.items ≡ hits_in 0 best.now) }
    ensures fit { IfOk result (λ v. IsBaseOf (length best.now) MAX_ROW_SCORE (base.Listed v.items)) }
{
    let mut hits = Vec::new(alloc);
    let mut places = [0usize; SPAN];
    let mut from = 0;
    while from < best.len() {
        let to = from + SPAN.min(best.len() - from);
        hits = with_span(hits, best, from, to, &mut places)?;
        from = to;
    }
    Ok(hits)
}

// The hits with those among the documents from one up to another behind them. Where these have no entry, none is looked at alone.
fn with_span(
    mut hits: Vec<Scored>,
    best: &[u8],
    from: usize,
    to: usize,
    places: &mut [usize],
) -> Result<Vec<Scored>, Memory>
    requires span { IsSpan from to (length best.now) (length places.old) }
    requires few { length best.now < 2 ^ 32 }

    ensures { IfOk result (λ v. v.items ++ hits_in to (drop to best.now) ≡ hits.items ++ hits_in from (drop from best.now)) }
{
    if is_bare(&best[from..to]) {
        return Ok(hits);
    }
    let found = find_hits(best, from, to, places);
    hits.reserve(found)?;
    let more = with_hits(hits, best, &places[..found]);
    Ok(more)
}

// Whether no document has an entry. Each is looked at, without a jump.
fn is_bare(best: &[u8]) -> bool
    ensures { result ≡ true → All (λ v. v ≡ 0) best.now }
{
    let mut bare = true;
    for entry in best {
        bare &= *entry == 0;
    }
    bare
}

// Puts those of some documents that have an entry to the front of a slice, without a jump, and says how many there are.
fn find_hits(best: &[u8], from: usize, to: usize, places: &mut [usize]) -> usize
    requires span { IsSpan from to (length best.now) (length places.old) }

    ensures found { AreHitsBetween best.now from to (take result places.new) }
    ensures known { All (HasEntry best.now) (take result places.new) }
    ensures few { result ≤ length places.new }
{
    let mut found = 0;
    for doc in from..to {
        places[found] = doc;
        found += usize::from(best[doc] > 0);
    }
    found
}

// The hits with these documents behind them, all of them with an entry, in the room that there is. The list is a local, so that no
// hit can lie over where it begins.
#[inline]
fn with_hits(mut hits: Vec<Scored>, best: &[u8], docs: &[usize]) -> Vec<Scored>
    requires few { length best.now < 2 ^ 32 }
    requires known { All (HasEntry best.now) docs.now }
    requires room { vec_len hits + length docs.now ≤ vec_capacity hits }

    ensures { result.items ≡ hits.items ++ map (hit_at best.now) docs.now }
{
    for doc in docs {
        hits.push_reserved(hit_at(best, *doc));
    }
    hits
}

// A document with the score of its entry.
#[inline]
fn hit_at(best: &[u8], doc: usize) -> Scored
    requires few { length best.now < 2 ^ 32 }
    requires known { HasEntry best.now doc }

    ensures { result ≡ hit_at best.now doc }
{
    Scored {
        doc: doc as u32,
        score: u32::from(best[doc]),
    }
}
