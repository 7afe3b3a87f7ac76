//! The documents of rows, from the gap column: all at once where each of their codes has one byte, else some rows at a time, in a
//! loop without a jump where each of theirs has one byte, or one or two.
ghost use Rattle.std.specs.Prelude.{◌≡◌, ℕ, ◌+◌, ◌*◌, ◌^◌, ◌<◌, ◌≤◌, ◌&&◌, ◌||◌, true, nat_lt, length, IfSome, slice_index_or};
ghost use Rattle.cs_block.specs.{RowRuns.{HasDocs}, declared.run_docs.TheConstants.{STRETCH}};

use crate::columns::doc_here;
use cs_base::MAX_ROWS;

// Behind a document below this one, the sums of as many rows as a collection has stay below 2^32 where their codes have one byte,
// and those of `STRETCH` rows where they have one byte or two.
const FAR: u32 = 1 << 31;

// Where not all rows have codes of one byte, so many at a time are looked at together: few enough that most of these have.
const STEP: usize = 16;

// Behind so many groups of `STEP` rows in a row that have a longer code each, the next group is a stretch.
const LONG_STEPS: usize = 3;

// The rows of a stretch, which are looked at together as those of a group are.
const STRETCH: usize = 256;

/// The documents of as many rows as there is room for, and the place behind their gap codes, if the codes
/// stand there and each document is below `docs`. `before` is the document of the row in front.
pub fn docs_in(gaps: &[u8], at: usize, before: u32, docs: u32, out: &mut [u32]) -> Option<usize>
    requires within { at ≤ length gaps.now }

    ensures { IfSome result (λ next. HasDocs gaps.now at before docs out.new next) }
{
    if are_short(gaps, at, before, out.len()) {
        return short_docs(gaps, at, before, docs, out);
    }
    stepped_docs(gaps, at, before, docs, out)
}

// The same, some rows at a time.
fn stepped_docs(gaps: &[u8], at: usize, before: u32, docs: u32, out: &mut [u32]) -> Option<usize>
    requires within { at ≤ length gaps.now }

    ensures { IfSome result (λ next. HasDocs gaps.now at before docs out.new next) }
{
    let mut next = at;
    let mut doc = before;
    let mut i = 0;
    let mut long = 0;
    while i < out.len() {
        let rows = group_rows(long).min(out.len() - i);
        let behind = few_docs(gaps, next, doc, docs, &mut out[i..i + rows])?;
        i += rows;
        long = long_steps(long, behind == next + rows);
        next = behind;
        doc = out[i - 1];
    }
    Some(next)
}

// How many rows are looked at together behind so many groups in a row that have a longer code.
#[inline]
fn group_rows(long: usize) -> usize
    ensures some { 0 < result }
    ensures few { result ≤ STRETCH }
{
    if long < LONG_STEPS { STEP } else { STRETCH }
}

// How many groups in a row have a longer code behind one more; none behind a stretch.
#[inline]
fn long_steps(before: usize, is_short: bool) -> usize {
    if is_short || LONG_STEPS <= before {
        0
    } else {
        before + 1
    }
}

// The same of few rows, in the first loop that their codes fit.
fn few_docs(gaps: &[u8], at: usize, before: u32, docs: u32, out: &mut [u32]) -> Option<usize>
    requires within { at ≤ length gaps.now }
    requires few { length out.old ≤ STRETCH }

    ensures { IfSome result (λ next. HasDocs gaps.now at before docs out.new next) }
{
    if are_short(gaps, at, before, out.len()) {
        return short_docs(gaps, at, before, docs, out);
    }
    if before < FAR
        && 2 * out.len() <= gaps.len() - at
        && let Some(next) = pair_docs(gaps, at, before, docs, out)
    {
        return Some(next);
    }
    long_docs(gaps, at, before, docs, out)
}

// Whether the codes of so many rows have one byte each. It may say no of rows whose documents are far behind.
#[inline]
fn are_short(gaps: &[u8], at: usize, before: u32, rows: usize) -> bool
    requires { at ≤ length gaps.now }

    ensures within { result ≡ true → at + rows ≤ length gaps.now }
    ensures fits { result ≡ true → before + 128 * rows < 2 ^ 32 }
    ensures short { result ≡ true → (j : ℕ) → j < rows → slice_index_or gaps.now (at + j) 0 < 128 }
{
    before < FAR && rows <= MAX_ROWS && rows <= gaps.len() - at && are_codes(gaps, at, rows)
}

// Whether each of so many bytes is a code.
#[inline]
fn are_codes(gaps: &[u8], at: usize, rows: usize) -> bool
    requires { at + rows ≤ length gaps.now }

    ensures { result ≡ true → (j : ℕ) → j < rows → slice_index_or gaps.now (at + j) 0 < 128 }
{
    let mut most: u8 = 0;
    for i in 0..rows {
        most = most.max(gaps[at + i]);
    }
    most < 128
}

// The same where each code has one byte.
#[inline]
fn short_docs(gaps: &[u8], at: usize, before: u32, docs: u32, out: &mut [u32]) -> Option<usize>
    requires within { at + length out.old ≤ length gaps.now }
    requires fits { before + 128 * length out.old < 2 ^ 32 }
    requires short { (j : ℕ) → j < length out.old → slice_index_or gaps.now (at + j) 0 < 128 }

    ensures { IfSome result (λ next. HasDocs gaps.now at before docs out.new next) }
{
    let mut doc = before;
    for i in 0..out.len() {
        doc += u32::from(gaps[at + i]);
        out[i] = doc;
    }
    if doc >= docs {
        return None;
    }
    Some(at + out.len())
}

// The same where each code has one byte or two.
fn pair_docs(gaps: &[u8], at: usize, before: u32, docs: u32, out: &mut [u32]) -> Option<usize>
    requires within { at + 2 * length out.old ≤ length gaps.now }
    requires fits { before + 2 ^ 15 * length out.old < 2 ^ 32 }

    ensures { IfSome result (λ next. HasDocs gaps.now at before docs out.new next) }
{
    let mut holds = true;
    let mut doc = before;
    let mut next = at;
    for i in 0..out.len() {
        let first = gaps[next];
        let second = gaps[next + 1];
        holds &= is_pair(first, second);
        doc += pair_number(first, second);
        out[i] = doc;
        next += pair_len(first);
    }
    if !holds || doc >= docs {
        return None;
    }
    Some(next)
}

// Whether a code of one byte or two begins with these two bytes.
#[inline]
fn is_pair(first: u8, second: u8) -> bool
    ensures { result ≡ (nat_lt first 128 || (nat_lt 0 second && nat_lt second 128)) }
{
    (first < 128) | ((0 < second) & (second < 128))
}

// The number of that code.
#[inline]
fn pair_number(first: u8, second: u8) -> u32
    ensures one { first < 128 → result ≡ first }
    ensures two { 128 ≤ first → result + 128 ≡ first + 128 * second }
    ensures few { result < 2 ^ 15 }
{
    u32::from(first % 128) + u32::from(first / 128) * (128 * u32::from(second))
}

// The bytes of that code.
#[inline]
fn pair_len(first: u8) -> usize
    ensures one { first < 128 → result ≡ 1 }
    ensures two { 128 ≤ first → result ≡ 2 }
    ensures most { result ≤ 2 }
{
    1 + usize::from(first / 128)
}

// The same for all codes, one by one.
fn long_docs(gaps: &[u8], at: usize, before: u32, docs: u32, out: &mut [u32]) -> Option<usize>
    requires within { at ≤ length gaps.now }

    ensures { IfSome result (λ next. HasDocs gaps.now at before docs out.new next) }
{
    let mut doc = before;
    let mut next = at;
    for i in 0..out.len() {
        let Some((here, behind)) = doc_here(gaps, next, doc, docs) else {
            return None;
        };
        out[i] = here;
        doc = here;
        next = behind;
    }
    Some(next)
}
