//! Writing a block.
ghost use Rattle.std.specs.Prelude.{◌≡◌, ℕ, ◌+◌, ◌-◌, ◌*◌, ◌<◌, ◌≤◌, ◌^◌, ◌++◌, length, OnOk, OnErr, drop, take};
ghost use Rattle.std.specs.Vec.{vec_len, vec_capacity};
ghost use Rattle.cs_base.specs.index.GapCode.{code};
ghost use Rattle.cs_model_index.specs.Blocks.{AreWritable, block_bytes, gap_column, position_column, score_column, word_column};
ghost use Rattle.cs_block.specs.BlockSpelling.{HasWords, IsAscending};

use cs_base::Memory;
use cs_cols::Cols;
use cs_gaps::with_gap;
use std::mem::replace;

/// Adds the bytes of the block of these rows at the end, where `lo` is the number of its first word.
pub fn encode(rows: &Cols, lo: u32, out: &mut Vec<u8>) -> Result<(), Memory>
    requires { AreWritable lo rows.now.posts }

    ensures ok { OnOk result (out.new.items ≡ out.old.items ++ block_bytes rows.now.posts lo) }
    ensures err { OnErr result (out.new.items ≡ out.old.items) }
{
    let len = out.len();
    match put_columns(rows, lo, out) {
        Ok(()) => Ok(()),
        Err(e) => {
            out.truncate(len);
            Err(e)
        }
    }
}

#[tactic(auto, using(crate::proofs::PutLemmas::kept_twice))]
fn put_columns(rows: &Cols, lo: u32, out: &mut Vec<u8>) -> Result<(), Memory>
    requires { AreWritable lo rows.now.posts }

    ensures ok { OnOk result (out.new.items ≡ out.old.items ++ block_bytes rows.now.posts lo) }
    ensures kept { take (length out.old.items) out.new.items ≡ out.old.items }
{
    put_gaps(rows, out)?;
    put_numbers(rows, lo, out)?;
    put_scores(rows, out)?;
    Ok(())
}

// The longest codes need five bytes a row. What these leave of that, the other columns take: they have seven bytes a row.
fn put_gaps(rows: &Cols, out: &mut Vec<u8>) -> Result<(), Memory>
    requires { IsAscending 0 rows.now.posts }

    ensures ok { OnOk result (out.new.items ≡ out.old.items ++ gap_column 0 rows.now.posts) }
    ensures kept { take (length out.old.items) out.new.items ≡ out.old.items }
{
    let Some(bytes) = rows.len().checked_mul(5) else {
        return Err(Memory);
    };
    out.reserve(bytes)?;
    // a local, so that no byte can lie over where the bytes begin
    let taken = replace(out, Vec::new(*out.allocator()));
    *out = with_gaps(taken, rows);
    Ok(())
}

// The codes of four rows at a time.
#[inline]
fn with_gaps(mut out: Vec<u8>, rows: &Cols) -> Vec<u8>
    requires sorted { IsAscending 0 rows.now.posts }
    requires room { vec_len out + 5 * length rows.now.posts ≤ vec_capacity out }

    ensures { result.items ≡ out.items ++ gap_column 0 rows.now.posts }
{
    let docs = rows.docs();
    let mut before = 0;
    let mut i = 0;
    while docs.len() - i >= 4 {
        out = with_four_gaps(out, before, docs[i], docs[i + 1], docs[i + 2], docs[i + 3]);
        before = docs[i + 3];
        i += 4;
    }
    with_last_gaps(out, rows, i, before)
}

// Where each of the four codes has one byte, they are added without a jump between them.
#[inline]
fn with_four_gaps(mut out: Vec<u8>, before: u32, a: u32, b: u32, c: u32, d: u32) -> Vec<u8>
    requires sorted { (before ≤ a) × (a ≤ b) × (b ≤ c) × (c ≤ d) }
    requires room { vec_len out + 20 ≤ vec_capacity out }

    ensures items { result.items ≡ out.items ++ (code (a - before) ++ (code (b - a) ++ (code (c - b) ++ code (d - c)))) }
    ensures few { vec_len result ≤ vec_len out + 20 }
    ensures capacity { vec_capacity result ≡ vec_capacity out }
{
    let first = a - before;
    let second = b - a;
    let third = c - b;
    let fourth = d - c;
    if (first < 128) & (second < 128) & (third < 128) & (fourth < 128) {
        out.push_reserved(first as u8);
        out.push_reserved(second as u8);
        out.push_reserved(third as u8);
        out.push_reserved(fourth as u8);
        return out;
    }
    with_gap(
        with_gap(with_gap(with_gap(out, first), second), third),
        fourth,
    )
}

// The codes from the row at `from` on, behind a document.
#[inline]
fn with_last_gaps(mut out: Vec<u8>, rows: &Cols, from: usize, behind: u32) -> Vec<u8>
    requires sorted { IsAscending behind (drop from rows.now.posts) }
    requires room { vec_len out + 5 * (length rows.now.posts - from) ≤ vec_capacity out }

    ensures { result.items ≡ out.items ++ gap_column behind (drop from rows.now.posts) }
{
    let docs = rows.docs();
    let mut before = behind;
    for i in from..docs.len() {
        out = with_gap(out, docs[i] - before);
        before = docs[i];
    }
    out
}

// Adds the columns of two bytes and of four.
fn put_numbers(rows: &Cols, lo: u32, out: &mut Vec<u8>) -> Result<(), Memory>
    requires { HasWords lo rows.now.posts }

    ensures ok { OnOk result (out.new.items ≡ (out.old.items ++ word_column lo rows.now.posts) ++ position_column rows.now.posts) }
    ensures kept { take (length out.old.items) out.new.items ≡ out.old.items }
{
    let Some(bytes) = rows.len().checked_mul(6) else {
        return Err(Memory);
    };
    out.reserve(bytes)?;
    // a local, for the same reason
    let taken = replace(out, Vec::new(*out.allocator()));
    *out = with_positions(with_words(taken, rows, lo), rows);
    Ok(())
}

#[inline]
fn with_words(mut out: Vec<u8>, rows: &Cols, lo: u32) -> Vec<u8>
    requires words { HasWords lo rows.now.posts }
    requires room { vec_len out + 2 * length rows.now.posts ≤ vec_capacity out }

    ensures items { result.items ≡ out.items ++ word_column lo rows.now.posts }
    ensures len { vec_len result ≡ vec_len out + 2 * length rows.now.posts }
    ensures capacity { vec_capacity result ≡ vec_capacity out }
{
    for word in rows.words() {
        let [a, b] = ((*word - lo) as u16).to_be_bytes();
        out.push_reserved(a);
        out.push_reserved(b);
    }
    out
}

#[inline]
fn with_positions(mut out: Vec<u8>, rows: &Cols) -> Vec<u8>
    requires { vec_len out + 4 * length rows.now.posts ≤ vec_capacity out }

    ensures { result.items ≡ out.items ++ position_column rows.now.posts }
{
    for place in rows.places() {
        let [a, b, c, d] = place.to_be_bytes();
        out.push_reserved(a);
        out.push_reserved(b);
        out.push_reserved(c);
        out.push_reserved(d);
    }
    out
}

fn put_scores(rows: &Cols, out: &mut Vec<u8>) -> Result<(), Memory>
    ensures ok { OnOk result (out.new.items ≡ out.old.items ++ score_column rows.now.posts) }
    ensures kept { take (length out.old.items) out.new.items ≡ out.old.items }
{
    out.extend_from_slice(rows.scores())?;
    Ok(())
}
