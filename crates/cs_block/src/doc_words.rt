//! Reading the documents and the words of a block's rows, without positions and scores.
ghost use Rattle.std.specs.Prelude.{◌≡◌, ◌≤◌, true, List, ℕ, [], length, Some, Err, IfErr, IfNone, IfSome, OnErr, OnOk};
ghost use Rattle.cs_base.specs.declared.content.scores.Weights.{Weights};
ghost use Rattle.cs_model_index.specs.{BlockRules.{judged}, Blocks.{IsShaped}};
ghost use Rattle.cs_block.specs.{BlockReading.{Decodes}, DocWords.{HasDocWords, HasFront, IsFront, ListsFront, front_bytes}};

use crate::fault::BlockFault;
use crate::judging::bad_code;
use crate::listing::{Front, list_rows};
use crate::run_columns::words_in;
use crate::run_docs::docs_in;
use cs_base::{BlockHead, Broken, Memory};

/// How many bytes of a block stand in front of its positions: those of its documents and words.
pub fn front_len(head: &BlockHead) -> u32
    requires { IsShaped head.now head.now.len }

    ensures { result ≡ front_bytes head.now }
{
    head.len - 5 * head.rows
}

/// Puts the documents and the words of a block's rows into two columns, in place of what these hold. They stand in front of its
/// positions, so `bytes` may be as few as `front_len` says, of those with which the block begins. The fault is the rule that they
/// break first, from 13 to 15, and so the block does, or that memory ran out; then the columns hold nothing.
pub fn read_doc_words(
    bytes: &[u8],
    head: &BlockHead,
    docs: u32,
    into_docs: &mut Vec<u32>,
    into_words: &mut Vec<u32>,
) -> Result<(), BlockFault>
    requires shaped { IsShaped head.now head.now.len }
    requires front { front_bytes head.now ≤ length bytes.now }

    // of each block that begins so, whatever the rows of its collection count for
    ensures ok { OnOk result ((block : List ℕ) → HasFront head.now bytes.now block → HasDocWords head.now docs block into_docs.new.items into_words.new.items) }
    ensures exact { IfErr result (λ fault. (w : Weights) (block : List ℕ) → HasFront head.now bytes.now block → Decodes (Err fault) (judged w head.now docs block)) }
    ensures err { OnErr result ((into_docs.new.items ≡ []) × (into_words.new.items ≡ [])) }
{
    let put = put_doc_words(bytes, head, docs, into_docs, into_words);
    if put.is_err() {
        into_docs.truncate(0);
        into_words.truncate(0);
    }
    put
}

// The same, with anything in the columns behind a fault.
fn put_doc_words(
    bytes: &[u8],
    head: &BlockHead,
    docs: u32,
    into_docs: &mut Vec<u32>,
    into_words: &mut Vec<u32>,
) -> Result<(), BlockFault>
    requires shaped { IsShaped head.now head.now.len }
    requires front { front_bytes head.now ≤ length bytes.now }

    ensures ok { OnOk result ((block : List ℕ) → HasFront head.now bytes.now block → HasDocWords head.now docs block into_docs.new.items into_words.new.items) }
    ensures exact { IfErr result (λ fault. (w : Weights) (block : List ℕ) → HasFront head.now bytes.now block → Decodes (Err fault) (judged w head.now docs block)) }
{
    fit(into_docs, head.rows)?;
    fit(into_words, head.rows)?;
    if let Some(broken) = list_front(bytes, head, docs, into_docs, into_words) {
        return Err(BlockFault::from(broken));
    }
    Ok(())
}

// Makes a column so long, to be written over.
fn fit(column: &mut Vec<u32>, rows: u32) -> Result<(), Memory>
    ensures { OnOk result (length column.new.items ≡ rows) }
{
    column.resize(rows as usize, 0)?;
    Ok(())
}

// The same into slices that are as long, and what is broken, if something is.
fn list_front(
    bytes: &[u8],
    head: &BlockHead,
    docs: u32,
    row_docs: &mut [u32],
    row_words: &mut [u32],
) -> Option<Broken>
    requires shaped { IsShaped head.now head.now.len }
    requires front { front_bytes head.now ≤ length bytes.now }
    requires room_docs { length row_docs.old ≡ head.now.rows }
    requires room_words { length row_words.old ≡ head.now.rows }

    ensures broken { IfSome result (λ broken. (w : Weights) (block : List ℕ) → HasFront head.now bytes.now block → judged w head.now docs block ≡ Some broken) }
    ensures listed { IfNone result ((block : List ℕ) → HasFront head.now bytes.now block → HasDocWords head.now docs block row_docs.new row_words.new) }
{
    let (gaps, rest) = bytes.split_at((head.len - 7 * head.rows) as usize);
    let (words, _) = rest.split_at(2 * head.rows as usize);
    let front = Front {
        head,
        docs,
        gaps,
        words,
    };
    if are_listed(front, row_docs, row_words) {
        return None;
    }
    if let Some(at) = bad_code(gaps, head.rows) {
        return Some(Broken {
            n: 13,
            at: at as u32,
        });
    }
    list_rows(front, row_docs, row_words)
}

// The same column by column, with anything in the slices where something is out of range.
fn are_listed(front: Front<'_>, row_docs: &mut [u32], row_words: &mut [u32]) -> bool
    requires front { IsFront front.head.now front.gaps.now front.words.now }
    requires room_words { length row_words.old ≡ front.head.now.rows }

    ensures { result ≡ true → ListsFront front.entry.head.now front.entry.docs front.entry.gaps.now front.entry.words.now
        row_docs.new row_words.new }
{
    docs_in(front.gaps, 0, 0, front.docs, row_docs).is_some()
        && words_in(front.words, 0, front.head.lo, front.head.words, row_words)
}
