//! Reading a block.
ghost use Rattle.std.specs.Prelude.{◌≡◌, ℕ, ◌≤◌, ◌++◌, true, List, length, map, take, OnOk, OnErr, None};
ghost use Rattle.std.specs.Option.{is_none};
ghost use Rattle.std.specs.Result.{result_err};
ghost use Rattle.cs_base.specs.declared.content.doc.Post.{Post};
ghost use Rattle.cs_model_index.specs.{Blocks.{IsShaped}, BlockRules.{IsBlock, item_row, block_items, judged, judged_columns}};
ghost use Rattle.cs_block.specs.{BlockReading.{Decodes, HasColumns}, ColumnsView.{seen_columns}};

use crate::columns::{CutColumns, block_columns, doc_here, row_at};
use crate::fault::BlockFault;
use crate::judging::judged_columns;
use crate::rules::keeps_rules;
use crate::runs::push_runs;
use cs_base::{BlockHead, Broken, Weights};
use cs_cols::Cols;

/// Adds the rows of a block at the end, or the fault says which rule its bytes break first, or that
/// memory ran out. `head` is what the index file's directory says of the block, and the documents of
/// the collection are those below `docs`; its rows count for `weights`.
pub fn decode(
    bytes: &[u8],
    head: &BlockHead,
    docs: u32,
    weights: Weights,
    into: &mut Cols,
) -> Result<(), BlockFault>
    requires shaped { IsShaped head.now (length bytes.now) }

    // what is accepted is what `encode` writes of rows that meet the rules, and these are added
    ensures ok { OnOk result ((rows : List Post) × IsBlock weights head.now docs rows bytes.now × (into.new.posts ≡ into.old.posts ++ rows)) }
    // such bytes are accepted, unless memory runs out
    ensures accepts { (rows : List Post) → IsBlock weights head.now docs rows bytes.now → Decodes result None }
    // which rule is the first broken one, and where
    ensures exact { Decodes result (judged weights head.now docs bytes.now) }
    ensures err { OnErr result (into.new.posts ≡ into.old.posts) }
{
    into.reserve(head.rows as usize)?;
    decode_reserved(bytes, head, docs, weights, into)?;
    Ok(())
}

/// Adds the rows of a block at the end, as `decode` does, in room that was reserved for them. It takes no
/// memory. `Broken` is the rule that the bytes break first, from 13 to 17, and its place in bytes from the
/// block's first; the list is as it was then.
pub fn decode_reserved(
    bytes: &[u8],
    head: &BlockHead,
    docs: u32,
    weights: Weights,
    into: &mut Cols,
) -> Result<(), Broken>
    requires shaped { IsShaped head.now (length bytes.now) }
    requires room { head.now.rows ≤ into.old.room }

    ensures ok { OnOk result ((rows : List Post) × IsBlock weights head.now docs rows bytes.now × (into.new.posts ≡ into.old.posts ++ rows)) }
    ensures accepts { (rows : List Post) → IsBlock weights head.now docs rows bytes.now → result_err result ≡ None }
    // which rule is the first broken one, and where
    ensures exact { result_err result ≡ judged weights head.now docs bytes.now }
    ensures err { OnErr result (into.new.posts ≡ into.old.posts) }
{
    let len = into.len();
    let columns = block_columns(bytes, head);
    if !push_rows(&columns, head, docs, weights, into) {
        if let Some(broken) = judged_columns(&columns, head, docs, weights) {
            into.truncate(len);
            return Err(broken);
        }
    }
    Ok(())
}

// Adds rows up to the first that breaks a rule, and says whether there is none. Where no row does,
// the runs are all rows; where one does, the rows of its run are gone over one by one.
fn push_rows(
    columns: &CutColumns<'_>,
    head: &BlockHead,
    docs: u32,
    weights: Weights,
    into: &mut Cols,
) -> bool
    requires shaped { IsShaped head.now head.now.len }
    requires sized { HasColumns head.now (seen_columns columns.now) }
    requires room { head.now.rows ≤ into.old.room }

    ensures told { result ≡ is_none (judged_columns weights head.now docs (seen_columns columns.now)) }
    ensures posts { result ≡ true → into.new.posts ≡ into.old.posts ++ map item_row (block_items head.now (seen_columns columns.now)) }
    ensures kept { take (length into.old.posts) into.new.posts ≡ into.old.posts }
{
    let reached = push_runs(columns, head, docs, weights, into);
    let mut last = reached.last;
    let mut before = reached.before;
    let mut at = reached.at;
    for i in reached.rows..head.rows {
        let Some((doc, next)) = doc_here(columns.gaps, at, before, docs) else {
            return false;
        };
        let row = row_at(columns, head.lo, doc, i as usize);
        if !keeps_rules(head, weights, last, row) {
            return false;
        }
        into.push_reserved(row);
        last = Some(row);
        before = row.doc;
        at = next;
    }
    at == columns.gaps.len()
}
