//! The blocks of an index file.
ghost use Rattle.std.specs.Prelude.{◌≡◌, ◌+◌, ◌≤◌, ◌<◌, ◌^◌, ◌++◌, ◌∷◌, [], All, false, length, map, IfOk, OnOk};
ghost use Rattle.std.specs.List.{sum_by};
ghost use Rattle.std.specs.Option.{ForSome};
ghost use Rattle.cs_base.specs.outside.Outside.{part};
ghost use Rattle.cs_base.specs.declared.content.limits.TheConstants.{MAX_ROWS, MAX_WORDS};
ghost use Rattle.cs_model.specs.Weights.{AreWeights};
ghost use Rattle.cs_model_index.specs.Blocks.{IsShaped};
ghost use Rattle.cs_model_index.specs.Sections.{blocks_at};
ghost use Rattle.cs_file.specs.CallAnswers.{is_read_of_open};
ghost use Rattle.cs_file.specs.HeaderView.{seen_header};
ghost use Rattle.cs_file.specs.Indexes.{CausedReads};
ghost use Rattle.cs_file.specs.Opening.{AreBytes, Judges, IsHeader, HasHeader, block_broken, blocks_of, blocks_stage, heads_of, named_heads};
ghost use Rattle.cs_file.specs.Parting.{bare, part_read, parts_by};

use crate::fault::OpenFault;
use crate::header::Header;
use crate::part::BlockPart;
use crate::parts::block_part;
use crate::reading::section;
use crate::weights::weights_of;
use cs_base::{BlockHead, Memory, Store, Weights};
use cs_block::{BlockFault, decode};
use cs_cols::Cols;
use std::alloc::Global;

/// Reads the blocks one by one, tries rules 13 to 17, and says what rules 18 and 19 ask of them.
pub(crate) fn read_blocks<S: Store>(
    alloc: Global,
    store: &mut S,
    header: &Header,
    heads: &[BlockHead],
) -> Result<Vec<BlockPart>, OpenFault>
    requires ranges { IsHeader (seen_header header.now) }
    requires told { HasHeader (S.bytes store.old) (seen_header header.now) }
    requires heads { ForSome (S.bytes store.old) (λ b. heads.now ≡ named_heads b) }
    requires shaped { All (λ h. IsShaped h h.len) heads.now }
    requires bytes { sum_by (λ h. h.len) heads.now ≡ header.now.blocks_len }
    requires few { length heads.now ≤ MAX_WORDS }
    requires rows { All (λ h. h.rows ≤ MAX_ROWS) heads.now }

    ensures exact { ForSome (S.bytes store.old) (λ b. Judges (blocks_stage b) result) }
    ensures parts { ForSome (S.bytes store.old) (λ b. IfOk result (λ v. v.items ≡ parts_by (heads_of b) (blocks_of b))) }
    ensures bare { IfOk result (λ v. map (λ p. bare p.head) v.items ≡ map bare heads.now) }
    ensures small { ForSome (S.bytes store.old) (λ b. OnOk result (AreBytes b (blocks_at (seen_header header.now)) header.now.blocks_len)) }
    ensures bytes { S.bytes store.new ≡ S.bytes store.old }
    ensures lent { S.lent store.new ≡ S.lent store.old }
    ensures caused { CausedReads (is_read_of_open result) (S.faults store.old) (S.faults store.new) }
{
    let mut parts = room_for(alloc, heads.len())?;
    let mut at = header.blocks_at();
    let weights = weights_of(header.weights);
    for i in 0..heads.len() {
        let part = read_block(alloc, store, at, &heads[i], header.docs, weights)?;
        push_part(&mut parts, part)?;
        at += u64::from(heads[i].len);
    }
    Ok(parts)
}

fn room_for(alloc: Global, count: usize) -> Result<Vec<BlockPart>, Memory>
    ensures { IfOk result (λ v. v.items ≡ []) }
{
    let parts = Vec::with_capacity(alloc, count)?;
    Ok(parts)
}

fn push_part(parts: &mut Vec<BlockPart>, part: BlockPart) -> Result<(), Memory>
    ensures { OnOk result (parts.new.items ≡ parts.old.items ++ part ∷ []) }
{
    parts.push(part)?;
    Ok(())
}

// Reads the block at a place, and tries rules 13 to 17 on it.
fn read_block<S: Store>(
    alloc: Global,
    store: &mut S,
    at: u64,
    head: &BlockHead,
    docs: u32,
    weights: Weights,
) -> Result<BlockPart, OpenFault>
    requires weights { AreWeights weights }
    requires shaped { IsShaped head.now head.now.len }
    requires rows { head.now.rows ≤ MAX_ROWS }
    requires places { at < 2 ^ 40 }
    requires within { ForSome (S.bytes store.old) (λ b. at + head.now.len ≤ length b) }

    ensures exact { ForSome (S.bytes store.old) (λ b. Judges (block_broken weights at head.now docs (part b at head.now.len)) result) }
    ensures part { ForSome (S.bytes store.old) (λ b. IfOk result (λ p. p ≡ part_read head.now (part b at head.now.len))) }
    ensures bare { IfOk result (λ p. bare p.head ≡ bare head.now) }
    ensures small { ForSome (S.bytes store.old) (λ b. OnOk result (AreBytes b at head.now.len)) }
    ensures bytes { S.bytes store.new ≡ S.bytes store.old }
    ensures lent { S.lent store.new ≡ S.lent store.old }
    ensures caused { CausedReads (is_read_of_open result) (S.faults store.old) (S.faults store.new) }
{
    let bytes = section(alloc, store, at, head.len as usize)?;
    judge_block(alloc, &bytes, head, docs, weights, at)
}

// Tries rules 13 to 17 on the bytes of a block that stands at a place.
fn judge_block(
    alloc: Global,
    bytes: &[u8],
    head: &BlockHead,
    docs: u32,
    weights: Weights,
    at: u64,
) -> Result<BlockPart, OpenFault>
    requires weights { AreWeights weights }
    requires shaped { IsShaped head.now (length bytes.now) }
    requires rows { head.now.rows ≤ MAX_ROWS }
    requires places { at < 2 ^ 40 }

    ensures exact { Judges (block_broken weights at head.now docs bytes.now) result }
    ensures part { IfOk result (λ p. p ≡ part_read head.now bytes.now) }
    ensures bare { IfOk result (λ p. bare p.head ≡ bare head.now) }
    ensures unread { is_read_of_open result ≡ false }
{
    let mut rows = Cols::new(alloc);
    match decode(bytes, head, docs, weights, &mut rows) {
        Ok(()) => {
            let part = block_part(alloc, head, rows.docs(), rows.words())?;
            Ok(part)
        }
        Err(BlockFault::Memory) => Err(OpenFault::Memory),
        Err(BlockFault::Rule { n, at: within }) => Err(OpenFault::Damaged {
            rule: n,
            at: at + u64::from(within),
        }),
    }
}
