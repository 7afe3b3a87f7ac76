//! Reading the scores of a block's rows, without their documents, words and positions.
ghost use Rattle.std.specs.Prelude.{◌≡◌, true, length, [], IfOk, OnErr};
ghost use Rattle.cs_model_index.specs.{Blocks.{IsShaped}, BlockRules.{block_columns}};
ghost use Rattle.cs_block.specs.BlockScores.{HasScores};

use crate::columns::block_columns;
use crate::run_columns::are_scores;
use cs_base::{BlockHead, Memory, Weights};

/// Puts the scores of a block's rows into a column, in place of what it holds. False, with anything in it, where one isn't of the
/// block's kind, in a collection of these weights, which never comes of bytes that keep the rules. Where memory runs out the column
/// holds nothing.
pub fn read_scores(
    bytes: &[u8],
    head: &BlockHead,
    weights: Weights,
    scores: &mut Vec<u8>,
) -> Result<bool, Memory>
    requires shaped { IsShaped head.now (length bytes.now) }

    ensures ok { IfOk result (λ whole. whole ≡ true → HasScores weights head.now bytes.now scores.new.items) }
    ensures err { OnErr result (scores.new.items ≡ []) }
    ensures column { IfOk result (λ whole. scores.new.items ≡ (block_columns head.now bytes.now).scores) }
{
    let columns = block_columns(bytes, head);
    scores.truncate(0);
    scores.extend_from_slice(columns.scores)?;
    Ok(are_scores(columns.scores, head.facet, weights))
}
