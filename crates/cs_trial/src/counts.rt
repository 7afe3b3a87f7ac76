//! What a trial counts, and its text.
ghost use Rattle.std.specs.Prelude.{◌≡◌, ◌++◌, IfOk, OnOk};
ghost use Rattle.std.specs.List.{flat_map};
ghost use Rattle.cs_model_trial.specs.Summary.{summary_line};
ghost use Rattle.cs_trial.specs.Told.{told};

use cs_base::Memory;
use itoa::Buffer;
use std::alloc::Global;

/// What a trial counts.
#[derive(Clone, Copy, Debug, PartialEq, Eq)]
pub struct TrialCounts {
    /// The documents of its collection.
    pub documents: u64,
    /// The rows of its collection.
    pub rows: u64,
    /// The blocks of its index.
    pub blocks: u64,
    /// The replies to its queries.
    pub replies: u64,
    /// The hits of all replies, those that aren't shown too.
    pub hits: u64,
    /// The replies for which the answer was kept.
    pub same: u64,
    /// Those for which the answer to a shorter prefix was.
    pub narrow: u64,
    /// Those for which the answer to the parts before the last was.
    pub extend: u64,
    /// Those for which none was.
    pub fresh: u64,
}

/// The text of a summary: a line for each count.
pub fn summary_bytes(alloc: Global, counts: &TrialCounts) -> Result<Vec<u8>, Memory>
    ensures { IfOk result (λ bytes. bytes.items ≡ flat_map summary_line (told counts.now)) }
{
    let mut bytes = Vec::new(alloc);
    put_count(&mut bytes, b"documents", counts.documents)?;
    put_count(&mut bytes, b"rows", counts.rows)?;
    put_count(&mut bytes, b"blocks", counts.blocks)?;
    put_count(&mut bytes, b"replies", counts.replies)?;
    put_count(&mut bytes, b"hits", counts.hits)?;
    put_count(&mut bytes, b"same", counts.same)?;
    put_count(&mut bytes, b"narrow", counts.narrow)?;
    put_count(&mut bytes, b"extend", counts.extend)?;
    put_count(&mut bytes, b"fresh", counts.fresh)?;
    Ok(bytes)
}

// Adds the line of a word and its number.
fn put_count(bytes: &mut Vec<u8>, word: &[u8], count: u64) -> Result<(), Memory>
    ensures { OnOk result (bytes.new.items ≡ bytes.old.items ++ summary_line (word.now, count)) }
{
    let mut digits = Buffer::new();
    bytes.extend_from_slice(word)?;
    bytes.push(b' ')?;
    bytes.extend_from_slice(digits.format(count).as_bytes())?;
    bytes.push(b'\n')?;
    Ok(())
}
