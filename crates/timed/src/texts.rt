//! The words of a text, and a collection read into rows, its vocabulary and the rows' numbers.
use cs_base::Memory;
use cs_docs::{Collected, DocFault, RowsFault, read_docs, rows_of};
use cs_text::words;
use cs_vocab::Numbered;
use std::alloc::Global;

/// Finds the words of a text so often: how many there are.
pub(crate) fn found(alloc: Global, text: &str, times: u32) -> Result<Option<u64>, Memory> {
    let mut count = 0;
    for _ in 0..times {
        count = words(alloc, text)?.len() as u64;
    }
    Ok(Some(count))
}

/// Reads a collection so often: how many documents, rows and distinct words it has together, if it is accepted.
pub(crate) fn counted(alloc: Global, bytes: &[u8], times: u32) -> Result<Option<u64>, Memory> {
    let mut count = None;
    for _ in 0..times {
        count = count_of(alloc, bytes)?;
    }
    Ok(count)
}

fn count_of(alloc: Global, bytes: &[u8]) -> Result<Option<u64>, Memory> {
    let Collected { docs, weights } = match read_docs(alloc, bytes) {
        Ok(collected) => collected,
        Err(DocFault::Memory) => return Err(Memory),
        Err(_) => return Ok(None),
    };
    let rows = match rows_of(alloc, &docs, weights) {
        Ok(rows) => rows,
        Err(RowsFault::Memory) => return Err(Memory),
        Err(RowsFault::TooManyRows) => return Ok(None),
    };
    let numbered = Numbered::of(alloc, &rows)?;
    let count = (docs.len() as u64).wrapping_add(rows.len() as u64);
    Ok(Some(count.wrapping_add(u64::from(numbered.words.len()))))
}
