//! Lines of a collection, added to those before.
ghost use Rattle.std.specs.Prelude.{◌≡◌, ◌≤◌, ◌<◌, ◌++◌, ◌∷◌, [], IfOk, OnOk, IsErrOf, length};
ghost use Rattle.cs_base.specs.content.Bytes.{line_feed};
ghost use Rattle.cs_base.specs.declared.content.limits.TheConstants.{MAX_COLLECTION_BYTES};
ghost use Rattle.cs_model_sources.specs.Translated.{flat, translated, usual_weights_line};
ghost use Rattle.cs_more.specs.declared.fault.FlatFault.TheVariants.{TooLarge};

use crate::fault::FlatFault;
use cs_base::{MAX_COLLECTION_BYTES, Memory};
use memchr::memchr3;
use std::alloc::Global;

// The weights of a collection that names none, as its first line.
const USUAL_WEIGHTS_LINE: [u8; 32] = *b"#weights title=4 facet=2 text=1\n";

/// The line that every translation begins with, and room for so many bytes behind it.
#[tactic(auto, unfolding(cs_model_sources::specs::Translated::usual_weights_line))]
pub(crate) fn usual_weights_line(alloc: Global, room: usize) -> Result<Vec<u8>, Memory>
    ensures ok { IfOk result (λ v. v.items ≡ usual_weights_line) }
    ensures few { IfOk result (λ v. length v.items ≤ MAX_COLLECTION_BYTES) }
{
    let mut tsv = Vec::with_capacity(alloc, room.saturating_add(USUAL_WEIGHTS_LINE.len()))?;
    tsv.extend_from_slice(&USUAL_WEIGHTS_LINE)?;
    Ok(tsv)
}

/// Adds a line without bytes.
pub(crate) fn push_blank(tsv: &mut Vec<u8>) -> Result<(), FlatFault>
    ensures ok { OnOk result (tsv.new.items ≡ tsv.old.items ++ line_feed ∷ []) }
    ensures few { OnOk result (length tsv.new.items ≤ MAX_COLLECTION_BYTES) }

    ensures too_large { IsErrOf result TooLarge → MAX_COLLECTION_BYTES < length (tsv.old.items ++ line_feed ∷ []) }
{
    push_end(tsv)?;
    if tsv.len() > MAX_COLLECTION_BYTES {
        return Err(FlatFault::TooLarge);
    }
    Ok(())
}

fn push_end(tsv: &mut Vec<u8>) -> Result<(), Memory>
    ensures ok { OnOk result (tsv.new.items ≡ tsv.old.items ++ line_feed ∷ []) }
{
    tsv.push(b'\n')?;
    Ok(())
}

/// Adds the line of a document.
pub(crate) fn push_document_line(
    tsv: &mut Vec<u8>,
    title: &[u8],
    facets: &[u8],
    text: &[u8],
) -> Result<(), FlatFault>
    ensures ok { OnOk result (tsv.new.items ≡ tsv.old.items ++ translated title.now facets.now text.now) }
    ensures few { OnOk result (length tsv.new.items ≤ MAX_COLLECTION_BYTES) }

    ensures too_large { IsErrOf result TooLarge → MAX_COLLECTION_BYTES < length (tsv.old.items ++ translated title.now facets.now text.now) }
{
    push_columns(tsv, title, facets, text)?;
    if tsv.len() > MAX_COLLECTION_BYTES {
        return Err(FlatFault::TooLarge);
    }
    Ok(())
}

fn push_columns(tsv: &mut Vec<u8>, title: &[u8], facets: &[u8], text: &[u8]) -> Result<(), Memory>
    ensures ok { OnOk result (tsv.new.items ≡ tsv.old.items ++ translated title.now facets.now text.now) }
{
    push_flat(tsv, title)?;
    tsv.push(b'\t')?;
    push_flat(tsv, facets)?;
    tsv.push(b'\t')?;
    push_flat(tsv, text)?;
    tsv.push(b'\n')?;
    Ok(())
}

// Adds bytes with a space in the place of each tab, LF and CR.
fn push_flat(tsv: &mut Vec<u8>, bytes: &[u8]) -> Result<(), Memory>
    ensures ok { OnOk result (tsv.new.items ≡ tsv.old.items ++ flat bytes.now) }
{
    let mut rest = bytes;
    while let Some(at) = memchr3(b'\t', b'\n', b'\r', rest) {
        tsv.extend_from_slice(&rest[..at])?;
        tsv.push(b' ')?;
        rest = &rest[at + 1..];
    }
    tsv.extend_from_slice(rest)?;
    Ok(())
}
