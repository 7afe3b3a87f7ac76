//! Lines of JSON as a collection.
ghost use Rattle.std.specs.Prelude.{◌≡◌, ◌≤◌, ◌<◌, ◌⊎◌, IfOk, OnOk, IsErrOf, length};
ghost use Rattle.cs_base.specs.declared.content.limits.TheConstants.{MAX_COLLECTION_BYTES};
ghost use Rattle.cs_model_sources.specs.JsonSources.{flat_of_jsonl};
ghost use Rattle.cs_more.specs.declared.fault.FlatFault.TheVariants.{TooLarge};

use crate::document_line::usual_weights_line;
use crate::fault::FlatFault;
use crate::json_line::push_line;
use cs_base::{MAX_COLLECTION_BYTES, Seq};
use cs_docs::{first_line, without_mark};
use cs_model_sources::{BadLine, Flat};
use std::alloc::Global;

/// The translation of lines of JSON.
///
/// Leading bytes EF BB BF are skipped once, and lines end as in a collection. A line without bytes gives one without
/// bytes. Each other line is an object: `title` and `text` are absent, null or a string, and `facets` is that or a list
/// of strings, which is joined by `;`; other fields are ignored. The first line of another form is the bad line, and
/// the documents before it are given.
pub fn flat_jsonl(alloc: Global, source: &[u8]) -> Result<Flat, FlatFault>
    ensures ok { IfOk result (λ f. f ≡ flat_of_jsonl source.now) }
    ensures few { OnOk result ((length source.now ≤ MAX_COLLECTION_BYTES) × (length (flat_of_jsonl source.now).tsv ≤ MAX_COLLECTION_BYTES)) }

    ensures too_large { IsErrOf result TooLarge → (MAX_COLLECTION_BYTES < length source.now) ⊎ (MAX_COLLECTION_BYTES < length (flat_of_jsonl source.now).tsv) }
{
    if source.len() > MAX_COLLECTION_BYTES {
        return Err(FlatFault::TooLarge);
    }
    let mut tsv = usual_weights_line(alloc, source.len())?;
    let mut rest = without_mark(source);
    let mut line = 0;
    while !rest.is_empty() {
        let (content, behind) = first_line(rest);
        line += 1;
        if let Some(why) = push_line(alloc, &mut tsv, content)? {
            return Ok(Flat {
                tsv: Seq::from_vec(tsv),
                bad: Some(BadLine { line, why }),
            });
        }
        rest = behind;
    }
    Ok(Flat {
        tsv: Seq::from_vec(tsv),
        bad: None,
    })
}
