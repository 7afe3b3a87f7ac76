//! Titles of documents of the index and of added ones, and of those that are gone.
ghost use Rattle.std.specs.Prelude.{◌≡◌, ◌<◌, ◌+◌, true, [], length, nat_lt, slice_index_or, if◌then◌else◌, IfOk};
ghost use Rattle.std.specs.{List.{All}, Str.{is_utf8}};
ghost use Rattle.cs_base.specs.outside.Causes.{ReadsWithin};
ghost use Rattle.cs_rows.specs.IndexReading.{OnlyReads};
ghost use Rattle.cs_file.specs.Indexes.{HasAllBlocks};
ghost use Rattle.cs_live.specs.States.{IsTitle};

use cs_base::{Memory, Seq, Store, Text};
use cs_file::{FetchFault, Index};
use std::alloc::Global;

/// The title of a document of the index, which is read, or of one that was added; the empty text of one that is gone.
pub(crate) fn title_now<S: Store>(
    alloc: Global,
    index: &Index,
    present: &[bool],
    added: &Seq<Text>,
    store: &mut S,
    doc: u32,
) -> Result<Text, FetchFault>
    requires in_range { doc < index.now.docs + length added.now }
    requires present { doc < length present.now }
    requires texts { All (λ t. is_utf8 t ≡ true) added.now }
    requires fits { HasAllBlocks (S.bytes store.old) index.now }

    ensures title { IfOk result (IsTitle index.now (S.bytes store.old) present.now added.now doc) }
    ensures store { OnlyReads S.bytes S.lent S.faults index.now store.old store.new result }
    ensures reads { ReadsWithin (if nat_lt doc index.now.docs then 1 else 0) (S.reads store.old) (S.reads store.new) }
{
    if !present[doc as usize] {
        return Ok(Text::new(alloc));
    }
    if doc < index.docs {
        return index.title(alloc, store, doc);
    }
    let title = copy_at(alloc, added.as_slice(), (doc - index.docs) as usize)?;
    Ok(title)
}

// A text once more.
fn copy_at(alloc: Global, texts: &[Text], n: usize) -> Result<Text, Memory>
    requires { n < length texts.now }

    ensures { IfOk result (λ t. t ≡ slice_index_or texts.now n []) }
{
    texts[n].copy(alloc)
}
