//! A collection, and the corpus that is searched.
ghost use Rattle.std.specs.{Option.{option_map}, Prelude.{◌≡◌, None, IfOk, IfErr, OnOk, map}};
ghost use Rattle.cs_build.specs.declared.fault.BuildFault.{BuildFault};
ghost use Rattle.cs_docs.specs.{FaultRefusals.{reason_text}, LinesRead.{doc_of_lent}};
ghost use Rattle.cs_model.specs.{Collection.{refusal_words, weights}, Corpus.{corpus, refusal, title_of}};
ghost use Rattle.cs_indexing.specs.Filed.{HasFile, HasSizes, IsFiled};
ghost use Rattle.cs_indexing.specs.declared.collection.CollectionFault.{CollectionFault};
ghost use Rattle.cs_indexing.specs.Views.{IsCollectionCause, collection_refusal_of};

use cs_base::{Memory, Seq, Text};
use cs_build::{BuildFault, RowColumns, image_of_columns};
use cs_docs::{DocFault, LentCollected, LentDoc, Reason, RowsFault, lent_docs};
use cs_file::Image;
use cs_model_index::TARGET;
use std::alloc::Global;

/// Why a collection makes no corpus: what refused it, or what found no memory.
#[derive(Clone, Copy, Debug, PartialEq, Eq)]
pub enum CollectionFault {
    /// Its documents.
    Documents(DocFault),
    /// Their rows.
    Rows(RowsFault),
    /// Their words.
    Words(BuildFault),
}

impl CollectionFault {
    /// The words of a refusal; None where memory ran out.
    pub(crate) fn reason(self) -> Option<Reason<'static>>
        ensures { option_map reason_text result ≡ option_map refusal_words (collection_refusal_of self) }
    {
        match self {
            CollectionFault::Documents(fault) => fault.reason(),
            CollectionFault::Rows(fault) => fault.reason(),
            CollectionFault::Words(fault) => fault.reason(),
        }
    }
}

impl From<Memory> for CollectionFault {
    ghost from_gives = { λ _ e. e ≡ CollectionFault.Words BuildFault.Memory };

    fn from(_: Memory) -> CollectionFault {
        CollectionFault::Words(BuildFault::Memory)
    }
}

/// A collection that is accepted.
#[derive(Drop)]
pub struct Imaged {
    /// Its image.
    pub image: Image,
    /// How many documents it has.
    pub documents: usize,
    /// How many rows they have.
    pub rows: usize,
}

/// The image of a collection that is accepted.
pub fn image_of_collection(alloc: Global, bytes: &[u8]) -> Result<Imaged, CollectionFault>
    ensures ok { IfOk result (λ i. IsFiled (corpus bytes.now) (weights bytes.now) i.image) }
    ensures accepted { OnOk result (refusal bytes.now ≡ None) }
    ensures file { IfOk result (λ i. HasFile i.image) }
    ensures sizes { IfOk result (λ i. HasSizes (corpus bytes.now) i.documents i.rows) }

    // Each fault but want of memory is the first refusal.
    ensures err { IfErr result (λ e. IsCollectionCause bytes.now e) }
{
    let LentCollected { docs, weights } = lent_docs(alloc, bytes).map_err(
        CollectionFault::Documents,
    )?;
    let rows = RowColumns::of_docs(alloc, &docs, weights).map_err(CollectionFault::Rows)?;
    let titles = titles_of(alloc, &docs)?;
    let document_count = docs.len();
    let row_count = rows.len();
    let image = image_of_columns(alloc, rows, titles, TARGET, weights).map_err(
        CollectionFault::Words,
    )?;
    Ok(Imaged {
        image,
        documents: document_count,
        rows: row_count,
    })
}

/// Want of memory, which a fault is that names no refusal.
pub fn want_of(fault: CollectionFault) -> Memory
    requires { collection_refusal_of fault ≡ None }
{
    match fault.reason() {
        None => Memory,
        Some(_) => unreachable!(),
    }
}

// The titles of documents, each in memory of its own.
fn titles_of(alloc: Global, docs: &[LentDoc<'_>]) -> Result<Seq<Text>, Memory>
    ensures ok { IfOk result (λ titles. titles ≡ map title_of (map doc_of_lent docs.now)) }
{
    let mut titles = Vec::with_capacity(alloc, docs.len())?;
    for doc in docs {
        titles.push(Text::from_str(alloc, doc.title)?)?;
    }
    Ok(Seq::from_vec(titles))
}
