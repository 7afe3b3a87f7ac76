//! How the hits of replies are shown: with their titles alone, or with excerpts of their documents too.
ghost use Rattle.std.specs.Prelude.{◌≡◌, None, Some, IfOk, map};
ghost use Rattle.cs_docs.specs.LinesRead.{doc_of_lent};
ghost use Rattle.cs_model.specs.{Collection.{documents}, Corpus.{refusal}};
ghost use Rattle.cs_top.specs.HitForms.{HaveFewWords, hit_excerpts, own_excerpt_at, shown_reply};

use cs_base::{Memory, Query, Seq, Text};
use cs_docs::{LentDoc, lent_docs};
use cs_indexing::{CollectionFault, want_of};
use cs_json::{excerpt_bytes, reply_bytes};
use cs_more::lent_excerpt;
use cs_query::{HitShown, Reply};
use std::alloc::Global;
use std::marker::Model;

/// What hits are shown from.
#[derive(Drop)]
pub(crate) struct Showing<'a> {
    /// Where what is shown finds memory.
    pub alloc: Global,
    /// The documents by number; None where hits are titled.
    documents: Option<&'a [LentDoc<'a>]>,
}

impl<'a> Model for Showing<'a> {
    ghost use Rattle.std.specs.Prelude.{map};
    ghost use Rattle.std.specs.Option.{option_map};
    ghost use Rattle.cs_docs.specs.LinesRead.{doc_of_lent};
    ghost use Rattle.cs_top.specs.HitForms.{AtHand, HaveFewWords};

    ghost Value = { AtHand };

    ghost view = { λ s. option_map (λ docs. map doc_of_lent docs.now) s.documents };

    ghost invariant = { λ s. HaveFewWords (option_map (λ docs. map doc_of_lent docs.now) s.documents) };
}

impl<'a> Showing<'a> {
    /// With titles alone.
    pub(crate) fn titled(alloc: Global) -> Showing<'a>
        ensures { result ≡ None }
    {
        Showing {
            alloc,
            documents: None,
        }
    }

    /// With excerpts of documents.
    pub(crate) fn excerpted(alloc: Global, documents: &'a [LentDoc<'a>]) -> Showing<'a>
        requires few { HaveFewWords (Some (map doc_of_lent documents.now)) }

        ensures { result ≡ Some (map doc_of_lent documents.now) }
    {
        Showing {
            alloc,
            documents: Some(documents),
        }
    }

    /// The text of the reply to a query.
    pub(crate) fn reply_bytes(&self, query: &Query, reply: &Reply) -> Result<Vec<u8>, Memory>
        ensures ok { IfOk result (λ b. b.items ≡ shown_reply self.now query.now reply.now) }
    {
        match self.documents {
            None => reply_bytes(self.alloc, reply),
            Some(docs) => excerpted_bytes(self.alloc, docs, query, reply),
        }
    }
}

/// The documents of a collection that is accepted, lent from its bytes: nothing but want of memory keeps them from being read.
pub(crate) fn documents_of(alloc: Global, bytes: &[u8]) -> Result<Vec<LentDoc<'_>>, Memory>
    requires accepted { refusal bytes.now ≡ None }

    ensures ok { IfOk result (λ docs. map doc_of_lent docs.items ≡ documents bytes.now) }
    ensures few { IfOk result (λ docs. HaveFewWords (Some (map doc_of_lent docs.items))) }
{
    match lent_docs(alloc, bytes) {
        Ok(collected) => Ok(collected.docs),
        Err(fault) => Err(want_of(CollectionFault::Documents(fault))),
    }
}

// The text of the reply to a query, each hit with the excerpt of its document.
fn excerpted_bytes(
    alloc: Global,
    docs: &[LentDoc<'_>],
    query: &Query,
    reply: &Reply,
) -> Result<Vec<u8>, Memory>
    requires few { HaveFewWords (Some (map doc_of_lent docs.now)) }

    ensures ok { IfOk result (λ b. b.items ≡ shown_reply (Some (map doc_of_lent docs.now)) query.now reply.now) }
{
    let excerpts = excerpts_of(alloc, docs, query, reply.hits.as_slice())?;
    let bytes = excerpt_bytes(alloc, reply, &excerpts)?;
    Ok(bytes)
}

// The excerpts of hits.
fn excerpts_of(
    alloc: Global,
    docs: &[LentDoc<'_>],
    query: &Query,
    hits: &[HitShown],
) -> Result<Seq<Text>, Memory>
    requires few { HaveFewWords (Some (map doc_of_lent docs.now)) }

    ensures ok { IfOk result (λ xs. xs ≡ hit_excerpts (own_excerpt_at (map doc_of_lent docs.now)) query.now hits.now) }
{
    let mut excerpts = Vec::with_capacity(alloc, hits.len())?;
    for hit in hits {
        excerpts.push(excerpt_at(alloc, docs, query, hit.doc)?)?;
    }
    Ok(Seq::from_vec(excerpts))
}

// The excerpt of the document with this number; the empty text where there is none.
fn excerpt_at(
    alloc: Global,
    docs: &[LentDoc<'_>],
    query: &Query,
    number: u32,
) -> Result<Text, Memory>
    requires few { HaveFewWords (Some (map doc_of_lent docs.now)) }

    ensures ok { IfOk result (λ t. t ≡ own_excerpt_at (map doc_of_lent docs.now) query.now number) }
{
    match docs.get(number as usize) {
        Some(doc) => {
            let excerpt = lent_excerpt(alloc, doc, query)?;
            Ok(excerpt)
        }
        None => Ok(Text::new(alloc)),
    }
}
