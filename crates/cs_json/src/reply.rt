//! The text of a reply.
ghost use Rattle.std.specs.Prelude.{◌≡◌, ◌++◌, ◌∷◌, [], IfOk, OnOk, decimal, length, map};
ghost use Rattle.json.specs.Token.{key, number, string};
ghost use Rattle.serde_json.specs.Data.{Data, array, object};
ghost use Rattle.serde_json.specs.View.{items_of};
ghost use Rattle.cs_model.specs.Replies.{shown_data, hit_data, facet_members, reply_text, total_data};
ghost use Rattle.cs_model_excerpts.specs.ExcerptReplies.{excerpted_data, excerpted_hits, excerpted_text};
ghost use Rattle.cs_json.specs.ReplyTokens.{data_tokens, before_hits, after_hits};

use crate::facets::by_name;
use cs_base::{Memory, Seq, Text};
use cs_query::{FacetShown, HitShown, Reply, Shown};
use json::Writer;
use std::alloc::{AllocError, Global};

// The bytes that a text has room for at first; it grows where it is longer.
const TEXT_ROOM: usize = 1 << 11;

/// The reply as compact JSON, keys in byte order.
pub fn reply_bytes(alloc: Global, r: &Reply) -> Result<Vec<u8>, Memory>
    ensures ok { IfOk result (λ v. v.items ≡ reply_text r.now) }
{
    let mut out = Writer::new(Vec::with_capacity(alloc, TEXT_ROOM)?);
    put_before_hits(alloc, &mut out, r)?;
    put_list(&mut out, r.hits.as_slice())?;
    put_after_hits(&mut out, r)?;
    Ok(out.into_inner())
}

/// The reply as compact JSON, keys in byte order, each hit with the excerpt at its place.
pub fn excerpt_bytes(alloc: Global, r: &Reply, e: &Seq<Text>) -> Result<Vec<u8>, Memory>
    requires each { length e.now ≡ length r.now.hits }

    ensures ok { IfOk result (λ v. v.items ≡ excerpted_text r.now e.now) }
{
    let mut out = Writer::new(Vec::with_capacity(alloc, TEXT_ROOM)?);
    put_before_hits(alloc, &mut out, r)?;
    put_excerpted(&mut out, r.hits.as_slice(), e.as_slice())?;
    put_after_hits(&mut out, r)?;
    Ok(out.into_inner())
}

// The completions and the facets, up to the key of the hits.
fn put_before_hits(alloc: Global, out: &mut Writer, reply: &Reply) -> Result<(), AllocError>
    ensures ok { OnOk result (out.new.tokens ≡ out.old.tokens ++ before_hits reply.now) }
    ensures before { out.new.before ≡ out.old.before }
{
    out.begin_object()?;
    out.key("completions")?;
    put_list(out, reply.completions.as_slice())?;
    out.key("facets")?;
    put_facets(alloc, out, reply.facets.as_slice())?;
    out.key("hits")
}

// What follows the hits: the totals, and the end of the object.
fn put_after_hits(out: &mut Writer, reply: &Reply) -> Result<(), AllocError>
    ensures ok { OnOk result (out.new.tokens ≡ out.old.tokens ++ after_hits reply.now) }
    ensures before { out.new.before ≡ out.old.before }
{
    out.key("total")?;
    put_totals(out, reply.total_completions, reply.total_hits)?;
    out.end_object()
}

fn put_totals(out: &mut Writer, completions: u32, hits: u32) -> Result<(), AllocError>
    ensures ok { OnOk result (out.new.tokens ≡ out.old.tokens ++ data_tokens (total_data completions hits)) }
    ensures before { out.new.before ≡ out.old.before }
{
    out.begin_object()?;
    put_number(out, "completions", completions)?;
    put_number(out, "hits", hits)?;
    out.end_object()
}

// What a reply lists.
trait Listed {
    ghost json: { Self → Data };

    fn put(&self, out: &mut Writer) -> Result<(), AllocError>
        ensures ok { OnOk result (out.new.tokens ≡ out.old.tokens ++ data_tokens (json self.now)) }
        ensures before { out.new.before ≡ out.old.before };
}

impl Listed for Shown {
    ghost json = { shown_data };

    fn put(&self, out: &mut Writer) -> Result<(), AllocError> {
        out.begin_object()?;
        put_number(out, "docs", self.docs)?;
        put_text(out, "word", &self.word)?;
        out.end_object()
    }
}

impl Listed for HitShown {
    ghost json = { hit_data };

    fn put(&self, out: &mut Writer) -> Result<(), AllocError> {
        out.begin_object()?;
        put_number(out, "doc", self.doc)?;
        put_number(out, "score", self.score)?;
        put_text(out, "title", &self.title)?;
        out.end_object()
    }
}

fn put_list<T: Listed>(out: &mut Writer, items: &[T]) -> Result<(), AllocError>
    ensures ok { OnOk result (out.new.tokens ≡ out.old.tokens ++ data_tokens (array (items_of (map T.json items.now)))) }
    ensures before { out.new.before ≡ out.old.before }
{
    out.begin_array()?;
    for item in items {
        item.put(out)?;
    }
    out.end_array()
}

fn put_facets(alloc: Global, out: &mut Writer, facets: &[FacetShown]) -> Result<(), AllocError>
    ensures ok { OnOk result (out.new.tokens ≡ out.old.tokens ++ data_tokens (object (facet_members facets.now))) }
    ensures before { out.new.before ≡ out.old.before }
{
    let ordered = by_name(alloc, facets)?;
    out.begin_object()?;
    for facet in &ordered {
        out.key(facet.name.as_str())?;
        put_list(out, facet.table.as_slice())?;
    }
    out.end_object()
}

fn put_excerpted(out: &mut Writer, hits: &[HitShown], excerpts: &[Text]) -> Result<(), AllocError>
    ensures ok { OnOk result (out.new.tokens ≡ out.old.tokens ++ data_tokens (excerpted_hits hits.now excerpts.now)) }
    ensures before { out.new.before ≡ out.old.before }
{
    out.begin_array()?;
    for (hit, excerpt) in hits.iter().zip(excerpts) {
        put_with_excerpt(out, hit, excerpt)?;
    }
    out.end_array()
}

fn put_with_excerpt(out: &mut Writer, hit: &HitShown, excerpt: &Text) -> Result<(), AllocError>
    ensures ok { OnOk result (out.new.tokens ≡ out.old.tokens ++ data_tokens (excerpted_data (hit.now, excerpt.now))) }
    ensures before { out.new.before ≡ out.old.before }
{
    out.begin_object()?;
    put_number(out, "doc", hit.doc)?;
    put_text(out, "excerpt", excerpt)?;
    put_number(out, "score", hit.score)?;
    put_text(out, "title", &hit.title)?;
    out.end_object()
}

fn put_number(out: &mut Writer, name: &str, n: u32) -> Result<(), AllocError>
    ensures ok { OnOk result (out.new.tokens ≡ out.old.tokens ++ key name.now ∷ number (decimal n) ∷ []) }
    ensures before { out.new.before ≡ out.old.before }
{
    out.key(name)?;
    out.u64(u64::from(n))
}

fn put_text(out: &mut Writer, name: &str, text: &Text) -> Result<(), AllocError>
    ensures ok { OnOk result (out.new.tokens ≡ out.old.tokens ++ key name.now ∷ string text.now ∷ []) }
    ensures before { out.new.before ≡ out.old.before }
{
    out.key(name)?;
    out.string(text.as_str())
}
