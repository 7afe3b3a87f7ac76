//! The canonical text of a query.
ghost use Rattle.std.specs.Prelude.{◌≡◌, [], ◌++◌, IfOk, OnOk, codes, if◌then◌else◌};
ghost use Rattle.cs_model.specs.Canonical.{canonical, canonical_atom, canonical_chain, canonical_part, canonical_parts, link_text, word_text};
ghost use Rattle.cs_query.specs.Printing.{separator};

use cs_base::{Atom, Chain, Link, Memory, Part, Query, Text};
use std::alloc::Global;

/// The canonical text of a query. Different queries that `parse` gives have different ones, and each, read as
/// a key text, has its query again. Its form is described in `docs/QUERY.md`.
pub fn print(alloc: Global, query: &Query) -> Result<Text, Memory>
    ensures ok { IfOk result (λ t. t ≡ canonical query.now) }
{
    let mut out = Text::new(alloc);
    put_parts(&mut out, query.parts.as_slice())?;
    Ok(out)
}

/// Puts the parts of a query, or some of them.
#[cycle(print)]
pub fn put_parts(out: &mut Text, parts: &[Part]) -> Result<(), Memory>
    ensures { OnOk result (out.new ≡ out.old ++ canonical_parts parts.now) }
{
    for (i, part) in parts.iter().enumerate() {
        separate(out, i, ' ')?;
        put_part(out, part)?;
    }
    Ok(())
}

#[cycle(print)]
fn put_part(out: &mut Text, part: &Part) -> Result<(), Memory>
    ensures { OnOk result (out.new ≡ out.old ++ canonical_part part.now) }
{
    put_minus(out, part.excluded)?;
    for (i, chain) in part.chains.as_slice().iter().enumerate() {
        separate(out, i, '|')?;
        put_chain(out, chain)?;
    }
    Ok(())
}

#[cycle(print)]
fn put_chain(out: &mut Text, chain: &Chain) -> Result<(), Memory>
    ensures { OnOk result (out.new ≡ out.old ++ canonical_chain chain.now) }
{
    put_atom(out, &chain.first)?;
    for linked in chain.rest.as_slice() {
        put_link(out, linked.link)?;
        put_atom(out, &linked.atom)?;
    }
    Ok(())
}

#[cycle(print)]
fn put_atom(out: &mut Text, atom: &Atom) -> Result<(), Memory>
    ensures { OnOk result (out.new ≡ out.old ++ canonical_atom atom.now) }
{
    match atom {
        Atom::Prefix(word) => out.push_str(word_text(word.as_str()))?,
        Atom::Exact(word) => {
            out.push_str(word_text(word.as_str()))?;
            out.push('$')?;
        }
        Atom::Join { name, inner } => {
            out.push_str(name.as_str())?;
            out.push('[')?;
            put_parts(out, inner.parts.as_slice())?;
            out.push(']')?;
        }
    }
    Ok(())
}

fn put_link(out: &mut Text, link: Link) -> Result<(), Memory>
    ensures { OnOk result (out.new ≡ out.old ++ link_text link) }
{
    match link {
        Link::Phrase => out.push_str(".")?,
        Link::Near => out.push_str("..")?,
    }
    Ok(())
}

fn put_minus(out: &mut Text, excluded: bool) -> Result<(), Memory>
    ensures { OnOk result (out.new ≡ out.old ++ (if excluded then codes "-" else [])) }
{
    if excluded {
        out.push('-')?;
    }
    Ok(())
}

/// Puts a sign in front of each entry but the first.
fn separate(out: &mut Text, index: usize, sign: char) -> Result<(), Memory>
    ensures { OnOk result (out.new ≡ out.old ++ separator sign index) }
{
    if index > 0 {
        out.push(sign)?;
    }
    Ok(())
}

/// A word in a query: that of a facet without its leading colon.
fn word_text(word: &str) -> &str
    ensures { result.now ≡ word_text word.now }
{
    match word.strip_prefix(':') {
        Some(rest) => rest,
        None => word,
    }
}
