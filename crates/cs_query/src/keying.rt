//! The keys under which a query's answer is looked for.
ghost use Rattle.std.specs.Prelude.{◌≡◌, ◌≤◌, ◌==◌, ◌||◌, length, map, IfOk, Some};
ghost use Rattle.std.specs.Option.{option_map};
ghost use Rattle.cs_base.specs.declared.content.limits.TheConstants.{MAX_QUERY_BYTES};
ghost use Rattle.cs_base.specs.declared.content.query.Atom.{out-Atom};
ghost use Rattle.cs_model.specs.Canonical.{canonical};
ghost use Rattle.cs_model.specs.Keys.{keys_of, last_prefix, part_prefix, chain_prefix, prefix_in, narrower, narrowers, shorter_words, key_before};
ghost use Rattle.cs_model.specs.Refusals.{IsOfGrammar};
ghost use Rattle.cs_query.specs.Printing.{Continues};

use crate::printing::{print, put_parts};
use cs_base::{Atom, Chain, Key, Keys, Memory, Narrower, Part, Query, Seq, Text};
use std::alloc::Global;

/// The keys of a query: that of the query itself, those of the query with its last prefix cut, and that of the query
/// without its last part. They are described in `docs/QUERY.md`.
pub fn keys(alloc: Global, query: &Query) -> Result<Keys, Memory>
    requires grammar { IsOfGrammar query.now }

    ensures ok { IfOk result (λ k. k ≡ keys_of query.now) }
{
    let text = print(alloc, query)?;
    let same = Key::new(alloc, &text)?;
    let narrow = narrow(alloc, query, text.as_str())?;
    let extend = extend(alloc, query.parts.as_slice())?;
    Ok(Keys {
        same,
        narrow,
        extend,
    })
}

/// The keys of the query with its last prefix cut, the longest first.
fn narrow(alloc: Global, query: &Query, text: &str) -> Result<Seq<Narrower>, Memory>
    requires text { text.now ≡ canonical query.now }
    requires short { length text.now ≤ MAX_QUERY_BYTES }

    ensures { IfOk result (λ ns. ns ≡ narrowers query.now (last_prefix query.now)) }
{
    match last_prefix(query) {
        None => Ok(Seq::new(alloc)),
        Some(word) => {
            let found = narrow_word(alloc, query, text, word)?;
            Ok(found)
        }
    }
}

fn narrow_word(
    alloc: Global,
    query: &Query,
    text: &str,
    word: &str,
) -> Result<Seq<Narrower>, Memory>
    requires prefix { last_prefix query.now ≡ Some word.now }
    requires text { text.now ≡ canonical query.now }
    requires short { length text.now ≤ MAX_QUERY_BYTES }

    ensures { IfOk result (λ ns. ns ≡ map (narrower query.now) (shorter_words word.now)) }
{
    let mut found = Seq::new(alloc);
    let mut rest = String::from_str(alloc, word)?;
    while let Some(c) = rest.pop() {
        let left = rest.as_str();
        if is_cut_through(c, left) {
            return Ok(found);
        }
        let key = narrower(alloc, query, text, word, left)?;
        found.push(key)?;
    }
    Ok(found)
}

/// Whether a word of which the last character is taken off is no word, or a facet's word without its whole name.
fn is_cut_through(taken: char, left: &str) -> bool
    ensures { result ≡ ((taken == 58) || (length left.now == 0)) }
{
    taken == ':' || left.is_empty()
}

/// The key of the query with `rest` in the place of its last prefix `word`.
fn narrower(
    alloc: Global,
    query: &Query,
    text: &str,
    word: &str,
    rest: &str,
) -> Result<Narrower, Memory>
    requires prefix { last_prefix query.now ≡ Some word.now }
    requires text { text.now ≡ canonical query.now }
    requires short { length text.now ≤ MAX_QUERY_BYTES }
    requires begins { Continues rest.now word.now }
    requires some { 1 ≤ length rest.now }

    ensures { IfOk result (λ n. n ≡ narrower query.now rest.now) }
{
    let end = text.len() - (word.len() - rest.len());
    let text = Text::from_str(alloc, &text[..end])?;
    let key = Key::new(alloc, &text)?;
    Ok(Narrower {
        cut: rest.len() as u32,
        key,
    })
}

/// The key of the query without its last part, where it has at least two.
fn extend(alloc: Global, parts: &[Part]) -> Result<Option<Key>, Memory>
    ensures { IfOk result (λ k. k ≡ key_before parts.now) }
{
    if parts.len() < 2 {
        return Ok(None);
    }
    let mut text = Text::new(alloc);
    put_parts(&mut text, &parts[..parts.len() - 1])?;
    let key = Key::new(alloc, &text)?;
    Ok(Some(key))
}

/// The prefix that is being typed: that at the end of the last part, where the part is positive and has one chain.
pub fn last_prefix(query: &Query) -> Option<&str>
    ensures { option_map (λ w. w.now) result ≡ last_prefix query.now }
{
    match query.parts.as_slice().last() {
        None => None,
        Some(part) => part_prefix(part),
    }
}

fn part_prefix(part: &Part) -> Option<&str>
    ensures { option_map (λ w. w.now) result ≡ part_prefix (Some part.now) }
{
    if part.excluded {
        return None;
    }
    match part.chains.as_slice() {
        [chain] => chain_prefix(chain),
        _ => None,
    }
}

fn chain_prefix(chain: &Chain) -> Option<&str>
    ensures { option_map (λ w. w.now) result ≡ chain_prefix chain.now }
{
    match chain.rest.as_slice().last() {
        None => prefix_of(&chain.first),
        Some(linked) => prefix_of(&linked.atom),
    }
}

fn prefix_of(atom: &Atom) -> Option<&str>
    ensures { option_map (λ w. w.now) result ≡ prefix_in (out-Atom atom.now) }
{
    match atom {
        Atom::Prefix(word) => Some(word.as_str()),
        Atom::Exact(_) | Atom::Join { .. } => None,
    }
}
