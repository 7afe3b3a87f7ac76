//! The facet words of a column.
ghost use Rattle.std.specs.Prelude.{◌≡◌, ◌≤◌, ◌∷◌, ◌++◌, [], IfOk, OnOk, length, filter, true};
ghost use Rattle.std.specs.List.{All, filter_map};
ghost use Rattle.std.specs.Str.{IsUtf8};
ghost use Rattle.cs_model.specs.Collection.{facet_pieces, facet_words, facet_word, has_name_form, named};
ghost use Rattle.cs_model.specs.KeyText.{norm};
ghost use Rattle.cs_model.specs.Words.{is_filled};
ghost use Rattle.cs_docs.specs.FacetPieces.{AreNamed};
ghost use Rattle.cs_docs.specs.Listing.{listed_facets};

use crate::pieces::{cut_at_equals, cut_piece};
use cs_base::{MAX_NAME_BYTES, MAX_PLAIN_WORD_BYTES, Memory, Word};
use cs_text::{has_name_form, named_word, norm, slug};
use std::alloc::Global;

/// The facet words of a column whose pieces are named, each once, by bytes.
pub fn listed_facets(alloc: Global, column: &str) -> Result<Vec<Word>, Memory>
    requires { AreNamed (facet_pieces column.now) }

    ensures ok { IfOk result (λ v. v.items ≡ listed_facets column.now) }
    ensures utf8 { IfOk result (λ v. All IsUtf8 v.items) }
{
    let mut found = facet_words(alloc, column)?;
    if found.len() <= 1 {
        return Ok(found);
    }
    found.sort()?;
    found.dedup();
    Ok(found)
}

// The facet words of a column, in the order of its pieces. A piece whose value has no word has none.
fn facet_words(alloc: Global, column: &str) -> Result<Vec<Word>, Memory>
    requires { AreNamed (facet_pieces column.now) }

    ensures ok { IfOk result (λ v. v.items ≡ facet_words column.now) }
    ensures utf8 { IfOk result (λ v. All IsUtf8 v.items) }
{
    let mut found = Vec::new(alloc);
    let mut rest = column;
    while !rest.is_empty() {
        let (piece, after) = cut_piece(rest);
        push_facet(alloc, &mut found, piece)?;
        rest = after;
    }
    Ok(found)
}

// Adds the facet word of a piece; an empty one is none.
fn push_facet(alloc: Global, found: &mut Vec<Word>, piece: &str) -> Result<(), Memory>
    requires { AreNamed (filter is_filled (piece.now ∷ [])) }

    ensures ok { OnOk result (found.new.items ≡ found.old.items ++ filter_map facet_word (filter is_filled (piece.now ∷ []))) }
    ensures utf8 { OnOk result (All IsUtf8 found.old.items → All IsUtf8 found.new.items) }
{
    let Some((name, value)) = cut_at_equals(piece) else {
        return Ok(());
    };
    let Some(slug) = slug(alloc, value)? else {
        return Ok(());
    };
    let word = keyed_word(alloc, name, slug.as_str())?;
    found.push(word)?;
    Ok(())
}

// The word `:key:slug`, where the key is the key text of the name.
fn keyed_word(alloc: Global, name: &str, slug: &str) -> Result<Word, Memory>
    requires name { has_name_form (norm name.now) ≡ true }
    requires slug { length slug.now ≤ MAX_PLAIN_WORD_BYTES }

    ensures ok { IfOk result (λ w. w ≡ named (norm name.now) slug.now) }
    ensures utf8 { IfOk result IsUtf8 }
{
    if has_name_form(name.as_bytes()) {
        return word_of(alloc, name, slug);
    }
    let key = norm(alloc, name)?;
    word_of(alloc, key.as_str(), slug)
}

// The word `:name:slug`.
fn word_of(alloc: Global, name: &str, slug: &str) -> Result<Word, Memory>
    requires name { length name.now ≤ MAX_NAME_BYTES }
    requires slug { length slug.now ≤ MAX_PLAIN_WORD_BYTES }

    ensures ok { IfOk result (λ w. w ≡ named name.now slug.now) }
    ensures utf8 { IfOk result IsUtf8 }
{
    let text = named_word(alloc, name, slug)?;
    let word = Word::new(alloc, text.as_str().as_bytes())?;
    Ok(word)
}
