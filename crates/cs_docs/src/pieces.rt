//! The pieces of a facets column.
ghost use Rattle.std.specs.Prelude.{◌≡◌, ◌∷◌, [], ◌<◌, None, IfOk, OnOk, IfErr, MatchOption, true, false, length, drop, map, filter};
ghost use Rattle.std.specs.List.{prefix_len, before_first, after_first, list_any};
ghost use Rattle.cs_model.specs.Collection.{piece_refusal, facet_pieces, is_space, is_equals, piece_value, has_name_form, without_spaces_behind};
ghost use Rattle.cs_model.specs.KeyText.{norm};
ghost use Rattle.cs_model.specs.Words.{is_filled};
ghost use Rattle.cs_model.specs.First.{first_reason};
ghost use Rattle.cs_docs.specs.FacetPieces.{is_semicolon, one_piece};
ghost use Rattle.cs_docs.specs.FaultRefusals.{IsCauseOf};

use crate::cut::cut_at;
use crate::fault::DocFault;
use crate::lone::lone_facet;
use cs_base::Memory;
use cs_text::{has_name_form, norm};
use std::alloc::Global;

/// Refuses the first bad piece of a facets column.
pub(crate) fn check_facets(alloc: Global, column: &str, line: u32) -> Result<(), DocFault>
    ensures ok { OnOk result (first_reason (map (piece_refusal line) (facet_pieces column.now)) ≡ None) }
    ensures err { IfErr result (λ e. IsCauseOf (first_reason (map (piece_refusal line) (facet_pieces column.now))) e) }
{
    if lone_facet(column).is_some() {
        return Ok(());
    }
    let mut rest = column;
    while !rest.is_empty() {
        let (piece, after) = cut_piece(rest);
        check_piece(alloc, piece, line)?;
        rest = after;
    }
    Ok(())
}

// Refuses a bad piece; an empty one is none.
fn check_piece(alloc: Global, piece: &str, line: u32) -> Result<(), DocFault>
    ensures ok { OnOk result (first_reason (map (piece_refusal line) (filter is_filled (piece.now ∷ []))) ≡ None) }
    ensures err { IfErr result (λ e. IsCauseOf (first_reason (map (piece_refusal line) (filter is_filled (piece.now ∷ [])))) e) }
{
    if piece.is_empty() {
        return Ok(());
    }
    let Some((name, _)) = cut_at_equals(piece) else {
        return Err(DocFault::BadFacet { line });
    };
    if !is_name(alloc, name)? {
        return Err(DocFault::BadName { line });
    }
    Ok(())
}

// Whether the key text of a name has a name's form.
fn is_name(alloc: Global, name: &str) -> Result<bool, Memory>
    ensures ok { IfOk result (λ b. b ≡ has_name_form (norm name.now)) }
{
    if has_name_form(name.as_bytes()) {
        return Ok(true);
    }
    let key = norm(alloc, name)?;
    Ok(has_name_form(key.as_str().as_bytes()))
}

/// What stands before the first semicolon, without spaces at both ends, and what stands behind it.
pub(crate) fn cut_piece(column: &str) -> (&str, &str)
    requires { 0 < length column.now }

    ensures pieces { facet_pieces column.now ≡ one_piece result.0.now result.1.now }
    ensures shorter { length result.1.now < length column.now }
{
    let (piece, after) = cut_at_semicolon(column);
    (without_spaces_behind(without_spaces_before(piece)), after)
}

// What stands before the first semicolon, and what stands behind it; all and nothing where there is none.
fn cut_at_semicolon(column: &str) -> (&str, &str)
    ensures before { result.0.now ≡ before_first is_semicolon column.now }
    ensures after { result.1.now ≡ after_first is_semicolon column.now }
    ensures shorter { 0 < length column.now → length result.1.now < length column.now }
{
    cut_at(column, b';').unwrap_or((column, ""))
}

/// What stands before the first `=` of a piece, without spaces at its end, and what stands behind it,
/// if there is one.
pub(crate) fn cut_at_equals(piece: &str) -> Option<(&str, &str)>
    ensures { MatchOption result (list_any is_equals piece.now ≡ false) (λ p. (list_any is_equals piece.now ≡ true) × (p.0.now ≡ without_spaces_behind (before_first is_equals piece.now)) × (p.1.now ≡ piece_value piece.now)) }
{
    let Some((name, value)) = cut_at(piece, b'=') else {
        return None;
    };
    Some((without_spaces_behind(name), value))
}

// The text without the spaces at its front.
fn without_spaces_before(text: &str) -> &str
    ensures { result.now ≡ drop (prefix_len is_space text.now) text.now }
{
    let mut rest = text;
    while let Some(after) = rest.strip_prefix(' ') {
        rest = after;
    }
    rest
}

/// The text without the spaces at its end.
pub(crate) fn without_spaces_behind(text: &str) -> &str
    ensures { result.now ≡ without_spaces_behind text.now }
{
    let mut rest = text;
    while let Some(before) = rest.strip_suffix(' ') {
        rest = before;
    }
    rest
}
