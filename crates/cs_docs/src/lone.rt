//! A facets column of one piece that is its facet word's name and value as it stands.
ghost use Rattle.std.specs.Prelude.{◌≡◌, ◌≤◌, ◌∷◌, [], IfSome, is_some, length};
ghost use Rattle.cs_model.specs.Collection.{named};
ghost use Rattle.cs_docs.specs.FacetPieces.{is_lone};
ghost use Rattle.cs_docs.specs.Listing.{listed_facets};

use crate::cut::cut_at;
use cs_base::{MAX_NAME_BYTES, MAX_PLAIN_WORD_BYTES};
use cs_text::{has_name_form, is_small_word};

/// The name and the value of a column that is a name, an `=` and one small word, lent from it; its facet word has both as they stand.
pub fn lone_facet(column: &str) -> Option<(&str, &str)>
    ensures lone { is_some result ≡ is_lone column.now }
    ensures some { IfSome result (λ p. listed_facets column.now ≡ named p.0.now p.1.now ∷ []) }
    ensures name { IfSome result (λ p. length p.0.now ≤ MAX_NAME_BYTES) }
    ensures value { IfSome result (λ p. length p.1.now ≤ MAX_PLAIN_WORD_BYTES) }
{
    let Some((name, value)) = cut_at(column, b'=') else {
        return None;
    };
    if has_name_form(name.as_bytes()) && is_small_word(value.as_bytes()) {
        return Some((name, value));
    }
    None
}
