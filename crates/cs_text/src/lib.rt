//! Unicode text: the key text that texts are compared by, its words, the slug of a facet's value, and numbers by their digits.
//!
//! Callers see texts and words as bytes of UTF-8. What the calls mean stands in `specs/KeyText.antt`
//! and `specs/Words.antt` of `cs_model`. Tables of Unicode are those of `unicode_normalization`,
//! `caseless` and `unicode`; ASCII text needs none of them.
#![tactic(auto)]

mod ascii;
mod character;
mod facet_word;
mod key_text;
mod listing;
mod name;
mod number;
mod piece;
mod value;

pub use ascii::first_word;
pub use character::is_word_char;
pub use facet_word::named_word;
pub use key_text::{is_plain_key, norm};
pub use listing::words;
pub use name::has_name_form;
pub use number::{has_digits, number_of};
pub use value::{is_small_word, slug};
