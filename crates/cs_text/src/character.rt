//! Characters: which of them words are made of.
ghost use Rattle.std.specs.Prelude.{◌≡◌};
ghost use Rattle.cs_model.specs.Words.{is_word_char, is_word_category, is_gap};

use unicode::properties::{GeneralCategory, GeneralCategoryGroup};

/// Whether a character is part of a word: below U+0080 an ASCII letter or digit, above it a letter,
/// a mark or a number by its General_Category (Unicode Standard Annex 44).
pub fn is_word_char(c: char) -> bool
    ensures { result ≡ is_word_char c }
{
    if c < '\u{80}' {
        c.is_ascii_alphanumeric()
    } else {
        is_word_category(GeneralCategory::for_char(c))
    }
}

/// Whether a character stands between words.
#[inline]
pub(crate) fn is_gap(c: char) -> bool
    ensures { result ≡ is_gap c }
{
    !is_word_char(c)
}

fn is_word_category(category: GeneralCategory) -> bool
    ensures { result ≡ is_word_category category }
{
    GeneralCategoryGroup::Letter.contains(category)
        || GeneralCategoryGroup::Mark.contains(category)
        || GeneralCategoryGroup::Number.contains(category)
}
