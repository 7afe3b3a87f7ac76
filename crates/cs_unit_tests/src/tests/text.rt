//! What no clause says: that the calls succeed where there is memory, and that the definitions mean
//! what Unicode means. Expected values are those of Python's `unicodedata`.
use crate::tests::rows::{lines_are_told, repeated, same};
use cs_base::{Memory, Text};
use cs_text::{norm, slug, words};
use std::alloc::Global;
use std::test::Fail;

// A text, its key text, and behind a bar its words with `_` between each two, which are its slug too.
const TEXTS: &[&str] = &[LATIN, OTHER_SCRIPTS, MARKS_AND_SIGNS];

// The empty text; no word; ASCII; a letter composed, and the same decomposed; sharp s, small and capital; I with a dot
// above; dotless i; ligatures; signs that are letters by their key.
const LATIN: &str = "
 => |
-- => --|
Type Less, find_more: 2006! => type less, find_more: 2006!|type_less_find_more_2006
\u{C9}cole => e\u{301}cole|e\u{301}cole
E\u{301}cole => e\u{301}cole|e\u{301}cole
Stra\u{DF}e \u{1E9E} => strasse ss|strasse_ss
\u{130}stanbul => i\u{307}stanbul|i\u{307}stanbul
\u{131}\u{130}iI => \u{131}i\u{307}ii|\u{131}i\u{307}ii
\u{FB01}ne \u{FB03} => fine ffi|fine_ffi
\u{212A} \u{212B} => k a\u{30A}|k_a\u{30A}
";

// Final sigma; Hangul syllables; digits of other scripts, a letter number, an other number; iota below; ideographs;
// Cyrillic.
const OTHER_SCRIPTS: &str = "
\u{3A3}\u{399}\u{3A3}\u{3A5}\u{3A6}\u{39F}\u{3A3} \u{3C2} => \u{3C3}\u{3B9}\u{3C3}\u{3C5}\u{3C6}\u{3BF}\u{3C3} \u{3C3}|\u{3C3}\u{3B9}\u{3C3}\u{3C5}\u{3C6}\u{3BF}\u{3C3}_\u{3C3}
\u{D55C}\u{AE00} \u{AC01} => \u{1112}\u{1161}\u{11AB}\u{1100}\u{1173}\u{11AF} \u{1100}\u{1161}\u{11A8}|\u{1112}\u{1161}\u{11AB}\u{1100}\u{1173}\u{11AF}_\u{1100}\u{1161}\u{11A8}
\u{663}\u{664} \u{969} \u{2167}\u{2460} => \u{663}\u{664} \u{969} \u{2177}\u{2460}|\u{663}\u{664}_\u{969}_\u{2177}\u{2460}
\u{391}\u{345} => \u{3B1}\u{3B9}|\u{3B1}\u{3B9}
\u{4E2D}\u{6587}\u{3001}\u{65E5}\u{672C} => \u{4E2D}\u{6587}\u{3001}\u{65E5}\u{672C}|\u{4E2D}\u{6587}_\u{65E5}\u{672C}
\u{414}\u{43E}\u{43C} \u{439} => \u{434}\u{43E}\u{43C} \u{438}\u{306}|\u{434}\u{43E}\u{43C}_\u{438}\u{306}
";

// A mark in front; a mark alone; a sign that decomposes to a mark; punctuation and a format character.
const MARKS_AND_SIGNS: &str = "
\u{301}abc => \u{301}abc|\u{301}abc
a \u{301} b => a \u{301} b|a_\u{301}_b
a\u{2260}b => a=\u{338}b|a_\u{338}b
a\u{B7}b c\u{AD}d => a\u{B7}b c\u{AD}d|a_b_c_d
";

// So many letters and what follows them, and the words and the slug as `told_cut` writes them: each word and the slug are
// cut at a whole character.
const LONG: &[(usize, &str, &str)] = &[
    (121, "", "120 a|120 a"),
    (119, "\u{301}", "119 a|119 a"),
    (118, "\u{301}", "118 a\u{301}|118 a\u{301}"),
    (118, "\u{10330}b", "118 a|118 a"),
    (117, "\u{10330}b", "117 a|117 a"),
    (116, "\u{10330}b", "116 a\u{10330}|116 a\u{10330}"),
    (119, " b", "119 a_b|119 a_"),
    (120, " b", "120 a_b|120 a"),
    (118, " \u{301}", "118 a_\u{301}|118 a_"),
    (117, " \u{301}", "117 a_\u{301}|117 a_\u{301}"),
];

#[test]
fn words_and_slugs_are_as_in_other_tables(rt: HostRuntime) -> Result<(), Fail> {
    lines_are_told(&rt, rt.alloc(), TEXTS, told)
}

#[test]
fn a_long_word_and_a_long_slug_are_cut(rt: HostRuntime) -> Result<(), Fail> {
    for (count, behind, want) in LONG {
        let found = told_cut(rt.alloc(), *count, behind)?;
        same(&rt, &found.as_str(), want, (*count, *behind));
    }
    Ok(())
}

// The slug is written only where it isn't what the words give.
fn told(alloc: Global, text: &str) -> Result<Text, Memory> {
    let mut told = norm(alloc, text)?;
    told.push('|')?;
    let joined = joined(alloc, text)?;
    told.push_str(joined.as_str())?;
    if !has_slug(alloc, text, joined.as_str())? {
        told.push_str(", another slug")?;
    }
    Ok(told)
}

// Whether that is the slug of a text; the empty one stands for none.
fn has_slug(alloc: Global, text: &str, joined: &str) -> Result<bool, Memory> {
    match slug(alloc, text)? {
        Some(slug) => Ok(!joined.is_empty() && slug.as_str() == joined),
        None => Ok(joined.is_empty()),
    }
}

// The words of a text with `_` between each two.
fn joined(alloc: Global, text: &str) -> Result<Text, Memory> {
    let mut joined = Text::new(alloc);
    for word in words(alloc, text)?.as_slice() {
        if joined.len() > 0 {
            joined.push('_')?;
        }
        joined.push_str(str::from_utf8(word.bytes()).unwrap_or("no text"))?;
    }
    Ok(joined)
}

// The words of so many letters and what follows them, and behind a bar their slug: of each, how often `a` stands in front,
// and the rest.
fn told_cut(alloc: Global, count: usize, behind: &str) -> Result<Text, Memory> {
    let text = repeated(alloc, "", "a", count, behind)?;
    let words = joined(alloc, text.as_str())?;
    let mut told = counted(alloc, words.as_str())?;
    told.push('|')?;
    if let Some(slug) = slug(alloc, text.as_str())? {
        told.push_str(counted(alloc, slug.as_str())?.as_str())?;
    }
    Ok(told)
}

fn counted(alloc: Global, text: &str) -> Result<Text, Memory> {
    let rest = text.trim_start_matches('a');
    let count = text.len().saturating_sub(rest.len());
    Ok(Text::from_string(format!(in alloc; "{count} a{rest}")?))
}
