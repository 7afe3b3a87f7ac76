//! The numbers of the words that an atom or a facet asks for.
ghost use Rattle.std.specs.Prelude.{◌≡◌, ◌+◌, ◌≤◌, [], false, IfOk};
ghost use Rattle.std.specs.{List.{list_any}, Str.{bytes_eq}};
ghost use Rattle.cs_file.specs.Indexes.{IsIndex};
ghost use Rattle.cs_model.specs.Collection.{named};
ghost use Rattle.cs_vocab.specs.Ranges.{IsRange};
ghost use Rattle.cs_rows.specs.IndexReading.{IsRangeOf};

use crate::source::Source;
use cs_base::{Memory, Text};
use cs_file::Index;
use cs_text::named_word;
use std::alloc::Global;

/// The facet words of a name: from the first number up to the second, which is left out.
pub fn range_of_facet<I: Source>(
    alloc: Global,
    index: &I,
    name: &Text,
) -> Result<(u32, u32), Memory>
    ensures { IfOk result (λ w. IsRange (I.view index.now).words (named name.now []) w.0 w.1) }
{
    let prefix = named_word(alloc, name.as_str(), "")?;
    Ok(index.range(prefix.as_str().as_bytes()))
}

/// The number of a word and the next one, or an empty range.
pub(crate) fn range_of_word(index: &Index, word: &[u8]) -> (u32, u32)
    requires index { IsIndex index.now }

    ensures range { IsRangeOf index.now.words (λ v. bytes_eq v word.now) result.0 result.1 }
    ensures short { result.1 ≤ result.0 + 1 }
    ensures none { list_any (bytes_eq word.now) index.now.words ≡ false → result.0 ≡ result.1 }
{
    match index.words.find(word) {
        Some(n) => (n, n + 1),
        None => (0, 0),
    }
}
