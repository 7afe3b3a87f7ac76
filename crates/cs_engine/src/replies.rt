//! Words as they are shown.
ghost use Rattle.std.specs.Prelude.{◌≡◌, ◌<◌, IfOk, length, map};
ghost use Rattle.std.specs.{List.{All}, Str.{IsUtf8}};
ghost use Rattle.cs_model.specs.Replies.{shown_word};
ghost use Rattle.cs_rows.specs.Skipping.{bare_facet};
ghost use Rattle.cs_rows.specs.Stocked.{shown_at};

use cs_base::{Memory, Seq, Text};
use cs_query::{FacetShown, Shown};
use cs_rows::Source;
use cs_tables::Completion;
use std::alloc::Global;

/// The first words of a table, each with how many documents have it.
pub(crate) fn shown_words<I: Source>(
    alloc: Global,
    index: &I,
    first: &[Completion],
) -> Result<Seq<Shown>, Memory>
    requires texts { All IsUtf8 (I.view index.now).words }
    requires known { All (λ c. c.word < length (I.view index.now).words) first.now }

    ensures { IfOk result (λ shown. shown ≡ map (shown_at (I.view index.now).words) first.now) }
{
    let mut shown = Seq::new(alloc);
    for completion in first {
        let word = shown_text(alloc, index.word(completion.word))?;
        shown.push(Shown {
            docs: completion.docs,
            word,
        })?;
    }
    Ok(shown)
}

/// Facets as they are shown where no document has one of them.
pub(crate) fn bare_facets(alloc: Global, names: &[Text]) -> Result<Seq<FacetShown>, Memory>
    ensures { IfOk result (λ shown. shown ≡ map bare_facet names.now) }
{
    let mut shown = Seq::new(alloc);
    for name in names {
        let copied = name.copy(alloc)?;
        shown.push(FacetShown {
            name: copied,
            table: Seq::new(alloc),
        })?;
    }
    Ok(shown)
}

// A word as it is shown: that of a facet without its leading colon.
fn shown_text(alloc: Global, word: &[u8]) -> Result<Text, Memory>
    requires { IsUtf8 word.now }

    ensures { IfOk result (λ t. t ≡ shown_word word.now) }
{
    if word.starts_with(&[b':']) {
        let rest = text_of(alloc, &word[1..])?;
        return Ok(rest);
    }
    let whole = text_of(alloc, word)?;
    Ok(whole)
}

fn text_of(alloc: Global, bytes: &[u8]) -> Result<Text, Memory>
    requires { IsUtf8 bytes.now }

    ensures { IfOk result (λ t. t ≡ bytes.now) }
{
    let Ok(text) = str::from_utf8(bytes) else {
        unreachable!()
    };
    let copied = Text::from_str(alloc, text)?;
    Ok(copied)
}
