//! The texts of what becomes of a line that changes the corpus, each with its line ending.
ghost use Rattle.std.specs.Prelude.{◌≡◌, ◌∷◌, ◌++◌, []};
ghost use Rattle.cs_base.specs.content.Bytes.{line_feed};
ghost use Rattle.cs_model_live.specs.LiveLines.{absent_text, change_text, document_text, full_text};
ghost use Rattle.cs_live_lines.specs.LineViews.{broken, full_seen};

use crate::document::LineRule;

/// What there is no more room for.
#[derive(Clone, Copy, Debug, PartialEq, Eq)]
pub enum Full {
    /// Documents.
    Docs,
    /// Rows.
    Rows,
    /// Distinct words.
    Words,
}

/// The text of a line that names no change.
#[tactic(auto, using(crate::proofs::OutcomeLines::change_line))]
pub fn change_line() -> &'static [u8]
    ensures { result.now ≡ change_text ++ line_feed ∷ [] }
{
    b"{\"error\":\"change\"}\n"
}

/// The text where no document has the number.
#[tactic(auto, using(crate::proofs::OutcomeLines::absent_line))]
pub fn absent_line() -> &'static [u8]
    ensures { result.now ≡ absent_text ++ line_feed ∷ [] }
{
    b"{\"error\":\"no document\"}\n"
}

/// The text of a document for which there is no room.
pub fn full_line(full: Full) -> &'static [u8]
    ensures { result.now ≡ full_text (full_seen full) ++ line_feed ∷ [] }
{
    match full {
        Full::Docs => b"{\"error\":\"full\",\"which\":\"documents\"}\n",
        Full::Rows => b"{\"error\":\"full\",\"which\":\"rows\"}\n",
        Full::Words => b"{\"error\":\"full\",\"which\":\"words\"}\n",
    }
}

/// The text of a document whose line breaks a rule.
pub fn refused_line(rule: LineRule) -> &'static [u8]
    ensures { result.now ≡ document_text (broken rule) ++ line_feed ∷ [] }
{
    match rule {
        LineRule::NotUtf8 => b"{\"error\":\"document\",\"rule\":\"not UTF-8\"}\n",
        LineRule::LineTooLong => b"{\"error\":\"document\",\"rule\":\"line too long\"}\n",
        LineRule::WordsTooMany => b"{\"error\":\"document\",\"rule\":\"too many words\"}\n",
        LineRule::BadFacet => b"{\"error\":\"document\",\"rule\":\"bad facet\"}\n",
        LineRule::BadName => b"{\"error\":\"document\",\"rule\":\"bad facet name\"}\n",
    }
}
