//! Laws about sources. Each is the contract of a function that does nothing.
ghost use Rattle.cs_model_sources.specs.SourceLaws.{ColumnsAreKept, DocumentsAreLines, LinesAreCounted, RecordsAreCounted, WeightsAreUsual};

/// A translated document is one line of its collection, whose columns are the document's, made flat.
pub fn translated_documents()
    ensures lines { DocumentsAreLines }
    ensures columns { ColumnsAreKept }
{}

/// Record n of a table is line n of its collection. Line n of JSON is line n + 1, and the bad line, if there is one, has the number that
/// comes then.
pub fn numbered_lines()
    ensures records { RecordsAreCounted }
    ensures lines { LinesAreCounted }
{}

/// Each translation has the weights of a collection that names none, and its weights line breaks no rule.
pub fn translated_weights()
    ensures { WeightsAreUsual }
{}
