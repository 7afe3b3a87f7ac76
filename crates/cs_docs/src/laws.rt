//! Laws about collections. Each is the contract of a function that does nothing.
ghost use Rattle.std.specs.Prelude.{◌≡◌, ℕ, List, true, map};
ghost use Rattle.std.specs.List.{flat_map, enumerate_from};
ghost use Rattle.cs_base.specs.declared.content.doc.Doc.{Doc};
ghost use Rattle.cs_base.specs.declared.content.scores.Weights.{Weights};
ghost use Rattle.cs_model.specs.Collection.{is_plain, documents, doc_lines, docs_refusal, weights_lines, weights_refusal};
ghost use Rattle.cs_model.specs.Corpus.{rows_of, title_rows, corpus, corpus_of, IsCorpus};
ghost use Rattle.cs_model.specs.First.{first_reason};
ghost use Rattle.cs_docs.specs.LinesRead.{title_only};

/// A plain collection is refused for its weights line alone, each other line that has bytes is the
/// title of a document without facets and text, and the rows are those of the titles' words,
/// whichever weights they have.
pub fn plain_collections()
    ensures accepted { (c : List ℕ) → is_plain c ≡ true → docs_refusal c ≡ first_reason (map weights_refusal (weights_lines c)) }
    ensures titles { (c : List ℕ) → is_plain c ≡ true → documents c ≡ map title_only (doc_lines c) }
    ensures rows { (c : List ℕ) (w : Weights) → is_plain c ≡ true → rows_of w (documents c) ≡ flat_map (λ p. title_rows w p.0 p.1) (enumerate_from 0 (documents c)) }
{}

/// In the corpus of a collection, and in that of any documents under any weights, document, position
/// and word name a row, rows are listed by these, and each row's document has a title.
pub fn corpora()
    ensures collections { (c : List ℕ) → IsCorpus (corpus c) }
    ensures documents { (w : Weights) (docs : List Doc) → IsCorpus (corpus_of w docs) }
{}
