//! Replies. Contracts see each type as the record of its name in `cs_model`.
use cs_base::{Seq, Text};
use std::marker::Model;

/// A completion, or a word of a facet's table.
#[derive(Debug, Drop)]
pub struct Shown {
    /// How many documents have it.
    pub docs: u32,
    /// The word as it is shown: that of a facet without its leading `:`.
    pub word: Text,
}

/// A hit.
#[derive(Debug, Drop)]
pub struct HitShown {
    /// The document's number, from 0.
    pub doc: u32,
    /// The sum over the positive parts of the greatest score of the part's rows.
    pub score: u32,
    /// The title as it stands in the collection.
    pub title: Text,
}

/// The table of a facet that was asked.
#[derive(Debug, Drop)]
pub struct FacetShown {
    /// The facet's name.
    pub name: Text,
    /// Its words, by the number of documents descending, then by bytes.
    pub table: Seq<Shown>,
}

/// The answer to a request.
#[derive(Debug, Drop)]
pub struct Reply {
    /// The completions that are shown, by the number of documents descending, then by bytes.
    pub completions: Seq<Shown>,
    /// The tables of the facets asked.
    pub facets: Seq<FacetShown>,
    /// The hits that are shown, by score descending, then by document.
    pub hits: Seq<HitShown>,
    /// How many completions there are before the cut.
    pub total_completions: u32,
    /// How many hits there are before the cut.
    pub total_hits: u32,
}

impl Model for Shown {
    ghost use Rattle.cs_model.specs.Replies.{Shown};

    ghost Value = { Shown };

    ghost view = { λ s. record { docs = s.docs; word = s.word } };
}

impl Model for HitShown {
    ghost use Rattle.cs_model.specs.Replies.{HitShown};

    ghost Value = { HitShown };

    ghost view = { λ h. record { doc = h.doc; score = h.score; title = h.title } };
}

impl Model for FacetShown {
    ghost use Rattle.cs_model.specs.Replies.{FacetShown};

    ghost Value = { FacetShown };

    ghost view = { λ f. record { name = f.name; table = f.table } };
}

impl Model for Reply {
    ghost use Rattle.cs_model.specs.Replies.{Reply};

    ghost Value = { Reply };

    ghost view = { λ r. record {
      completions = r.completions;
      facets = r.facets;
      hits = r.hits;
      total_completions = r.total_completions;
      total_hits = r.total_hits;
    } };
}
