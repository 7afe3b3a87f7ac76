//! What is kept of one query.
ghost use Rattle.std.specs.Prelude.{◌≡◌, ◌<◌, ◌^◌};
ghost use Rattle.cs_model_kept.specs.Entries.{listed_count, kept_entry_size};

use cs_base::Base;
use cs_cols::Cols;
use std::marker::Model;

/// What is kept of a query, seen as its base and the posts of its rows.
#[derive(Drop)]
pub struct Entry {
    /// The hits from which the query's last part goes on.
    pub base: Base,
    /// The rows of that part in them, by document, position and word.
    pub rows: Cols,
}

impl Model for Entry {
    ghost use Rattle.cs_base.specs.declared.content.doc.Post.{Post};
    ghost use Rattle.cs_model_kept.specs.Entries.{EntryOf};

    ghost Value = { EntryOf Post };

    ghost view = { λ e. record { base = e.base; rows = e.rows.posts } };
}

impl Entry {
    // Its rows and the documents that its base lists, counted together.
    pub(crate) fn size(&self) -> usize
        ensures { result ≡ kept_entry_size self.now }
    {
        self.rows.len() + count_listed(&self.base)
    }
}

// How many documents a base lists.
fn count_listed(base: &Base) -> usize
    ensures value { result ≡ listed_count base.now }
    ensures small { result < 2 ^ 63 }
{
    match base {
        Base::All => 0,
        Base::Listed(hits) => hits.as_slice().len(),
    }
}
