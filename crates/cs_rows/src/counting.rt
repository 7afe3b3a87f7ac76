//! Which documents a base lists, and the words of rows that were gathered, counted.
ghost use Rattle.std.specs.Prelude.{◌≡◌, ◌≤◌, ◌<◌, ◌*◌, [], length, map, IfOk};
ghost use Rattle.std.specs.List.{All};
ghost use Rattle.cs_base.specs.declared.content.limits.TheConstants.{MAX_PARTS};
ghost use Rattle.cs_base.specs.declared.content.scores.{TheConstants.{MAX_ROW_SCORE}, Weights.{Weights}};
ghost use Rattle.cs_tables.specs.WordCounts.{AreCountable, HasCounted};
ghost use Rattle.cs_rows.specs.Counting.{AreListed, AreMarked};
ghost use Rattle.cs_rows.specs.Packing.{post_of_key, word_of_key};
ghost use Rattle.cs_rows.specs.Sources.{IsSource};
ghost use Rattle.cs_rows.specs.Steps.{IsBaseOf};

use crate::packing::{doc_of_key, word_of};
use crate::source::Source;
use cs_base::{Base, Memory, Scored};
use cs_tables::WordCounts;
use std::alloc::Global;

/// Which documents a base lists, by document.
pub fn listed_docs<I: Source>(alloc: Global, index: &I, base: &Base) -> Result<Vec<bool>, Memory>
    requires source { IsSource (I.view index.now) }
    requires base { IsBaseOf (I.view index.now).docs (MAX_ROW_SCORE * MAX_PARTS) base.now }

    ensures { IfOk result (λ v. AreListed (I.view index.now).present base.now v.items) }
{
    match base {
        Base::All => {
            let all = index.list_all(alloc)?;
            Ok(all)
        }
        Base::Listed(hits) => {
            let mut listed = vec![in alloc; false; index.docs() as usize]?;
            list_all(&mut listed, hits.as_slice());
            Ok(listed)
        }
    }
}

// Lists the documents of some hits.
fn list_all(listed: &mut [bool], hits: &[Scored])
    requires { All (λ h. h.doc < length listed.old) hits.now }

    ensures { AreMarked hits.now listed.old listed.new }
{
    for hit in hits {
        listed[hit.doc as usize] = true;
    }
}

/// Counts the rows that these are the numbers of, those of one word in order, whatever the weights are.
pub fn count_keys(counts: &mut WordCounts, keys: &[u64])
    requires { All (λ k. (counts.old.low ≤ word_of_key k) × (word_of_key k < counts.old.high)) keys.now }

    ensures counted { (w : Weights) → AreCountable (map (post_of_key w) keys.now) → HasCounted [] counts.old
        → HasCounted (map (post_of_key w) keys.now) counts.new }
    ensures low { counts.new.low ≡ counts.old.low }
    ensures high { counts.new.high ≡ counts.old.high }
{
    for key in keys {
        counts.see(doc_of_key(*key), word_of(*key));
    }
}
