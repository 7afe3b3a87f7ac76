//! Which blocks may have a row in a hit: those with a hit from their least document to their greatest.
ghost use Rattle.std.specs.Prelude.{◌≡◌, map, nat_lt};
ghost use Rattle.cs_base.specs.content.Orders.{AreByDoc};
ghost use Rattle.cs_model_kept.specs.Sharp.{has_hit};
ghost use Rattle.cs_rank.specs.DocScores.{IsBase};
ghost use Rattle.cs_rows.specs.Skipping.{may_hit};

use cs_base::{Base, BlockHead, Scored};

/// Whether a document of a base may have a row in a block. Where a base stands for all, one may in each block.
pub fn may_hit(base: &Base, head: &BlockHead) -> bool
    requires { IsBase base.now }

    ensures { result ≡ may_hit base.now head.now }
{
    match base {
        Base::All => true,
        Base::Listed(hits) => has_hit(hits.as_slice(), head),
    }
}

// Whether a hit lies from a block's least document to its greatest.
fn has_hit(hits: &[Scored], head: &BlockHead) -> bool
    requires { AreByDoc hits.now }

    ensures { result ≡ has_hit (map (λ h. h.doc) hits.now) head.now }
{
    let at = hits.partition_point(|hit| is_below(hit, head.least));
    at < hits.len() && hits[at].doc <= head.greatest
}

// Whether a hit's document comes before another.
fn is_below(hit: &Scored, doc: u32) -> bool
    ensures { result ≡ nat_lt hit.now.doc doc }
{
    hit.doc < doc
}
