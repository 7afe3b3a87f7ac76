//! Facets in the byte order of their names, each name once.
ghost use Rattle.std.specs.Prelude.{◌≡◌, IfOk, OnOk, map};
ghost use Rattle.serde_json.specs.Data.{put};
ghost use Rattle.cs_model.specs.Replies.{facet_members, table_data};
ghost use Rattle.cs_json.specs.ReplyTokens.{facets_in_order};

use cs_query::FacetShown;
use std::alloc::{AllocError, Global};
use std::cmp::Ordering;

/// The facets in the order of their names; of two with one name the later.
pub(crate) fn by_name(alloc: Global, facets: &[FacetShown]) -> Result<Vec<&FacetShown>, AllocError>
    ensures { IfOk result (λ v. facets_in_order (map (λ f. f.now) v.items) ≡ facet_members facets.now) }
{
    let mut ordered = Vec::with_capacity(alloc, facets.len())?;
    for facet in facets {
        place(&mut ordered, facet)?;
    }
    Ok(ordered)
}

// Puts a facet where its name belongs, or in the place of one with its name.
fn place<'a>(ordered: &mut Vec<&'a FacetShown>, facet: &'a FacetShown) -> Result<(), AllocError>
    ensures { OnOk result (facets_in_order (map (λ f. f.now) ordered.new.items)
        ≡ put facet.now.name (table_data facet.now.table) (facets_in_order (map (λ f. f.now) ordered.old.items))) }
{
    for at in 0..ordered.len() {
        match facet.name.cmp(&ordered[at].name) {
            Ordering::Less => {
                ordered.insert(at, facet)?;
                return Ok(());
            }
            Ordering::Equal => {
                ordered[at] = facet;
                return Ok(());
            }
            Ordering::Greater => {}
        }
    }
    ordered.push(facet)?;
    Ok(())
}
