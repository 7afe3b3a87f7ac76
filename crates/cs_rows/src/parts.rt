//! Alternatives and links, by the rows of what they hold.
ghost use Rattle.std.specs.Prelude.{◌≡◌, ◌++◌, ◌∷◌, [], flat_map, IfOk, OnOk};
ghost use Rattle.std.specs.List.{All};
ghost use Rattle.cs_base.specs.content.Orders.{AreSorted};
ghost use Rattle.cs_rows.specs.Packing.{IsOrdered};
ghost use Rattle.cs_rows.specs.Stocked.{linked_posts};

use cs_base::{Link, Memory};
use cs_cols::Cols;
use cs_meet::{follow, near, unite};
use std::alloc::Global;

/// Adds a list behind others.
pub(crate) fn add_list(lists: &mut Vec<Cols>, rows: Cols) -> Result<(), Memory>
    ensures { OnOk result (lists.new.items ≡ lists.old.items ++ rows ∷ []) }
{
    lists.push(rows)?;
    Ok(())
}

/// The rows of some lists, each place once. A list that is alone is given back as it is.
pub(crate) fn united(alloc: Global, mut lists: Vec<Cols>) -> Result<Cols, Memory>
    requires { All (λ c. AreSorted c.posts) lists.items }

    ensures { IfOk result (λ c. IsOrdered (flat_map (λ l. l.posts) lists.items) c.posts) }
{
    if lists.len() > 1 {
        let all = unite(alloc, &lists)?;
        return Ok(all);
    }
    match lists.pop() {
        Some(only) => Ok(only),
        None => Ok(Cols::new(alloc)),
    }
}

/// Those of `next` that are linked to one of `found`.
pub(crate) fn linked_posts(
    alloc: Global,
    link: Link,
    found: &Cols,
    next: &Cols,
) -> Result<Cols, Memory>
    requires found_sorted { AreSorted found.now.posts }
    requires next_sorted { AreSorted next.now.posts }

    ensures { IfOk result (λ c. c.posts ≡ linked_posts link found.now.posts next.now.posts) }
{
    let kept = match link {
        Link::Phrase => follow(alloc, found, next)?,
        Link::Near => near(alloc, found, next)?,
    };
    Ok(kept)
}
