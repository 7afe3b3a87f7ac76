//! The union of lists of posts.
ghost use Rattle.std.specs.Prelude.{◌≡◌, ◌+◌, ◌≤◌, ◌++◌, flat_map, length, IfOk};
ghost use Rattle.std.specs.List.{All};
ghost use Rattle.cs_base.specs.content.Orders.{AreSorted};
ghost use Rattle.cs_meet.specs.Filters.{IsUnion};

use crate::fronts::{MOST_LISTS, first_fronts, front_at, list_of_front, place_of_front, put_front};
use crate::skip::add_where;
use cs_base::Memory;
use cs_cols::Cols;
use std::alloc::Global;

/// The rows of some lists in order, each document, position and word once.
///
/// Where rows of one document, position and word have one score, this is the union. Each row is moved once.
pub fn unite(alloc: Global, lists: &[Cols]) -> Result<Cols, Memory>
    requires { All (λ c. AreSorted c.posts) lists.now }

    ensures ok { IfOk result (λ c. IsUnion (flat_map (λ l. l.posts) lists.now) c.posts) }
    ensures sorted { IfOk result (λ c. AreSorted c.posts) }
{
    if lists.is_empty() {
        return Ok(Cols::new(alloc));
    }
    if lists.len() > MOST_LISTS {
        return Err(Memory);
    }
    let rows = count_rows(lists)?;
    let mut found = Cols::with_capacity(alloc, rows)?;
    let mut heads = vec![in alloc; 0; lists.len()]?;
    let mut tree = first_fronts(alloc, lists)?;
    let mut next = 0;
    let mut number = list_of_front(tree[1]);
    while number < lists.len() {
        let place = place_of_front(tree[1]);
        let head = heads[number];
        add_where(&mut found, place >= next, lists[number].get(head));
        next = place + 1;
        heads[number] = head + 1;
        let front = front_at(&lists[number], head + 1, number);
        put_front(&mut tree, lists.len(), number, front);
        number = list_of_front(tree[1]);
    }
    Ok(found)
}

// How many rows the lists have.
fn count_rows(lists: &[Cols]) -> Result<usize, Memory>
    ensures { IfOk result (λ n. n ≡ length (flat_map (λ l. l.posts) lists.now)) }
{
    let mut rows: usize = 0;
    for list in lists {
        let Some(more) = rows.checked_add(list.len()) else {
            return Err(Memory);
        };
        rows = more;
    }
    Ok(rows)
}
