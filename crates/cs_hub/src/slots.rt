//! The live connections.
ghost use Rattle.std.specs.Prelude.{◌≡◌, ℕ, None, Some, [], true, false, is_some, slice_set, IfNone, IfSome};
ghost use Rattle.cs_hub.specs.{HubFollowing.{left_at}, Rounds.{IsAdded}};

use crate::line::Line;
use std::alloc::Global;
use std::collections::BTreeMap;
use std::marker::Model;

/// The live connections, each with its own unread bytes and the number of bytes taken. Of a connection that is live no more nothing
/// is kept.
#[derive(Debug, Drop)]
pub struct Core {
    lines: BTreeMap<u32, Line>,
    /// Every number that was ever added is below it.
    end: usize,
}

impl Model for Core {
    ghost use Rattle.std.specs.Prelude.{List, Option};
    ghost use Rattle.std.specs.BTreeMap.{get};
    ghost use Rattle.std.specs.Coded.{coded_list, coded_option};
    ghost use Rattle.std.specs.Ordering.{nat_cmp};
    ghost use Rattle.cs_model_serving.specs.Connections.{Left};
    ghost use Rattle.cs_hub.specs.HubFollowing.{AreKeptBelow, slots_of};
    ghost use Rattle.cs_hub.specs.Speaking.{left_code};

    ghost Value = { List (Option Left) };

    ghost coded = { coded_list (coded_option left_code) };

    ghost view = { λ c. slots_of (get nat_cmp c.lines) c.end };

    ghost invariant = { λ c. AreKeptBelow (get nat_cmp c.lines) c.end };
}

impl Core {
    /// No connection. It takes no memory.
    pub fn new(alloc: Global) -> Core
        ensures { result ≡ [] }
    {
        Core {
            lines: BTreeMap::new(alloc),
            end: 0,
        }
    }

    /// Whether there is no live connection.
    pub fn is_idle(&self) -> bool
        ensures idle { result ≡ true → (c : ℕ) → left_at self.now c ≡ None }
        ensures busy { result ≡ false → (c : ℕ) × (is_some (left_at self.now c) ≡ true) }
    {
        self.lines.is_empty()
    }

    /// Keeps a connection that opened; true where there was memory for it.
    pub(crate) fn add(&mut self, conn: u32, line: Line) -> bool
        ensures added { result ≡ true → IsAdded self.old conn line self.new }
        ensures same { result ≡ false → self.new ≡ self.old }
    {
        if self.lines.insert(conn, line).is_err() {
            return false;
        }
        self.end = self.end.max(conn as usize + 1);
        true
    }

    /// Keeps this line of a live connection, and returns the one that was kept of it. It takes no memory.
    pub(crate) fn replace(&mut self, conn: u32, line: Line) -> Line
        requires held { is_some (left_at self.old conn) ≡ true }

        ensures value { left_at self.old conn ≡ Some result }
        ensures replaced { self.new ≡ slice_set self.old conn (Some line) }
    {
        match self.lines.insert(conn, line) {
            Ok(Some(kept)) => kept,
            _ => unreachable!(),
        }
    }

    /// Keeps nothing more of a connection.
    pub(crate) fn remove(&mut self, conn: u32)
        ensures { self.new ≡ slice_set self.old conn None }
    {
        let _ = self.lines.remove(&conn);
    }

    /// Keeps nothing more of some live connection, and says which; None where there is none.
    pub(crate) fn pop(&mut self) -> Option<u32>
        ensures some { IfSome result (λ c. (is_some (left_at self.old c) ≡ true) × (self.new ≡ slice_set self.old c None)) }
        ensures none { IfNone result ((c : ℕ) → left_at self.old c ≡ None) }
        ensures same { IfNone result (self.new ≡ self.old) }
    {
        let Some((conn, _)) = self.lines.pop_first() else {
            return None;
        };
        Some(conn)
    }
}
