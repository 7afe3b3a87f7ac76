//! Lists that contracts see as lists.
ghost use Rattle.std.specs.Prelude.{◌≡◌, [], ◌∷◌, ◌++◌, length, OnOk, OnErr, MatchOption};

use crate::Memory;
use std::alloc::Global;
use std::marker::Model;

/// A growing list, which contracts see as the list of its entries, each as its own type is seen.
#[derive(Debug, Drop)]
pub struct Seq<T> {
    entries: Vec<T>,
}

impl<T> Model for Seq<T> {
    ghost use Rattle.std.specs.Prelude.{List};
    ghost use Rattle.std.specs.Coded.{coded_list};

    ghost Value = { List T };

    ghost coded = { coded_list T.code };

    ghost view = { λ s. s.entries.items };
}

impl<T> Seq<T> {
    /// The empty list. It takes no memory, and keeps the allocator for later calls.
    pub fn new(alloc: Global) -> Seq<T>
        ensures { result ≡ [] }
    {
        Seq {
            entries: Vec::new(alloc),
        }
    }

    /// The list of a vector's entries, taken over without a copy.
    pub fn from_vec(entries: Vec<T>) -> Seq<T>
        ensures { result ≡ entries.items }
    {
        Seq { entries }
    }

    /// Its entries as a vector, without a copy.
    pub fn into_vec(self) -> Vec<T>
        ensures { result.items ≡ self }
    {
        let Seq { entries } = self;
        entries
    }

    /// Its entries.
    pub fn as_slice(&self) -> &[T]
        ensures { result.now ≡ self.now }
    {
        self.entries.as_slice()
    }

    /// How many entries it has.
    pub fn len(&self) -> usize
        ensures { result ≡ length self.now }
    {
        self.entries.len()
    }

    /// Takes the last entry off.
    pub fn pop(&mut self) -> Option<T>
        ensures { MatchOption result ((self.old ≡ []) × (self.new ≡ [])) (λ x. self.old ≡ self.new ++ x ∷ []) }
    {
        self.entries.pop()
    }
}

impl<T: Drop> Seq<T> {
    /// Adds an entry at the end. Where memory runs out, the entry is dropped.
    pub fn push(&mut self, x: T) -> Result<(), Memory>
        ensures ok { OnOk result (self.new ≡ self.old ++ x ∷ []) }
        ensures err { OnErr result (self.new ≡ self.old) }
    {
        self.entries.push(x)?;
        Ok(())
    }
}
