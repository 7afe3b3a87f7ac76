//! Keys of queries, by which kept answers are found.
ghost use Rattle.std.specs.Prelude.{◌≡◌, IfOk};
ghost use Rattle.std.proofs.Common.{rules};
ghost use Rattle.std.specs.Hash as fed;
ghost use Rattle.std.specs.Cmp.Rules.{hashing};

use crate::{Memory, Seq, Text};
use std::alloc::Global;
use std::hash::{Hash, Hasher};
use std::marker::Model;

/// The key of a query, which contracts see as its bytes: those of the query's canonical text.
#[derive(Debug, PartialEq, Eq, Drop)]
pub struct Key {
    text: Text,
}

/// The keys under which a query's answer is looked for.
#[derive(Debug, Drop)]
pub struct Keys {
    /// That of the query itself.
    pub same: Key,
    /// Those of queries whose last prefix is shorter, the longest first.
    pub narrow: Seq<Narrower>,
    /// That of the query without its last part, where it has at least two.
    pub extend: Option<Key>,
}

/// The key of a query with a shorter last prefix.
#[derive(Debug, Drop)]
pub struct Narrower {
    /// The bytes of that prefix.
    pub cut: u32,
    /// The key.
    pub key: Key,
}

impl Model for Key {
    ghost use Rattle.std.specs.Prelude.{List, ℕ};

    ghost Value = { List ℕ };

    ghost view = { λ k. k.text };

    ghost inverse = { λ bytes. record { text = bytes } };
}

impl Key {
    /// The key of a query whose canonical text is given, in memory of its own.
    pub fn new(alloc: Global, text: &Text) -> Result<Key, Memory>
        ensures ok { IfOk result (λ k. k ≡ text.now) }
    {
        let text = text.copy(alloc)?;
        Ok(Key { text })
    }

    /// Its bytes.
    pub fn bytes(&self) -> &[u8]
        ensures { result.now ≡ self.now }
    {
        self.text.as_str().as_bytes()
    }
}

impl Hash for Key {
    ghost hash_input = { fed.str };

    ghost respects_eq = { Prim.search (hashing, rules) };

    fn hash<H: Hasher>(&self, state: &mut H) {
        self.text.as_str().hash(state);
    }
}
