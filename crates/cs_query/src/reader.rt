//! What a reader of queries knows of the text so far.
ghost use Rattle.std.specs.Prelude.{◌≡◌, ◌-◌, ◌<◌, ◌≤◌, IfOk, OnOk, OnErr};
ghost use Rattle.cs_model.specs.Grammar.{attached};

use crate::attaching::attach;
use crate::fault::NoRoom;
use cs_base::{Atom, Memory, Part, Seq, Text};
use cs_model::{Level, Spot, Tie};
use std::alloc::Global;

/// A reader of queries.
#[derive(Drop)]
pub struct Reader {
    /// The newest token, and of an atom that may still go on all of it.
    pub tail: Tail,
    /// What stands before it.
    pub gathered: Gathered,
}

/// The newest token of a text, and of an atom that may still go on all of it.
#[derive(Drop)]
pub enum Tail {
    /// No token.
    Start,
    /// A gap, with its number of bytes.
    Gap(usize),
    /// A run of `.`, `-`, `_` and `'`.
    Run {
        /// Where it stands.
        spot: Spot,
        /// Its bytes.
        text: Text,
    },
    /// A word.
    Word {
        /// How it is tied to what stands before it.
        tie: Tie,
        /// The word so far.
        text: Text,
    },
    /// A name, a colon and a value.
    Value {
        /// How they are tied to what stands before them.
        tie: Tie,
        /// The name.
        name: Text,
        /// The value so far.
        text: Text,
    },
    /// A dollar behind a word or a value.
    Dollar,
    /// A bar.
    Bar,
    /// A name and an opening bracket.
    Open,
    /// A closing bracket.
    Close,
}

/// What stands before the tail, and what is counted.
#[derive(Drop)]
pub struct Gathered {
    /// The parts within the brackets that are open, without the tail's atom.
    pub parts: Seq<Part>,
    /// The brackets that are open, outermost first.
    pub open_now: Seq<Level>,
    /// How many parts have begun, the tail's included.
    pub begun: usize,
    /// How many atoms there are, the tail's included.
    pub atoms: usize,
    /// How many bytes more the text may have.
    pub room: usize,
}

impl Gathered {
    /// The same with so many bytes less of room. Where there is less, the text is over the limit.
    pub fn spend(self, bytes: usize) -> Result<Gathered, NoRoom>
        ensures fits { OnOk result (bytes ≤ self.room) }
        ensures ok { IfOk result (λ g. g ≡ record self { room = self.room - bytes }) }
        ensures over { OnErr result (self.room < bytes) }
    {
        match self.room.checked_sub(bytes) {
            Some(room) => Ok(Gathered { room, ..self }),
            None => Err(NoRoom),
        }
    }

    /// The same with one atom more among its parts. The counts stay.
    pub fn add(self, alloc: Global, tie: Tie, atom: Atom) -> Result<Gathered, Memory>
        ensures { IfOk result (λ g. g ≡ record self { parts = attached tie atom self.parts }) }
    {
        let parts = attach(alloc, tie, atom, self.parts)?;
        Ok(Gathered { parts, ..self })
    }
}
