//! Requests, as the reader of parameters gives them, and why one is refused.
ghost use Rattle.std.specs.Prelude.{◌≡◌};
ghost use Rattle.cs_query.specs.ParamNames.{param_name};

use crate::Which;
use cs_base::{DEFAULT_COMPLETIONS, DEFAULT_HITS, Memory, Query, Seq, Text};
use std::alloc::Global;

/// Why a string of parameters is no request.
#[derive(Clone, Copy, Debug, PartialEq, Eq)]
pub enum ReqFault {
    /// A parameter's value isn't accepted.
    BadParam {
        /// Which one.
        which: Param,
    },
    /// The query isn't of the grammar.
    Bad {
        /// The bytes of its key text before the first refused character.
        at: u32,
    },
    /// The query is refused by a limit alone.
    Limit {
        /// The bytes of its key text before the first refused character.
        at: u32,
        /// The first limit that stands against that character.
        which: Which,
    },
    /// Memory ran out.
    Memory,
}

impl From<Memory> for ReqFault {
    ghost use Rattle.std.specs.Prelude.{◌≡◌};
    ghost use Rattle.cs_query.specs.declared.request.ReqFault.TheVariants.{Memory as NoMemory};

    ghost from_gives = { λ _ e. e ≡ NoMemory };

    fn from(_: Memory) -> Self {
        ReqFault::Memory
    }
}

/// A parameter that may be refused by its own form.
#[derive(Clone, Copy, Debug, PartialEq, Eq)]
pub enum Param {
    /// `h`, how many hits are shown.
    H,
    /// `c`, how many completions are shown, and facet words of each table.
    C,
    /// `o`, how many hits are left out in front.
    O,
    /// `f`, the facets' names.
    F,
}

impl Param {
    /// The parameter's name.
    pub fn name(self) -> &'static str
        ensures { result.now ≡ param_name self }
    {
        match self {
            Param::H => "h",
            Param::C => "c",
            Param::O => "o",
            Param::F => "f",
        }
    }
}

/// What is asked.
#[derive(Drop)]
pub struct Request {
    /// The query.
    pub query: Query,
    /// How many hits are shown.
    pub hits: u32,
    /// How many completions are shown, and facet words of each table.
    pub completions: u32,
    /// How many hits are left out in front.
    pub offset: u32,
    /// The names of the facets asked, each once, in byte order.
    pub facets: Seq<Text>,
}

impl Request {
    ghost use Rattle.std.specs.Prelude.{◌≡◌};
    ghost use Rattle.cs_model.specs.Requests.{by_default};
    ghost use Rattle.cs_query.specs.RequestView.{asked};

    /// What a query asks where nothing else is said: the defaults, no hit left out in front, and no facet.
    pub fn by_default(alloc: Global, query: Query) -> Self
        ensures { asked result ≡ by_default query }
    {
        Request {
            query,
            hits: DEFAULT_HITS,
            completions: DEFAULT_COMPLETIONS,
            offset: 0,
            facets: Seq::new(alloc),
        }
    }
}
