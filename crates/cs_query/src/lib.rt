//! Queries, requests and replies: reads a query's text, prints it in one form, and has the types that requests and replies are handed on in.
//!
//! What a text means, and which character of it is refused, stands in `cs_model`'s `specs/Grammar.antt`
//! and `specs/Refusals.antt`; the one form of a query and its keys in `specs/Canonical.antt` and
//! `specs/Keys.antt`. Contracts see a reply as the record of that name in `cs_model`, whose text is defined
//! there. Nothing here knows a collection.
#![tactic(auto)]

mod attaching;
mod beginnings;
mod brackets;
mod classes;
mod fault;
mod growing;
mod keying;
mod parsing;
mod printing;
mod reader;
mod reply;
mod request;
mod steps;
mod tails;

pub use cs_base::{Atom, Chain, Key, Keys, Link, Linked, Narrower, Part, Query, Which};
pub use fault::QueryFault;
pub use keying::{keys, last_prefix};
pub use parsing::parse;
pub use printing::print;
pub use reply::{FacetShown, HitShown, Reply, Shown};
pub use request::{Param, ReqFault, Request};
