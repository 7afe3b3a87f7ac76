//! Puts atoms behind the parts that were read.
ghost use Rattle.std.specs.Prelude.{◌≡◌, IfOk};
ghost use Rattle.cs_model.specs.Grammar.{attached, chain_of, closed, on_last, with_link};

use cs_base::{Atom, Chain, Link, Linked, Memory, Part, Query, Seq};
use cs_model::{Level, Tie};
use std::alloc::Global;

/// The parts with one atom more.
#[tactic(auto, using(crate::proofs::Lasts::on_last_at))]
pub fn attach(
    alloc: Global,
    tie: Tie,
    atom: Atom,
    mut parts: Seq<Part>,
) -> Result<Seq<Part>, Memory>
    ensures { IfOk result (λ ps. ps ≡ attached tie atom parts) }
{
    match tie {
        Tie::Begins { excluded } => {
            let mut chains = Seq::new(alloc);
            chains.push(chain_of(alloc, atom))?;
            parts.push(Part { excluded, chains })?;
            Ok(parts)
        }
        Tie::Alternative => match parts.pop() {
            None => Ok(parts),
            Some(part) => {
                let Part {
                    excluded,
                    mut chains,
                } = part;
                chains.push(chain_of(alloc, atom))?;
                parts.push(Part { excluded, chains })?;
                Ok(parts)
            }
        },
        Tie::Linked(link) => match parts.pop() {
            None => Ok(parts),
            Some(part) => {
                let Part { excluded, chains } = part;
                let chains = link_last(chains, link, atom)?;
                parts.push(Part { excluded, chains })?;
                Ok(parts)
            }
        },
    }
}

/// The parts around a bracket, with its join.
pub fn close_level(alloc: Global, level: Level, parts: Seq<Part>) -> Result<Seq<Part>, Memory>
    ensures { IfOk result (λ ps. ps ≡ closed parts level) }
{
    let Level { tie, name, before } = level;
    let inner = Query { parts };
    let parts = attach(alloc, tie, Atom::Join { name, inner }, before)?;
    Ok(parts)
}

fn chain_of(alloc: Global, atom: Atom) -> Chain
    ensures { result ≡ chain_of atom }
{
    Chain {
        first: atom,
        rest: Seq::new(alloc),
    }
}

#[tactic(auto, using(crate::proofs::Lasts::on_last_at))]
fn link_last(mut chains: Seq<Chain>, link: Link, atom: Atom) -> Result<Seq<Chain>, Memory>
    ensures { IfOk result (λ cs. cs ≡ on_last (with_link link atom) chains) }
{
    match chains.pop() {
        None => Ok(chains),
        Some(chain) => {
            let Chain { first, mut rest } = chain;
            rest.push(Linked { link, atom })?;
            chains.push(Chain { first, rest })?;
            Ok(chains)
        }
    }
}
