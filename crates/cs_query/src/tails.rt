//! What a reader's tail means for what comes behind it.
ghost use Rattle.std.specs.Prelude.{◌≡◌, List, IfOk};
ghost use Rattle.cs_model.specs.Tokens.{Token};
ghost use Rattle.cs_model.specs.Grammar.{run_tie, spot, tie as tie_of};
ghost use Rattle.cs_query.specs.Following.{Agrees, Stands, held, settled};

use crate::reader::{Gathered, Tail};
use cs_base::{Atom, Link, Memory};
use cs_model::{Spot, Tie};
use cs_text::named_word;
use std::alloc::Global;

/// How an atom directly behind the tail is tied.
pub fn tie_behind(tail: &Tail) -> Tie
    ensures { (rest : List Token) → Agrees tail.now rest → result ≡ tie_of (held tail.now rest) }
{
    match tail {
        Tail::Bar => Tie::Alternative,
        Tail::Run { spot, text } => run_tie(*spot, text.as_str().as_bytes()),
        _ => Tie::Begins { excluded: false },
    }
}

fn run_tie(spot: Spot, run: &[u8]) -> Tie
    ensures { result ≡ run_tie spot run.now }
{
    match (spot, run) {
        (Spot::Front, [x]) => Tie::Begins {
            excluded: *x == b'-',
        },
        (Spot::BehindAtom, [_]) => Tie::Linked(Link::Phrase),
        (Spot::BehindAtom, [x, y]) => {
            if *x == b'.' && *y == b'.' {
                Tie::Linked(Link::Near)
            } else {
                Tie::Begins { excluded: false }
            }
        }
        _ => Tie::Begins { excluded: false },
    }
}

/// Where a run directly behind the tail stands.
pub fn spot_of(tail: &Tail) -> Spot
    ensures { (rest : List Token) → result ≡ spot (held tail.now rest) }
{
    match tail {
        Tail::Start | Tail::Gap(_) | Tail::Open => Spot::Front,
        Tail::Word { .. } | Tail::Dollar | Tail::Close => Spot::BehindAtom,
        Tail::Run { .. } | Tail::Value { .. } | Tail::Bar => Spot::Elsewhere,
    }
}

/// What is gathered, with the tail's atom among its parts.
pub fn settle(alloc: Global, tail: Tail, gathered: Gathered) -> Result<Gathered, Memory>
    ensures { IfOk result (λ g. (rest : List Token) → Agrees tail rest
        → Stands (settled tail rest) (held tail rest) gathered → Stands (held tail rest) (held tail rest) g) }
{
    match tail {
        Tail::Word { tie, text } => gathered.add(alloc, tie, Atom::Prefix(text)),
        Tail::Value { tie, name, text } => {
            let word = named_word(alloc, name.as_str(), text.as_str())?;
            gathered.add(alloc, tie, Atom::Prefix(word))
        }
        _ => Ok(gathered),
    }
}
