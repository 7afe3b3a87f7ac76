//! Brackets that open and close.
ghost use Rattle.std.specs.Prelude.{List, ◌∷◌};
ghost use Rattle.cs_model.specs.Tokens.{Token, Word, Open, Close};
ghost use Rattle.cs_query.specs.Following.{Agrees, Stands, JudgesNext, JudgesTokens, held, settled};

use crate::attaching::close_level;
use crate::fault::Stop;
use crate::reader::{Gathered, Reader, Tail};
use crate::tails::settle;
use cs_base::{MAX_DEPTH, Seq, Text, Which};
use cs_model::{Level, Tie};
use cs_text::has_name_form;
use std::alloc::Global;

/// A bracket opens behind a word, which must be a name. It takes the room of its closing bracket too.
#[tactic(auto, using(crate::proofs::Lasts::reverse_push, crate::proofs::Verdicts::over_query, crate::proofs::Verdicts::over_depth))]
pub fn begin_join(alloc: Global, tie: Tie, name: Text, gathered: Gathered) -> Result<Reader, Stop>
    ensures { JudgesNext (record { tail = Tail.Word tie name; gathered = gathered }) (λ rest. Open ∷ Word name ∷ rest) result }
{
    if !has_name_form(name.as_str().as_bytes()) {
        return Err(Stop::Bad);
    }
    let gathered = gathered.spend(2)?;
    if gathered.open_now.len() >= MAX_DEPTH {
        return Err(Stop::Limit(Which::Depth));
    }
    let before = gathered.parts;
    let mut open_now = gathered.open_now;
    open_now.push(Level { tie, name, before })?;
    let parts = Seq::new(alloc);
    Ok(Reader {
        tail: Tail::Open,
        gathered: Gathered {
            parts,
            open_now,
            ..gathered
        },
    })
}

/// The last bracket that is open closes.
#[tactic(auto, using(crate::proofs::Lasts::reverse_push))]
pub fn end_join(alloc: Global, tail: Tail, gathered: Gathered) -> Result<Reader, Stop>
    ensures { (rest : List Token) → Agrees tail rest → Stands (settled tail rest) (held tail rest) gathered
        → JudgesTokens (Close ∷ held tail rest) result }
{
    let gathered = settle(alloc, tail, gathered)?;
    let mut open_now = gathered.open_now;
    match open_now.pop() {
        None => Err(Stop::Bad),
        Some(level) => {
            let parts = close_level(alloc, level, gathered.parts)?;
            Ok(Reader {
                tail: Tail::Close,
                gathered: Gathered {
                    parts,
                    open_now,
                    ..gathered
                },
            })
        }
    }
}
