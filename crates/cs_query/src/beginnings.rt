//! Tokens that begin. The atom of a word or a value that can't go on is put among the parts.
ghost use Rattle.std.specs.Prelude.{◌≡◌, ◌≤◌, [], ◌∷◌, encode_utf8, length, IfOk};
ghost use Rattle.cs_model.specs.Collection.{has_name_form};
ghost use Rattle.cs_model.specs.Tokens.{Word, Value, Run, Gap, Dollar, Bar, Colon};
ghost use Rattle.cs_model.specs.Refusals.{begins_part};
ghost use Rattle.cs_query.specs.Following.{JudgesBegun, JudgesNext};

use crate::fault::Stop;
use crate::reader::{Gathered, Reader, Tail};
use crate::tails::{settle, spot_of, tie_behind};
use cs_base::{Atom, MAX_ATOMS, MAX_PARTS, Memory, Text, Which};
use cs_model::Tie;
use cs_text::{has_name_form, named_word};
use std::alloc::Global;

/// A word begins.
#[tactic(auto, using(crate::proofs::Verdicts::over_query, crate::proofs::Verdicts::over_parts, crate::proofs::Verdicts::over_atoms))]
pub fn begin_word(alloc: Global, c: char, tail: Tail, gathered: Gathered) -> Result<Reader, Stop>
    ensures { JudgesBegun (Word (encode_utf8 c)) tail gathered result }
{
    let tie = tie_behind(&tail);
    let gathered = settle(alloc, tail, gathered)?;
    let gathered = gathered.spend(c.len_utf8())?;
    let more = begins_part(tie);
    if gathered.begun > MAX_PARTS - more {
        return Err(Stop::Limit(Which::Parts));
    }
    if gathered.atoms >= MAX_ATOMS {
        return Err(Stop::Limit(Which::Atoms));
    }
    let text = text_of_char(alloc, c)?;
    Ok(Reader {
        tail: Tail::Word { tie, text },
        gathered: Gathered {
            begun: gathered.begun + more,
            atoms: gathered.atoms + 1,
            ..gathered
        },
    })
}

/// How many parts begin with an atom so tied.
fn begins_part(tie: Tie) -> usize
    ensures is { result ≡ begins_part tie }
    ensures few { result ≤ 1 }
{
    match tie {
        Tie::Begins { excluded: _ } => 1,
        _ => 0,
    }
}

/// A run begins.
#[tactic(auto, using(crate::proofs::Verdicts::over_query))]
pub fn begin_run(alloc: Global, c: char, tail: Tail, gathered: Gathered) -> Result<Reader, Stop>
    ensures { JudgesBegun (Run (encode_utf8 c)) tail gathered result }
{
    let spot = spot_of(&tail);
    let gathered = settle(alloc, tail, gathered)?;
    let gathered = gathered.spend(c.len_utf8())?;
    let text = text_of_char(alloc, c)?;
    Ok(Reader {
        tail: Tail::Run { spot, text },
        gathered,
    })
}

/// A gap begins.
#[tactic(auto, using(crate::proofs::Verdicts::over_query))]
pub fn begin_gap(alloc: Global, c: char, tail: Tail, gathered: Gathered) -> Result<Reader, Stop>
    ensures { JudgesBegun (Gap (length (encode_utf8 c))) tail gathered result }
{
    let gathered = settle(alloc, tail, gathered)?;
    let gathered = gathered.spend(c.len_utf8())?;
    Ok(Reader {
        tail: Tail::Gap(c.len_utf8()),
        gathered,
    })
}

/// A bar begins.
#[tactic(auto, using(crate::proofs::Verdicts::over_query))]
pub fn begin_bar(alloc: Global, tail: Tail, gathered: Gathered) -> Result<Reader, Stop>
    ensures { JudgesBegun Bar tail gathered result }
{
    let gathered = settle(alloc, tail, gathered)?;
    let gathered = gathered.spend(1)?;
    Ok(Reader {
        tail: Tail::Bar,
        gathered,
    })
}

/// A colon behind a word, which must be a name.
#[tactic(auto, using(crate::proofs::Verdicts::over_query))]
pub fn begin_value(alloc: Global, tie: Tie, name: Text, gathered: Gathered) -> Result<Reader, Stop>
    ensures { JudgesNext (record { tail = Tail.Word tie name; gathered = gathered }) (λ rest. Value [] ∷ Colon ∷ Word name ∷ rest) result }
{
    if !has_name_form(name.as_str().as_bytes()) {
        return Err(Stop::Bad);
    }
    let gathered = gathered.spend(1)?;
    let text = Text::new(alloc);
    Ok(Reader {
        tail: Tail::Value { tie, name, text },
        gathered,
    })
}

/// A dollar behind a word.
#[tactic(auto, using(crate::proofs::Verdicts::over_query))]
pub fn exact_word(alloc: Global, tie: Tie, text: Text, gathered: Gathered) -> Result<Reader, Stop>
    ensures { JudgesNext (record { tail = Tail.Word tie text; gathered = gathered }) (λ rest. Dollar ∷ Word text ∷ rest) result }
{
    let gathered = gathered.spend(1)?;
    let gathered = gathered.add(alloc, tie, Atom::Exact(text))?;
    Ok(Reader {
        tail: Tail::Dollar,
        gathered,
    })
}

/// A dollar behind a value, which must not be empty.
#[tactic(auto, using(crate::proofs::Verdicts::over_query, crate::proofs::Verdicts::dollar_fine))]
pub fn exact_value(
    alloc: Global,
    tie: Tie,
    name: Text,
    text: Text,
    gathered: Gathered,
) -> Result<Reader, Stop>
    ensures { JudgesNext (record { tail = Tail.Value tie name text; gathered = gathered }) (λ rest. Dollar ∷ Value text ∷ Colon ∷ Word name ∷ rest) result }
{
    if text.len() == 0 {
        return Err(Stop::Bad);
    }
    let gathered = gathered.spend(1)?;
    let word = named_word(alloc, name.as_str(), text.as_str())?;
    let gathered = gathered.add(alloc, tie, Atom::Exact(word))?;
    Ok(Reader {
        tail: Tail::Dollar,
        gathered,
    })
}

/// A text of one character.
fn text_of_char(alloc: Global, c: char) -> Result<Text, Memory>
    ensures { IfOk result (λ t. t ≡ encode_utf8 c) }
{
    let mut text = Text::new(alloc);
    text.push(c)?;
    Ok(text)
}
