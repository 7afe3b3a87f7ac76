//! The newest token with one character more.
ghost use Rattle.std.specs.Prelude.{◌+◌, ◌∷◌, ◌++◌, encode_utf8, length};
ghost use Rattle.cs_model.specs.Tokens.{Word, Value, Run, Gap, Colon};
ghost use Rattle.cs_query.specs.Following.{JudgesNext};

use crate::fault::Stop;
use crate::reader::{Gathered, Reader, Tail};
use cs_base::{MAX_PLAIN_WORD_BYTES, Text, Which};
use cs_model::{Spot, Tie};

/// A word with one character more.
#[tactic(auto, using(crate::proofs::Verdicts::over_query, crate::proofs::Verdicts::over_word))]
pub fn grow_word(c: char, tie: Tie, mut text: Text, gathered: Gathered) -> Result<Reader, Stop>
    ensures { JudgesNext (record { tail = Tail.Word tie text; gathered = gathered }) (λ rest. Word (text ++ encode_utf8 c) ∷ rest) result }
{
    let gathered = gathered.spend(c.len_utf8())?;
    if text.len() > MAX_PLAIN_WORD_BYTES - c.len_utf8() {
        return Err(Stop::Limit(Which::Word));
    }
    text.push(c)?;
    Ok(Reader {
        tail: Tail::Word { tie, text },
        gathered,
    })
}

/// A value with one character more.
#[tactic(auto, using(crate::proofs::Verdicts::over_query, crate::proofs::Verdicts::over_word))]
pub fn grow_value(
    c: char,
    tie: Tie,
    name: Text,
    mut text: Text,
    gathered: Gathered,
) -> Result<Reader, Stop>
    ensures { JudgesNext (record { tail = Tail.Value tie name text; gathered = gathered })
        (λ rest. Value (text ++ encode_utf8 c) ∷ Colon ∷ Word name ∷ rest) result }
{
    let gathered = gathered.spend(c.len_utf8())?;
    if text.len() > MAX_PLAIN_WORD_BYTES - c.len_utf8() {
        return Err(Stop::Limit(Which::Word));
    }
    text.push(c)?;
    Ok(Reader {
        tail: Tail::Value { tie, name, text },
        gathered,
    })
}

/// A run with one character more.
#[tactic(auto, using(crate::proofs::Verdicts::over_query))]
pub fn grow_run(c: char, spot: Spot, mut text: Text, gathered: Gathered) -> Result<Reader, Stop>
    ensures { JudgesNext (record { tail = Tail.Run spot text; gathered = gathered }) (λ rest. Run (text ++ encode_utf8 c) ∷ rest) result }
{
    let gathered = gathered.spend(c.len_utf8())?;
    text.push(c)?;
    Ok(Reader {
        tail: Tail::Run { spot, text },
        gathered,
    })
}

/// A gap with one character more.
#[tactic(auto, using(crate::proofs::Verdicts::over_query))]
pub fn grow_gap(c: char, bytes: usize, gathered: Gathered) -> Result<Reader, Stop>
    ensures { JudgesNext (record { tail = Tail.Gap bytes; gathered = gathered }) (λ rest. Gap (bytes + length (encode_utf8 c)) ∷ rest) result }
{
    let size = c.len_utf8();
    let gathered = gathered.spend(size)?;
    Ok(Reader {
        tail: Tail::Gap(bytes.saturating_add(size)),
        gathered,
    })
}
