//! A line on standard error.
ghost use Rattle.std.specs.Prelude.{◌++◌, ◌∷◌, [], OnOk, OnErr};
ghost use Rattle.std.specs.List.{flat_map};
ghost use Rattle.cs_base.specs.outside.Causes.{Counted};
ghost use Rattle.cs_base.specs.outside.Outside.{Grew, GrewByPrefix};
ghost use Rattle.cs_docs.specs.FaultRefusals.{words_said};
ghost use Rattle.cs_indexing.specs.Views.{said_text};
ghost use Rattle.cs_indexing.specs.declared.said.Said.TheVariants as TheSaid;

use cs_base::{Failed, Sink};
use itoa::Buffer;

/// What is said on standard error.
#[derive(Clone, Copy, Debug, PartialEq, Eq)]
pub(crate) enum Said<'a> {
    /// Words of a file, of one of its lines, or of the whole run.
    Words {
        /// What they are said of, with a colon and a space; empty where it is the whole run.
        of: &'a [u8],
        /// The number of the line that they are said of, from 1.
        line: Option<u64>,
        /// What is said.
        words: &'a [u8],
    },
    /// A broken rule of the index file.
    Damage {
        /// The rule's number.
        rule: u8,
        /// The place at which it is broken.
        at: u64,
    },
    /// Index files aren't merged, since they were made for other targets.
    Targets {
        /// That of the first.
        first: u32,
        /// That of the second.
        second: u32,
    },
}

/// Puts the line. It takes no memory.
pub(crate) fn put_said<E: Sink>(err: &mut E, said: Said<'_>) -> Result<(), Failed>
    ensures ok { OnOk result (Grew (E.written err.old) (said_text said.entry) (E.written err.new)) }
    ensures err { OnErr result (GrewByPrefix (E.written err.old) (said_text said.entry) (E.written err.new)) }
    ensures counted { Counted (E.faults err.old) (E.faults err.new) result }
{
    match said {
        Said::Words { of, line, words } => put_words(err, of, line, words),
        Said::Damage { rule, at } => put_damage(err, rule, at),
        Said::Targets { first, second } => put_targets(err, first, second),
    }
}

fn put_words<E: Sink>(err: &mut E, of: &[u8], line: Option<u64>, words: &[u8]) -> Result<(), Failed>
    ensures ok { OnOk result (Grew (E.written err.old) (of.now ++ (words_said line words.now ++ 10 ∷ [])) (E.written err.new)) }
    ensures err { OnErr result (GrewByPrefix (E.written err.old) (of.now ++ (words_said line words.now ++ 10 ∷ [])) (E.written err.new)) }
    ensures counted { Counted (E.faults err.old) (E.faults err.new) result }
{
    match line {
        None => put_all(err, &[of, words, b"\n"]),
        Some(line) => {
            let mut digits = Buffer::new();
            let number = digits.format(line).as_bytes();
            put_all(err, &[of, b"line ", number, b": ", words, b"\n"])
        }
    }
}

fn put_damage<E: Sink>(err: &mut E, rule: u8, at: u64) -> Result<(), Failed>
    ensures ok { OnOk result (Grew (E.written err.old) (said_text (TheSaid.Damage rule at)) (E.written err.new)) }
    ensures err { OnErr result (GrewByPrefix (E.written err.old) (said_text (TheSaid.Damage rule at)) (E.written err.new)) }
    ensures counted { Counted (E.faults err.old) (E.faults err.new) result }
{
    let mut rule_digits = Buffer::new();
    let mut place_digits = Buffer::new();
    let rule = rule_digits.format(rule).as_bytes();
    let at = place_digits.format(at).as_bytes();
    put_all(err, &[b"index: rule ", rule, b" at ", at, b"\n"])
}

fn put_targets<E: Sink>(err: &mut E, first: u32, second: u32) -> Result<(), Failed>
    ensures ok { OnOk result (Grew (E.written err.old) (said_text (TheSaid.Targets first second)) (E.written err.new)) }
    ensures err { OnErr result (GrewByPrefix (E.written err.old) (said_text (TheSaid.Targets first second)) (E.written err.new)) }
    ensures counted { Counted (E.faults err.old) (E.faults err.new) result }
{
    let mut first_digits = Buffer::new();
    let mut second_digits = Buffer::new();
    let first = first_digits.format(first).as_bytes();
    let second = second_digits.format(second).as_bytes();
    put_all(
        err,
        &[b"merge: targets ", first, b" and ", second, b" differ\n"],
    )
}

/// Puts some pieces, one after another.
pub fn put_all<E: Sink>(err: &mut E, pieces: &[&[u8]]) -> Result<(), Failed>
    ensures ok { OnOk result (Grew (E.written err.old) (flat_map (λ p. p.now) pieces.now) (E.written err.new)) }
    ensures err { OnErr result (GrewByPrefix (E.written err.old) (flat_map (λ p. p.now) pieces.now) (E.written err.new)) }
    ensures counted { Counted (E.faults err.old) (E.faults err.new) result }
{
    for piece in pieces {
        err.put(piece)?;
    }
    Ok(())
}
