//! Parts that ask for the words from one number up to another: those of chains of one atom each, none a join, with no word between theirs.
ghost use Rattle.std.specs.Prelude.{◌≡◌, true, false, IfSome};
ghost use Rattle.cs_base.specs.declared.content.query.Part.{out-Part};
ghost use Rattle.cs_model.specs.Answers.{rows_of_atom, rows_of_chain, rows_of_part};
ghost use Rattle.cs_model_kept.specs.Due.{met_of_atom, met_of_chain, met_of_part};
ghost use Rattle.cs_rows.specs.IndexReading.{division};
ghost use Rattle.cs_rows.specs.Plain.{AreJoined, AreSharp, AreWordsOf, IsInside};
ghost use Rattle.cs_rows.specs.Skipping.{hit_of_atom, hit_of_chain, hit_of_part};
ghost use Rattle.cs_rows.specs.Sources.{IsSource};

use crate::source::Source;
use cs_base::{Atom, Chain, Part};

/// The words that a part asks for, where it is positive and each of its chains is one atom that is no join: from one number up to another,
/// which is left out. No word lies between those of a chain and those of the chains before it, as they are written.
pub fn words_of_part<I: Source>(index: &I, part: &Part) -> Option<(u32, u32)>
    requires index { IsSource (I.view index.now) }

    ensures positive { IfSome result (λ w. (out-Part part.now).excluded ≡ false) }
    ensures words { IfSome result (λ w. AreWordsOf (I.view index.now) (met_of_part (division (I.view index.now).index) part.now)
        (λ k. (rows_of_part k part.now).rows) w.0 w.1) }
    ensures sharp { IfSome result (λ w. AreSharp (I.view index.now) (λ b. hit_of_part (division (I.view index.now).index) b part.now) w.0 w.1) }
{
    if part.excluded {
        return None;
    }
    let mut words = (0, 0);
    for chain in part.chains.as_slice() {
        let more = words_of_chain(index, chain)?;
        words = joined(words, more)?;
    }
    Some(words)
}

// Two ranges of words as one, where one is inside the other or ends where the other begins.
fn joined(words: (u32, u32), more: (u32, u32)) -> Option<(u32, u32)>
    ensures { IfSome result (AreJoined words more) }
{
    if is_inside(more, words) {
        return Some(words);
    }
    if is_inside(words, more) {
        return Some(more);
    }
    if words.1 == more.0 {
        return Some((words.0, more.1));
    }
    if more.1 == words.0 {
        return Some((more.0, words.1));
    }
    None
}

fn is_inside(words: (u32, u32), others: (u32, u32)) -> bool
    ensures { result ≡ true → IsInside words others }
{
    words.0 == words.1 || (others.0 <= words.0 && words.1 <= others.1)
}

fn words_of_chain<I: Source>(index: &I, chain: &Chain) -> Option<(u32, u32)>
    requires index { IsSource (I.view index.now) }

    ensures words { IfSome result (λ w. AreWordsOf (I.view index.now) (met_of_chain (division (I.view index.now).index) chain.now)
        (λ k. rows_of_chain k chain.now) w.0 w.1) }
    ensures sharp { IfSome result (λ w. AreSharp (I.view index.now) (λ b. hit_of_chain (division (I.view index.now).index) b chain.now) w.0 w.1) }
{
    if chain.rest.as_slice().is_empty() {
        return words_of_atom(index, &chain.first);
    }
    None
}

fn words_of_atom<I: Source>(index: &I, atom: &Atom) -> Option<(u32, u32)>
    requires index { IsSource (I.view index.now) }

    ensures words { IfSome result (λ w. AreWordsOf (I.view index.now) (met_of_atom (division (I.view index.now).index) atom.now)
        (λ k. rows_of_atom k atom.now) w.0 w.1) }
    ensures sharp { IfSome result (λ w. AreSharp (I.view index.now) (λ b. hit_of_atom (division (I.view index.now).index) b atom.now) w.0 w.1) }
{
    match atom {
        Atom::Prefix(prefix) => Some(index.range(prefix.as_str().as_bytes())),
        Atom::Exact(word) => Some(index.range_of_word(word.as_str().as_bytes())),
        Atom::Join { .. } => None,
    }
}
