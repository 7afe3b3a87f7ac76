//! The rows of a part in hits, read from its atoms up. For an atom that is no join no block that no hit reaches is read.
ghost use Rattle.std.specs.Prelude.{◌≡◌, IfOk};
ghost use Rattle.cs_base.specs.outside.Causes.{ReadsWithin};
ghost use Rattle.cs_model.specs.Answers.{rows_of_atom, rows_of_chain, rows_of_part};
ghost use Rattle.cs_rows.specs.IndexReading.{division, AreWithin, HasRows, OnlyReads, WhereStood};
ghost use Rattle.cs_rows.specs.Restricting.{rows_where};
ghost use Rattle.cs_rows.specs.Skipping.{IsSieve, Lists, hit_of_atom, hit_of_chain, hit_of_part, lists_doc};
ghost use Rattle.cs_rows.specs.Sources.{seen};
ghost use Rattle.cs_rows.specs.Stocked.{corpus_in};

use crate::evaluation::rows_of_atom;
use crate::hits::kept_in;
use crate::parts::{add_list, linked_posts, united};
use crate::reading::rows_in_hits;
use crate::source::Source;
use cs_base::{Atom, Base, Chain, Part, Store};
use cs_cols::Cols;
use cs_file::FetchFault;
use std::alloc::Global;

/// The rows of a part in hits: those of some of its chains, each once.
pub(crate) fn rows_inside<I: Source, S: Store>(
    alloc: Global,
    index: &I,
    store: &mut S,
    hits: &Base,
    listed: &[bool],
    part: &Part,
) -> Result<Cols, FetchFault>
    requires sieve { IsSieve (S.bytes store.old) (I.view index.now) hits.now listed.now }
    requires lists { Lists (I.view index.now) hits.now listed.now }

    ensures told { WhereStood (S.bytes store.old) (I.view index.now).index
        (λ b. IfOk result (λ c. HasRows ((I.view index.now).stock b)
        (rows_where (lists_doc hits.now) (rows_of_part (corpus_in ((I.view index.now).stock b)) part.now).rows) c.posts)) }
    ensures within { IfOk result (λ c. AreWithin (seen (I.view index.now)) c.posts) }
    ensures store { OnlyReads S.bytes S.lent S.faults (I.view index.now).index store.old store.new result }
    ensures reads { ReadsWithin (hit_of_part (division (I.view index.now).index) hits.now part.now) (S.reads store.old) (S.reads store.new) }
{
    let mut lists = Vec::new(alloc);
    for chain in part.chains.as_slice() {
        let rows = rows_in_chain(alloc, index, store, hits, listed, chain)?;
        add_list(&mut lists, rows)?;
    }
    let all = united(alloc, lists)?;
    Ok(all)
}

// Link by link from the left, the rows in hits of each atom that are linked to a row kept so far. Behind an atom of which none is kept no
// other is read.
fn rows_in_chain<I: Source, S: Store>(
    alloc: Global,
    index: &I,
    store: &mut S,
    hits: &Base,
    listed: &[bool],
    chain: &Chain,
) -> Result<Cols, FetchFault>
    requires sieve { IsSieve (S.bytes store.old) (I.view index.now) hits.now listed.now }
    requires lists { Lists (I.view index.now) hits.now listed.now }

    ensures told { WhereStood (S.bytes store.old) (I.view index.now).index
        (λ b. IfOk result (λ c. HasRows ((I.view index.now).stock b)
        (rows_where (lists_doc hits.now) (rows_of_chain (corpus_in ((I.view index.now).stock b)) chain.now)) c.posts)) }
    ensures within { IfOk result (λ c. AreWithin (seen (I.view index.now)) c.posts) }
    ensures store { OnlyReads S.bytes S.lent S.faults (I.view index.now).index store.old store.new result }
    ensures reads { ReadsWithin (hit_of_chain (division (I.view index.now).index) hits.now chain.now) (S.reads store.old) (S.reads store.new) }
{
    let mut found = rows_in_atom(alloc, index, store, hits, listed, &chain.first)?;
    for linked in chain.rest.as_slice() {
        if found.len() == 0 {
            return Ok(found);
        }
        let next = rows_in_atom(alloc, index, store, hits, listed, &linked.atom)?;
        found = linked_posts(alloc, linked.link, &found, &next)?;
    }
    Ok(found)
}

// The rows of an atom in hits. Those of a join are read as without hits.
fn rows_in_atom<I: Source, S: Store>(
    alloc: Global,
    index: &I,
    store: &mut S,
    hits: &Base,
    listed: &[bool],
    atom: &Atom,
) -> Result<Cols, FetchFault>
    requires sieve { IsSieve (S.bytes store.old) (I.view index.now) hits.now listed.now }
    requires lists { Lists (I.view index.now) hits.now listed.now }

    ensures told { WhereStood (S.bytes store.old) (I.view index.now).index
        (λ b. IfOk result (λ c. HasRows ((I.view index.now).stock b)
        (rows_where (lists_doc hits.now) (rows_of_atom (corpus_in ((I.view index.now).stock b)) atom.now)) c.posts)) }
    ensures within { IfOk result (λ c. AreWithin (seen (I.view index.now)) c.posts) }
    ensures store { OnlyReads S.bytes S.lent S.faults (I.view index.now).index store.old store.new result }
    ensures reads { ReadsWithin (hit_of_atom (division (I.view index.now).index) hits.now atom.now) (S.reads store.old) (S.reads store.new) }
{
    match atom {
        Atom::Prefix(prefix) => {
            let words = index.range(prefix.as_str().as_bytes());
            rows_in_hits(alloc, index, store, words, hits, listed)
        }
        Atom::Exact(word) => {
            let words = index.range_of_word(word.as_str().as_bytes());
            rows_in_hits(alloc, index, store, words, hits, listed)
        }
        Atom::Join { .. } => {
            let rows = rows_of_atom(alloc, index, store, atom)?;
            let kept = kept_in(alloc, hits, rows)?;
            Ok(kept)
        }
    }
}
