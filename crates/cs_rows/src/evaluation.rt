//! The rows of a part, read from its atoms up.
ghost use Rattle.std.specs.Prelude.{◌≡◌, IfOk};
ghost use Rattle.cs_base.specs.{content.Orders.{AreDocs}, outside.Causes.{ReadsWithin}};
ghost use Rattle.cs_model.specs.Answers.{hits, parts_of, rows_of_atom, rows_of_chain, rows_of_part};
ghost use Rattle.cs_model_kept.specs.Due.{met_of_atom, met_of_chain, met_of_part, met_of_query};
ghost use Rattle.cs_rows.specs.IndexReading.{division, AreWithin, HasRows, OnlyReads, WhereStood};
ghost use Rattle.cs_rows.specs.Sources.{CanRead, seen};
ghost use Rattle.cs_rows.specs.Stocked.{corpus_in};

use crate::entries::{agreeing, docs_of_base};
use crate::parts::{add_list, linked_posts, united};
use crate::reading::rows_between;
use crate::source::Source;
use crate::words::range_of_facet;
use cs_base::{Atom, Base, Chain, Part, Query, Store};
use cs_cols::Cols;
use cs_file::FetchFault;
use cs_join::shared;
use std::alloc::Global;

// The rows of a part: those of some of its chains, each once.
#[cycle(evaluation)]
fn rows_of_part<I: Source, S: Store>(
    alloc: Global,
    index: &I,
    store: &mut S,
    part: &Part,
) -> Result<Cols, FetchFault>
    requires opened { CanRead (S.bytes store.old) (I.view index.now) }

    ensures told { WhereStood (S.bytes store.old) (I.view index.now).index
        (λ b. IfOk result (λ c. HasRows ((I.view index.now).stock b) (rows_of_part (corpus_in ((I.view index.now).stock b)) part.now).rows c.posts)) }
    ensures within { IfOk result (λ c. AreWithin (seen (I.view index.now)) c.posts) }
    ensures store { OnlyReads S.bytes S.lent S.faults (I.view index.now).index store.old store.new result }
    ensures reads { ReadsWithin (met_of_part (division (I.view index.now).index) part.now) (S.reads store.old) (S.reads store.new) }
{
    let mut lists = Vec::new(alloc);
    for chain in part.chains.as_slice() {
        let rows = rows_of_chain(alloc, index, store, chain)?;
        add_list(&mut lists, rows)?;
    }
    let all = united(alloc, lists)?;
    Ok(all)
}

// Link by link from the left, the rows of each atom that are linked to a row kept so far. Behind an atom of which none is kept no other is
// read.
#[cycle(evaluation)]
fn rows_of_chain<I: Source, S: Store>(
    alloc: Global,
    index: &I,
    store: &mut S,
    chain: &Chain,
) -> Result<Cols, FetchFault>
    requires opened { CanRead (S.bytes store.old) (I.view index.now) }

    ensures told { WhereStood (S.bytes store.old) (I.view index.now).index
        (λ b. IfOk result (λ c. HasRows ((I.view index.now).stock b) (rows_of_chain (corpus_in ((I.view index.now).stock b)) chain.now) c.posts)) }
    ensures within { IfOk result (λ c. AreWithin (seen (I.view index.now)) c.posts) }
    ensures store { OnlyReads S.bytes S.lent S.faults (I.view index.now).index store.old store.new result }
    ensures reads { ReadsWithin (met_of_chain (division (I.view index.now).index) chain.now) (S.reads store.old) (S.reads store.new) }
{
    let mut found = rows_of_atom(alloc, index, store, &chain.first)?;
    for linked in chain.rest.as_slice() {
        if found.len() == 0 {
            return Ok(found);
        }
        let next = rows_of_atom(alloc, index, store, &linked.atom)?;
        found = linked_posts(alloc, linked.link, &found, &next)?;
    }
    Ok(found)
}

/// The rows of an atom. Those of a join share their word with a row in a hit of the query in its bracket.
#[cycle(evaluation)]
pub(crate) fn rows_of_atom<I: Source, S: Store>(
    alloc: Global,
    index: &I,
    store: &mut S,
    atom: &Atom,
) -> Result<Cols, FetchFault>
    requires opened { CanRead (S.bytes store.old) (I.view index.now) }

    ensures told { WhereStood (S.bytes store.old) (I.view index.now).index
        (λ b. IfOk result (λ c. HasRows ((I.view index.now).stock b) (rows_of_atom (corpus_in ((I.view index.now).stock b)) atom.now) c.posts)) }
    ensures within { IfOk result (λ c. AreWithin (seen (I.view index.now)) c.posts) }
    ensures store { OnlyReads S.bytes S.lent S.faults (I.view index.now).index store.old store.new result }
    ensures reads { ReadsWithin (met_of_atom (division (I.view index.now).index) atom.now) (S.reads store.old) (S.reads store.new) }
{
    match atom {
        Atom::Prefix(prefix) => {
            let words = index.range(prefix.as_str().as_bytes());
            rows_between(alloc, index, store, words)
        }
        Atom::Exact(word) => {
            let words = index.range_of_word(word.as_str().as_bytes());
            rows_between(alloc, index, store, words)
        }
        Atom::Join { name, inner } => {
            let docs = docs_of_hits(alloc, index, store, inner)?;
            let words = range_of_facet(alloc, index, name)?;
            if docs.len() == 0 {
                return Ok(Cols::new(alloc));
            }
            let rows = rows_between(alloc, index, store, words)?;
            let kept = shared(alloc, &rows, docs.as_slice())?;
            Ok(kept)
        }
    }
}

// The documents that are hits of a query.
#[cycle(evaluation)]
fn docs_of_hits<I: Source, S: Store>(
    alloc: Global,
    index: &I,
    store: &mut S,
    query: &Query,
) -> Result<Vec<u32>, FetchFault>
    requires opened { CanRead (S.bytes store.old) (I.view index.now) }

    ensures told { WhereStood (S.bytes store.old) (I.view index.now).index
        (λ b. IfOk result (λ v. v.items ≡ hits (corpus_in ((I.view index.now).stock b)) (parts_of (corpus_in ((I.view index.now).stock b)) query.now))) }
    ensures sorted { IfOk result (λ v. AreDocs v.items) }
    ensures store { OnlyReads S.bytes S.lent S.faults (I.view index.now).index store.old store.new result }
    ensures reads { ReadsWithin (met_of_query (division (I.view index.now).index) query.now) (S.reads store.old) (S.reads store.new) }
{
    let mut hits = Base::All;
    for part in query.parts.as_slice() {
        let rows = rows_of_part(alloc, index, store, part)?;
        hits = agreeing(alloc, index, &hits, part.excluded, rows)?;
    }
    let docs = docs_of_base(alloc, index, &hits)?;
    Ok(docs)
}
