//! Opening an index file.
ghost use Rattle.std.specs.Prelude.{◌≡◌, ◌≤◌, false, length, IfOk, IfErr};
ghost use Rattle.std.specs.Option.{ForSome};
ghost use Rattle.cs_base.specs.declared.content.limits.TheConstants.{MAX_WORDS};
ghost use Rattle.cs_file.specs.CallAnswers.{IsDamageOf, is_read_of_open};
ghost use Rattle.cs_file.specs.HeaderView.{seen_header};
ghost use Rattle.cs_file.specs.Indexes.{StandsFor, HasAllBlocks, CausedReads};
ghost use Rattle.cs_file.specs.Opening.{Judges, bounds_judged, parts_judged};

use crate::directory::read_directory;
use crate::fault::OpenFault;
use crate::header::{Header, read_header};
use crate::index::Index;
use crate::judged::tried;
use crate::part::BlockPart;
use crate::parts::{bad_bound, bad_part, heads_by_parts};
use crate::places::places_of;
use crate::postings::read_blocks;
use crate::titles::read_titles;
use crate::vocabulary::read_vocabulary;
use crate::weights::weights_of;
use cs_base::{BlockHead, Store, Word};
use cs_vocab::Vocab;
use std::alloc::Global;

/// Opens the index file that a store holds: tests all its rules, and keeps words, offsets and heads.
///
/// The store is read in pieces of at most 65,536 bytes, each byte once.
pub fn open_index<S: Store>(alloc: Global, store: &mut S) -> Result<Index, OpenFault>
    // over a store that tells, an index is opened only where the bytes are an index file, and it is theirs
    ensures ok { ForSome (S.bytes store.old) (λ b. IfOk result (StandsFor b)) }
    // and it is refused by the first broken rule alone
    ensures damaged { ForSome (S.bytes store.old) (λ b. IfErr result (IsDamageOf b)) }
    ensures fits { IfOk result (HasAllBlocks (S.bytes store.new)) }
    ensures bytes { S.bytes store.new ≡ S.bytes store.old }
    ensures lent { S.lent store.new ≡ S.lent store.old }
    ensures caused { CausedReads (is_read_of_open result) (S.faults store.old) (S.faults store.new) }
{
    let header = read_header(alloc, store)?;
    let words = read_vocabulary(alloc, store, &header)?;
    let offsets = read_titles(alloc, store, &header)?;
    let named = read_directory(alloc, store, &header, words.as_slice())?;
    let parts = read_blocks(alloc, store, &header, &named)?;
    judge_parts(&header, words.as_slice(), &named, &parts)?;
    let heads = heads_by_parts(alloc, &parts)?;
    let places = places_of(alloc, heads.as_slice())?;
    Ok(Index {
        docs: header.docs,
        words: Vocab::from_words(words),
        offsets,
        heads,
        target: header.target,
        weights: weights_of(header.weights),
        titles_at: header.titles_at(),
        blocks_at: header.blocks_at(),
        places,
    })
}

// Tries rules 18 and 19 on blocks of these words whose heads the directory names so.
fn judge_parts(
    header: &Header,
    words: &[Word],
    named: &[BlockHead],
    parts: &[BlockPart],
) -> Result<(), OpenFault>
    requires few { length parts.now ≤ MAX_WORDS }
    requires count { length named.now ≡ length parts.now }

    ensures exact { Judges (parts_judged (seen_header header.now) words.now named.now parts.now) result }
    ensures unread { is_read_of_open result ≡ false }
{
    let place = bad_part(words, parts, header.target, header.entries());
    tried(18, place)?;
    judge_bounds(header, named, parts)
}

// Tries rule 19, where the directory names bounds.
fn judge_bounds(header: &Header, named: &[BlockHead], parts: &[BlockPart]) -> Result<(), OpenFault>
    requires few { length parts.now ≤ MAX_WORDS }
    requires count { length named.now ≡ length parts.now }

    ensures exact { Judges (bounds_judged (seen_header header.now) named.now parts.now) result }
    ensures unread { is_read_of_open result ≡ false }
{
    if header.two {
        return tried(19, bad_bound(parts, named, header.entries()));
    }
    Ok(())
}
