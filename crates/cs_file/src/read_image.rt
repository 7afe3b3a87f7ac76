//! Reading the whole image of an opened index.
ghost use Rattle.std.specs.Prelude.{◌≡◌, ℕ, ◌+◌, ◌<◌, ◌≤◌, ◌^◌, List, All, false, length, map, IfErr, IfOk};
ghost use Rattle.std.specs.List.{zip};
ghost use Rattle.std.specs.Option.{ForSome};
ghost use Rattle.cs_base.specs.declared.content.limits.TheConstants.{MAX_WORDS};
ghost use Rattle.cs_model_index.specs.FileRules.{tried};
ghost use Rattle.cs_model_index.specs.Layout.{entry_size};
ghost use Rattle.cs_model_index.specs.Sections.{image_of};
ghost use Rattle.cs_file.specs.CallAnswers.{is_changed, is_read};
ghost use Rattle.cs_file.specs.ImageSteps.{AreBlocksRead, AreTitlesRead, IsFilled, IsJudged, parts_break, block_parts};
ghost use Rattle.cs_file.specs.Indexes.{StandsFor, HasAllBlocks, CausedReads, titles_end};
ghost use Rattle.cs_file.specs.WholeImages.{IsChangeBy, IsFileImage, ReadsImage, directory_place, entry_bytes_of, image_break};
ghost use Rattle.cs_file.specs.Writable.{CanBeWritten};

use crate::entries::Entries;
use crate::fault::FetchFault;
use crate::image::Image;
use crate::index::Index;
use crate::part::BlockPart;
use crate::parts::{bad_bound, bad_part, block_part};
use crate::titles::last;
use cs_base::{BlockHead, Memory, Seq, Store, Text};
use cs_cols::Cols;
use cs_model_index::{BOUNDED_ENTRY_BYTES, ENTRY_BYTES};
use std::alloc::Global;

impl Index {
    /// The image that the index's file holds, read from the store from which the index was opened: all titles and all blocks.
    ///
    /// The rules of titles and blocks are tried again: 9, then 13 to 17 block by block, then 18, then 19 of the heads of the index.
    pub fn image<S: Store>(&self, alloc: Global, store: &mut S) -> Result<Image, FetchFault>
        requires fits { HasAllBlocks (S.bytes store.old) self.now }

        // over a store that tells, it is what is read where the index says, or the first rule that this breaks
        ensures exact { ForSome (S.bytes store.old) (λ b. ReadsImage self.now b result) }
        ensures stood { ForSome (S.bytes store.old) (λ b. StandsFor b self.now → IfOk result (λ im. im ≡ image_of b)) }
        ensures unchanged { ForSome (S.bytes store.old) (λ b. StandsFor b self.now → is_changed result ≡ false) }

        // over every store it is the image of an index file, and can be written
        ensures accepted { IfOk result IsFileImage }
        ensures writable { IfOk result CanBeWritten }
        ensures bytes { S.bytes store.new ≡ S.bytes store.old }
        ensures lent { S.lent store.new ≡ S.lent store.old }
        ensures caused { CausedReads (is_read result) (S.faults store.old) (S.faults store.new) }
    {
        let words = self.words.copy(alloc)?;
        let heads = copied(alloc, self.heads.as_slice())?;
        let titles = self.all_titles(alloc, store)?;
        let blocks = self.all_blocks(alloc, store)?;
        self.judge_blocks(alloc, blocks.as_slice())?;
        Ok(Image {
            titles,
            words,
            heads,
            blocks,
            target: self.target,
            weights: self.weights,
        })
    }

    // The titles of all documents. The first that isn't text is the first broken rule of the image.
    fn all_titles<S: Store>(&self, alloc: Global, store: &mut S) -> Result<Seq<Text>, FetchFault>
        requires fits { HasAllBlocks (S.bytes store.old) self.now }

        ensures ok { IfOk result (λ titles. AreTitlesRead self.now (S.bytes store.old) titles self.now.docs) }
        ensures changed { ForSome (S.bytes store.old) (λ b. IfErr result (IsChangeBy (image_break self.now b))) }
        ensures bytes { S.bytes store.new ≡ S.bytes store.old }
        ensures lent { S.lent store.new ≡ S.lent store.old }
        ensures caused { CausedReads (is_read result) (S.faults store.old) (S.faults store.new) }
    {
        let mut titles = Seq::new(alloc);
        for doc in 0..self.docs {
            titles.push(self.title(alloc, store, doc)?)?;
        }
        Ok(titles)
    }

    // The posts of all blocks. Where all titles are text, the first rule that a block breaks is the first broken rule of the image.
    fn all_blocks<S: Store>(&self, alloc: Global, store: &mut S) -> Result<Seq<Cols>, FetchFault>
        requires fits { HasAllBlocks (S.bytes store.old) self.now }

        ensures ok { IfOk result (λ blocks. AreBlocksRead self.now (S.bytes store.old) (map (λ c. c.posts) blocks) (length self.now.heads)) }
        ensures changed { (titles : List (List ℕ)) → AreTitlesRead self.now (S.bytes store.old) titles self.now.docs
            → ForSome (S.bytes store.old) (λ b. IfErr result (IsChangeBy (image_break self.now b))) }
        ensures bytes { S.bytes store.new ≡ S.bytes store.old }
        ensures lent { S.lent store.new ≡ S.lent store.old }
        ensures caused { CausedReads (is_read result) (S.faults store.old) (S.faults store.new) }
    {
        let mut blocks = Seq::new(alloc);
        for k in 0..self.heads.len() {
            let mut block = Cols::new(alloc);
            self.fetch(alloc, store, k as u32, &mut block)?;
            blocks.push(block)?;
        }
        Ok(blocks)
    }

    // Tries rules 18 and 19 on the posts of all blocks.
    fn judge_blocks(&self, alloc: Global, blocks: &[Cols]) -> Result<(), FetchFault>
        requires one_each { length blocks.now ≡ length self.now.heads }
        requires filled { All IsFilled (zip self.now.heads (map (λ c. c.posts) blocks.now)) }

        ensures exact { IsJudged (parts_break self.now (map (λ c. c.posts) blocks.now)) result }
        ensures few { IfOk result (λ _. titles_end self.now < 2 ^ 32) }
        ensures unread { is_read result ≡ false }
    {
        let heads = self.heads.as_slice();
        let entries = self.entries();
        let parts = all_parts(alloc, heads, blocks)?;
        let place = bad_part(self.words.as_slice(), &parts, self.target, entries);
        unchanged(18, place)?;
        unchanged(19, bad_bound(&parts, heads, entries))
    }

    // Where the entries of the directory lie. Their size is told by where the blocks begin.
    fn entries(&self) -> Entries
        ensures first { result.first ≡ directory_place self.now }
        ensures size { result.size ≡ entry_bytes_of self.now }
        ensures small { result.first < 2 ^ 40 }
        ensures few { titles_end self.now < 2 ^ 32 }
    {
        let first = self.titles_at + u64::from(last(self.offsets.as_slice()));
        let bounded = u64::from(BOUNDED_ENTRY_BYTES) * self.heads.len() as u64;
        Entries {
            first,
            size: entry_size(self.blocks_at == first + bounded),
        }
    }
}

// How many bytes an entry has, with bounds or without.
#[tactic(auto, unfolding(cs_model_index::specs::Layout::entry_size))]
fn entry_size(bounded: bool) -> u32
    ensures { result ≡ entry_size bounded }
{
    if bounded {
        BOUNDED_ENTRY_BYTES
    } else {
        ENTRY_BYTES
    }
}

// What rules 18 and 19 ask of the blocks of these heads.
fn all_parts(alloc: Global, heads: &[BlockHead], blocks: &[Cols]) -> Result<Vec<BlockPart>, Memory>
    requires one_each { length blocks.now ≡ length heads.now }
    requires filled { All IsFilled (zip heads.now (map (λ c. c.posts) blocks.now)) }

    ensures { IfOk result (λ v. v.items ≡ block_parts (zip heads.now (map (λ c. c.posts) blocks.now))) }
{
    let mut parts = Vec::with_capacity(alloc, heads.len())?;
    for k in 0..heads.len() {
        let block = &blocks[k];
        parts.push(block_part(alloc, &heads[k], block.docs(), block.words())?)?;
    }
    Ok(parts)
}

// The rule is broken at the place, if there is one.
fn unchanged(rule: u8, place: Option<u64>) -> Result<(), FetchFault>
    ensures judged { IsJudged (tried rule place) result }
    ensures unread { is_read result ≡ false }
{
    match place {
        Some(at) => Err(FetchFault::Changed { rule, at }),
        None => Ok(()),
    }
}

fn copied(alloc: Global, heads: &[BlockHead]) -> Result<Seq<BlockHead>, Memory>
    ensures { IfOk result (λ hs. hs ≡ heads.now) }
{
    let mut copy = Vec::with_capacity(alloc, heads.len())?;
    copy.extend_from_slice(heads)?;
    Ok(Seq::from_vec(copy))
}
