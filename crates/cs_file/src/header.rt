//! The header of an index file.
ghost use Rattle.std.specs.Prelude.{◌≡◌, ◌+◌, ◌<◌, ◌≤◌, ◌^◌, ◌||◌, false, length, take, IfOk, OnOk};
ghost use Rattle.std.specs.Option.{ForSome};
ghost use Rattle.std.specs.Str.{bytes_eq};
ghost use Rattle.cs_model.specs.First.{first_reason};
ghost use Rattle.cs_model_index.specs.FileRules.{field_breaks};
ghost use Rattle.cs_model_index.specs.Sections.{number_at, header_of, offsets_at, titles_at, directory_at, blocks_at, size_by};
ghost use Rattle.cs_model_index.specs.Layout.{MAGIC, MAGIC2, entry_size};
ghost use Rattle.cs_model_index.specs.declared.limits.TheConstants.{BOUNDED_ENTRY_BYTES, HEADER_BYTES};
ghost use Rattle.cs_file.specs.CallAnswers.{is_read_of_open};
ghost use Rattle.cs_file.specs.HeaderView.{seen_header};
ghost use Rattle.cs_file.specs.Indexes.{CausedReads};
ghost use Rattle.cs_file.specs.Opening.{AreBytes, Judges, IsHeader, HasHeader, entries_of, header_stage, header_judged};

use crate::entries::Entries;
use crate::fault::OpenFault;
use crate::judged::{number_at, tried, unless};
use crate::reading::section;
use crate::weights::is_field;
use cs_base::{MAX_DOCS, MAX_ROWS, MAX_WORDS, Store};
use cs_model_index::{BOUNDED_ENTRY_BYTES, ENTRY_BYTES, HEADER_BYTES, MAX_TARGET, NUMBER_BYTES};
use std::alloc::Global;

/// The first bytes of an index file of version 1.
pub(crate) const MAGIC: [u8; 8] = *b"HYBIDX1\n";

/// The first bytes of one of version 2.
pub(crate) const MAGIC2: [u8; 8] = *b"HYBIDX2\n";

/// The version of a file, and the numbers of its header.
#[derive(Clone, Copy, Drop)]
pub(crate) struct Header {
    /// Whether it is of version 2.
    pub(crate) two: bool,
    /// How many documents there are.
    pub(crate) docs: u32,
    /// How many words there are.
    pub(crate) words: u32,
    /// How many rows there are.
    pub(crate) rows: u32,
    /// How many blocks there are.
    pub(crate) blocks: u32,
    /// The most rows of a block of several words.
    pub(crate) target: u32,
    /// The bytes of the vocabulary.
    pub(crate) vocabulary_len: u32,
    /// The bytes of the titles.
    pub(crate) titles_len: u32,
    /// The bytes of the blocks.
    pub(crate) blocks_len: u32,
    /// The number that stands for the weights of the rows.
    pub(crate) weights: u32,
}

impl Header {
    /// How many bytes the directory has for a block.
    #[tactic(auto, unfolding(cs_model_index::specs::Layout::entry_size))]
    pub(crate) fn entry_bytes(&self) -> u32
        ensures value { result ≡ entry_size self.now.two }
        ensures small { result ≤ BOUNDED_ENTRY_BYTES }
    {
        if self.two {
            BOUNDED_ENTRY_BYTES
        } else {
            ENTRY_BYTES
        }
    }

    /// Where the entries of the directory lie.
    pub(crate) fn entries(&self) -> Entries
        ensures value { result ≡ entries_of (seen_header self.now) }
        ensures small { result.first < 2 ^ 36 }
    {
        Entries {
            first: self.directory_at(),
            size: self.entry_bytes(),
        }
    }

    /// The place of the title offsets.
    pub(crate) fn offsets_at(&self) -> u64
        ensures value { result ≡ offsets_at (seen_header self.now) }
        ensures small { result < 2 ^ 33 }
    {
        u64::from(HEADER_BYTES) + u64::from(self.vocabulary_len)
    }

    /// The place of the titles.
    pub(crate) fn titles_at(&self) -> u64
        ensures value { result ≡ titles_at (seen_header self.now) }
        ensures small { result < 2 ^ 35 }
    {
        self.offsets_at() + u64::from(NUMBER_BYTES) * (u64::from(self.docs) + 1)
    }

    /// The place of the directory.
    pub(crate) fn directory_at(&self) -> u64
        ensures value { result ≡ directory_at (seen_header self.now) }
        ensures small { result < 2 ^ 36 }
    {
        self.titles_at() + u64::from(self.titles_len)
    }

    /// The place of the blocks.
    pub(crate) fn blocks_at(&self) -> u64
        ensures value { result ≡ blocks_at (seen_header self.now) }
        ensures small { result < 2 ^ 38 }
    {
        self.directory_at() + u64::from(self.entry_bytes()) * u64::from(self.blocks)
    }

    /// The size of the file.
    pub(crate) fn size(&self) -> u64
        ensures value { result ≡ size_by (seen_header self.now) }
        ensures small { result < 2 ^ 39 }
    {
        self.blocks_at() + u64::from(self.blocks_len)
    }
}

/// Reads the header, and tries rules 1 to 4.
pub(crate) fn read_header<S: Store>(alloc: Global, store: &mut S) -> Result<Header, OpenFault>
    ensures exact { ForSome (S.bytes store.old) (λ b. Judges (header_stage b) result) }
    ensures told { IfOk result (λ h. HasHeader (S.bytes store.old) (seen_header h)) }
    ensures ranges { IfOk result (λ h. IsHeader (seen_header h)) }
    ensures small { ForSome (S.bytes store.old) (λ b. OnOk result (AreBytes b 0 HEADER_BYTES)) }
    ensures bytes { S.bytes store.new ≡ S.bytes store.old }
    ensures lent { S.lent store.new ≡ S.lent store.old }
    ensures caused { CausedReads (is_read_of_open result) (S.faults store.old) (S.faults store.new) }
{
    let Ok(size) = store.size() else {
        return Err(OpenFault::Read);
    };
    tried(1, unless(u64::from(HEADER_BYTES) <= size, size))?;
    let bytes = section(alloc, store, 0, HEADER_BYTES as usize)?;
    judge_header(&bytes, size)
}

// Tries rules 2 to 4 on the bytes of a header, over a file of this size.
fn judge_header(bytes: &[u8], size: u64) -> Result<Header, OpenFault>
    requires { length bytes.now ≡ HEADER_BYTES }

    ensures exact { Judges (header_judged bytes.now size) result }
    ensures numbers { IfOk result (λ h. header_of bytes.now ≡ seen_header h) }
    ensures size { IfOk result (λ h. size ≡ size_by (seen_header h)) }
    ensures ranges { IfOk result (λ h. IsHeader (seen_header h)) }
    ensures unread { is_read_of_open result ≡ false }
{
    tried(2, unless(is_known(bytes), 0))?;
    let header = header_in(bytes);
    tried(3, broken_field(&header))?;
    tried(4, unless(size == header.size(), size))?;
    Ok(header)
}

// Whether the first bytes are those of one of the versions.
fn is_known(bytes: &[u8]) -> bool
    requires { length bytes.now ≡ HEADER_BYTES }

    ensures { result ≡ (bytes_eq (take 8 bytes.now) MAGIC || bytes_eq (take 8 bytes.now) MAGIC2) }
{
    bytes[..MAGIC.len()] == MAGIC[..] || bytes[..MAGIC2.len()] == MAGIC2[..]
}

// The version and the numbers of a header, whatever they are.
fn header_in(bytes: &[u8]) -> Header
    requires { length bytes.now ≡ HEADER_BYTES }

    ensures numbers { seen_header result ≡ header_of bytes.now }
    ensures small { (result.vocabulary_len < 2 ^ 32) × (result.titles_len < 2 ^ 32) × (result.blocks_len < 2 ^ 32) }
{
    Header {
        two: bytes[..MAGIC2.len()] == MAGIC2[..],
        docs: number_at(bytes, 8),
        words: number_at(bytes, 12),
        rows: number_at(bytes, 16),
        blocks: number_at(bytes, 20),
        target: number_at(bytes, 24),
        vocabulary_len: number_at(bytes, 28),
        titles_len: number_at(bytes, 32),
        blocks_len: number_at(bytes, 36),
        weights: number_at(bytes, 40),
    }
}

// The place of the first number that is out of its range.
fn broken_field(header: &Header) -> Option<u64>
    ensures { result ≡ first_reason (field_breaks (seen_header header.now)) }
{
    let in_range = 1 <= header.target && header.target <= MAX_TARGET;
    unless(header.docs as usize <= MAX_DOCS, 8)
        .or(unless(header.words as usize <= MAX_WORDS, 12))
        .or(unless(header.rows as usize <= MAX_ROWS, 16))
        .or(unless(header.blocks <= header.words, 20))
        .or(unless(in_range, 24))
        .or(unless(is_field(header.weights), 40))
}
