//! Writing an index file.
ghost use Rattle.std.specs.Prelude.{◌≡◌, ◌∷◌, ◌++◌, ◌≤◌, ◌<◌, ◌^◌, true, OnOk, OnErr, length, map, All};
ghost use Rattle.std.specs.List.{flat_map, zip};
ghost use Rattle.cs_base.specs.outside.Outside.{Grew, GrewByPrefix};
ghost use Rattle.cs_model_index.specs.Blocks.{AreWritable, block_bytes};
ghost use Rattle.cs_model_index.specs.Layout.{file, number_bytes, header_bytes, header_of_image, vocabulary_bytes, offset_bytes, title_bytes, entry_bytes};
ghost use Rattle.cs_model_index.specs.Layout.{directory_bytes, blocks_bytes};
ghost use Rattle.cs_file.specs.CallAnswers.{is_sink};
ghost use Rattle.cs_file.specs.Indexes.{CausedReads};
ghost use Rattle.cs_file.specs.Putting.{HasPut};
ghost use Rattle.cs_file.specs.Writable.{CanBeWritten, BlockFits};

use crate::fault::WriteFault;
use crate::header::MAGIC2;
use crate::image::Image;
use crate::putting::{put_bytes, put_full, put_pieces};
use crate::sizes::numbers_of;
use cs_base::{BlockHead, Sink, Text};
use cs_block::encode;
use cs_cols::Cols;
use cs_vocab::Vocab;
use std::alloc::Global;

/// Puts the bytes of an image's index file, of version 2, piece by piece. Where it doesn't put all of them, it put some first ones.
///
/// A put has at most 65,536 bytes. Beside them no more than the bytes of one block or one title are held.
pub fn write_index<S: Sink>(alloc: Global, image: &Image, out: &mut S) -> Result<(), WriteFault>
    requires { CanBeWritten image.now }

    ensures ok { OnOk result (Grew (S.written out.old) (file image.now) (S.written out.new)) }
    ensures err { OnErr result (GrewByPrefix (S.written out.old) (file image.now) (S.written out.new)) }
    ensures lent { S.lent out.new ≡ S.lent out.old }
    ensures caused { CausedReads (is_sink result) (S.faults out.old) (S.faults out.new) }
{
    let mut held = Vec::new(alloc);
    put_sections(image, &mut held, out)?;
    put_pieces(&held, out)
}

fn put_sections<S: Sink>(image: &Image, held: &mut Vec<u8>, out: &mut S) -> Result<(), WriteFault>
    requires { CanBeWritten image.now }

    ensures ok { OnOk result (HasPut (S.written out.old) held.old.items (file image.now) (S.written out.new) held.new.items) }
    ensures err { OnErr result (GrewByPrefix (S.written out.old) (held.old.items ++ file image.now) (S.written out.new)) }
    ensures lent { S.lent out.new ≡ S.lent out.old }
    ensures caused { CausedReads (is_sink result) (S.faults out.old) (S.faults out.new) }
{
    let titles = image.titles.as_slice();
    let heads = image.heads.as_slice();
    let blocks = image.blocks.as_slice();
    put_header(image, held, out)?;
    put_vocabulary(&image.words, held, out)?;
    put_offsets(titles, held, out)?;
    put_titles(titles, held, out)?;
    put_directory(heads, held, out)?;
    put_blocks(heads, blocks, held, out)
}

fn put_header<S: Sink>(image: &Image, held: &mut Vec<u8>, out: &mut S) -> Result<(), WriteFault>
    requires { CanBeWritten image.now }

    ensures ok { OnOk result (HasPut (S.written out.old) held.old.items (header_bytes (header_of_image true image.now)) (S.written out.new) held.new.items) }
    ensures err { OnErr result (GrewByPrefix (S.written out.old) (held.old.items ++ header_bytes (header_of_image true image.now)) (S.written out.new)) }
    ensures lent { S.lent out.new ≡ S.lent out.old }
    ensures caused { CausedReads (is_sink result) (S.faults out.old) (S.faults out.new) }
{
    put_bytes(&MAGIC2, held, out)?;
    put_numbers(&numbers_of(image), held, out)
}

// Puts numbers of four bytes.
fn put_numbers<S: Sink>(numbers: &[u32], held: &mut Vec<u8>, out: &mut S) -> Result<(), WriteFault>
    ensures ok { OnOk result (HasPut (S.written out.old) held.old.items (flat_map number_bytes numbers.now) (S.written out.new) held.new.items) }
    ensures err { OnErr result (GrewByPrefix (S.written out.old) (held.old.items ++ flat_map number_bytes numbers.now) (S.written out.new)) }
    ensures lent { S.lent out.new ≡ S.lent out.old }
    ensures caused { CausedReads (is_sink result) (S.faults out.old) (S.faults out.new) }
{
    for number in numbers {
        put_bytes(&number.to_be_bytes(), held, out)?;
    }
    Ok(())
}

fn put_vocabulary<S: Sink>(words: &Vocab, held: &mut Vec<u8>, out: &mut S) -> Result<(), WriteFault>
    ensures ok { OnOk result (HasPut (S.written out.old) held.old.items (vocabulary_bytes words.now) (S.written out.new) held.new.items) }
    ensures err { OnErr result (GrewByPrefix (S.written out.old) (held.old.items ++ vocabulary_bytes words.now) (S.written out.new)) }
    ensures lent { S.lent out.new ≡ S.lent out.old }
    ensures caused { CausedReads (is_sink result) (S.faults out.old) (S.faults out.new) }
{
    for n in 0..words.len() {
        put_word(words.word_len(n), words.word(n), held, out)?;
    }
    Ok(())
}

// Puts a length, and a word behind it.
fn put_word<S: Sink>(
    len: u8,
    word: &[u8],
    held: &mut Vec<u8>,
    out: &mut S,
) -> Result<(), WriteFault>
    ensures ok { OnOk result (HasPut (S.written out.old) held.old.items (len ∷ word.now) (S.written out.new) held.new.items) }
    ensures err { OnErr result (GrewByPrefix (S.written out.old) (held.old.items ++ len ∷ word.now) (S.written out.new)) }
    ensures lent { S.lent out.new ≡ S.lent out.old }
    ensures caused { CausedReads (is_sink result) (S.faults out.old) (S.faults out.new) }
{
    put_bytes(&[len], held, out)?;
    put_bytes(word, held, out)
}

// Puts where each title begins among the titles' bytes, and where the last one ends.
fn put_offsets<S: Sink>(titles: &[Text], held: &mut Vec<u8>, out: &mut S) -> Result<(), WriteFault>
    requires { length (title_bytes titles.now) < 2 ^ 32 }

    ensures ok { OnOk result (HasPut (S.written out.old) held.old.items (offset_bytes titles.now) (S.written out.new) held.new.items) }
    ensures err { OnErr result (GrewByPrefix (S.written out.old) (held.old.items ++ offset_bytes titles.now) (S.written out.new)) }
    ensures lent { S.lent out.new ≡ S.lent out.old }
    ensures caused { CausedReads (is_sink result) (S.faults out.old) (S.faults out.new) }
{
    let mut at: u32 = 0;
    put_bytes(&at.to_be_bytes(), held, out)?;
    for title in titles {
        at += title.len() as u32;
        put_bytes(&at.to_be_bytes(), held, out)?;
    }
    Ok(())
}

fn put_titles<S: Sink>(titles: &[Text], held: &mut Vec<u8>, out: &mut S) -> Result<(), WriteFault>
    ensures ok { OnOk result (HasPut (S.written out.old) held.old.items (title_bytes titles.now) (S.written out.new) held.new.items) }
    ensures err { OnErr result (GrewByPrefix (S.written out.old) (held.old.items ++ title_bytes titles.now) (S.written out.new)) }
    ensures lent { S.lent out.new ≡ S.lent out.old }
    ensures caused { CausedReads (is_sink result) (S.faults out.old) (S.faults out.new) }
{
    for title in titles {
        put_bytes(title.as_str().as_bytes(), held, out)?;
    }
    Ok(())
}

fn put_directory<S: Sink>(
    heads: &[BlockHead],
    held: &mut Vec<u8>,
    out: &mut S,
) -> Result<(), WriteFault>
    ensures ok { OnOk result (HasPut (S.written out.old) held.old.items (directory_bytes true heads.now) (S.written out.new) held.new.items) }
    ensures err { OnErr result (GrewByPrefix (S.written out.old) (held.old.items ++ directory_bytes true heads.now) (S.written out.new)) }
    ensures lent { S.lent out.new ≡ S.lent out.old }
    ensures caused { CausedReads (is_sink result) (S.faults out.old) (S.faults out.new) }
{
    for head in heads {
        put_numbers(
            &[
                head.lo,
                head.words,
                head.rows,
                head.len,
                head.least,
                head.greatest,
            ],
            held,
            out,
        )?;
    }
    Ok(())
}

fn put_blocks<S: Sink>(
    heads: &[BlockHead],
    blocks: &[Cols],
    held: &mut Vec<u8>,
    out: &mut S,
) -> Result<(), WriteFault>
    requires one_each { length heads.now ≡ length blocks.now }
    requires fit { All BlockFits (zip heads.now (map (λ c. c.posts) blocks.now)) }

    ensures ok { OnOk result (HasPut (S.written out.old) held.old.items (blocks_bytes heads.now (map (λ c. c.posts) blocks.now))
        (S.written out.new) held.new.items) }
    ensures err { OnErr result (GrewByPrefix (S.written out.old) (held.old.items ++ blocks_bytes heads.now (map (λ c. c.posts) blocks.now))
        (S.written out.new)) }
    ensures lent { S.lent out.new ≡ S.lent out.old }
    ensures caused { CausedReads (is_sink result) (S.faults out.old) (S.faults out.new) }
{
    for i in 0..heads.len() {
        put_block(&blocks[i], heads[i].lo, held, out)?;
    }
    Ok(())
}

// Puts the bytes of a block.
fn put_block<S: Sink>(
    block: &Cols,
    lo: u32,
    held: &mut Vec<u8>,
    out: &mut S,
) -> Result<(), WriteFault>
    requires { AreWritable lo block.now.posts }

    ensures ok { OnOk result (HasPut (S.written out.old) held.old.items (block_bytes block.now.posts lo) (S.written out.new) held.new.items) }
    ensures err { OnErr result (GrewByPrefix (S.written out.old) (held.old.items ++ block_bytes block.now.posts lo) (S.written out.new)) }
    ensures lent { S.lent out.new ≡ S.lent out.old }
    ensures caused { CausedReads (is_sink result) (S.faults out.old) (S.faults out.new) }
{
    encode(block, lo, held)?;
    put_full(held, out)
}
