//! The words of columns, gathered one by one.
ghost use Rattle.std.specs.Prelude.{◌≡◌, ◌+◌, ◌≤◌, ◌<◌, [], ◌∷◌, ◌++◌, length, take, chars, IfOk, OnOk, IsAscii, IsErrOf};
ghost use Rattle.cs_base.specs.declared.content.limits.TheConstants.{MAX_NAME_BYTES, MAX_PLAIN_WORD_BYTES, MAX_ROWS, MAX_WORD_BYTES};
ghost use Rattle.cs_docs.specs.FacetPieces.{AreNamed};
ghost use Rattle.cs_docs.specs.Listing.{listed_facets};
ghost use Rattle.cs_docs.specs.declared.fault.RowsFault.{RowsFault};
ghost use Rattle.cs_model.specs.Collection.{facet_pieces, named};
ghost use Rattle.cs_model.specs.Words.{words, words_of};
ghost use Rattle.cs_vocab.specs.Gathering.{gathered};
ghost use Rattle.cs_build.specs.RowColumns.{IsRowGathering};

use cs_base::{MAX_ROWS, MAX_WORD_BYTES, Word};
use cs_docs::{RowsFault, listed_facets, lone_facet};
use cs_text::{first_word, is_plain_key, norm, words};
use cs_vocab::Gathering;
use std::alloc::Global;

/// Adds the facet words of a column at the end, each once, by bytes, and says how many there are.
pub(crate) fn add_facets(
    alloc: Global,
    gathering: &mut Gathering,
    column: &str,
) -> Result<u32, RowsFault>
    requires is { IsRowGathering gathering.old }
    requires named { AreNamed (facet_pieces column.now) }

    ensures ok { IfOk result (λ n. n ≡ length (listed_facets column.now)) }
    ensures words { OnOk result (gathered gathering.new ≡ gathered gathering.old ++ listed_facets column.now) }
    ensures is { OnOk result (IsRowGathering gathering.new) }
    ensures too_many { IsErrOf result RowsFault.TooManyRows → MAX_ROWS < length (gathered gathering.old) + length (listed_facets column.now) }
{
    if let Some((name, value)) = lone_facet(column) {
        add_named(alloc, gathering, name, value)?;
        return Ok(1);
    }
    let facets = listed_facets(alloc, column)?;
    add_all(alloc, gathering, &facets)
}

// Adds the word `:name:value` at the end.
fn add_named(
    alloc: Global,
    gathering: &mut Gathering,
    name: &str,
    value: &str,
) -> Result<(), RowsFault>
    requires is { IsRowGathering gathering.old }
    requires name { length name.now ≤ MAX_NAME_BYTES }
    requires value { length value.now ≤ MAX_PLAIN_WORD_BYTES }

    ensures word { OnOk result (gathered gathering.new ≡ gathered gathering.old ++ named name.now value.now ∷ []) }
    ensures is { OnOk result (IsRowGathering gathering.new) }
    ensures too_many { IsErrOf result RowsFault.TooManyRows → MAX_ROWS ≤ length (gathered gathering.old) }
{
    let mut bytes = [0; MAX_WORD_BYTES];
    let len = write_named(&mut bytes, name.as_bytes(), value.as_bytes());
    add(alloc, gathering, &bytes[..len])
}

// Writes the word `:name:value` in front, and says how many bytes it has.
fn write_named(bytes: &mut [u8], name: &[u8], value: &[u8]) -> usize
    requires room { 2 + length name.now + length value.now ≤ length bytes.old }

    ensures word { take result bytes.new ≡ named name.now value.now }
    ensures len { result ≡ 2 + length name.now + length value.now }
    ensures same { length bytes.new ≡ length bytes.old }
{
    let colon = write_at(bytes, 0, b":");
    let behind = write_at(bytes, colon, name);
    let second = write_at(bytes, behind, b":");
    write_at(bytes, second, value)
}

// Writes a piece behind the first `at` bytes, and gives the place behind it.
#[inline]
fn write_at(bytes: &mut [u8], at: usize, piece: &[u8]) -> usize
    requires room { at + length piece.now ≤ length bytes.old }

    ensures front { take result bytes.new ≡ take at bytes.old ++ piece.now }
    ensures behind { result ≡ at + length piece.now }
    ensures same { length bytes.new ≡ length bytes.old }
{
    let end = at + piece.len();
    bytes[at..end].copy_from_slice(piece);
    end
}

/// Adds the words of a column at the end, and says how many there are.
///
/// Those of ASCII text are cut without a list of them, and where it is its own key text also without a copy.
pub(crate) fn add_words(
    alloc: Global,
    gathering: &mut Gathering,
    column: &str,
) -> Result<u32, RowsFault>
    requires is { IsRowGathering gathering.old }

    ensures ok { IfOk result (λ n. n ≡ length (words column.now)) }
    ensures words { OnOk result (gathered gathering.new ≡ gathered gathering.old ++ words column.now) }
    ensures is { OnOk result (IsRowGathering gathering.new) }
    ensures too_many { IsErrOf result RowsFault.TooManyRows → MAX_ROWS < length (gathered gathering.old) + length (words column.now) }
{
    if is_plain_key(column) {
        return add_ascii(alloc, gathering, column.as_bytes());
    }
    if column.is_ascii() {
        let key = norm(alloc, column)?;
        return add_ascii(alloc, gathering, key.as_str().as_bytes());
    }
    let found = words(alloc, column)?;
    add_all(alloc, gathering, found.as_slice())
}

// Adds the words of a key text that is ASCII, and says how many there are.
fn add_ascii(alloc: Global, gathering: &mut Gathering, key: &[u8]) -> Result<u32, RowsFault>
    requires is { IsRowGathering gathering.old }
    requires ascii { IsAscii key.now }

    ensures ok { IfOk result (λ n. n ≡ length (words_of (chars key.now))) }
    ensures words { OnOk result (gathered gathering.new ≡ gathered gathering.old ++ words_of (chars key.now)) }
    ensures is { OnOk result (IsRowGathering gathering.new) }
    ensures too_many { IsErrOf result RowsFault.TooManyRows → MAX_ROWS < length (gathered gathering.old) + length (words_of (chars key.now)) }
{
    let mut count = 0;
    let mut rest = key;
    while let Some((word, behind)) = first_word(rest) {
        add(alloc, gathering, word)?;
        count += 1;
        rest = behind;
    }
    Ok(count)
}

// Adds words at the end, and says how many they are.
fn add_all(alloc: Global, gathering: &mut Gathering, words: &[Word]) -> Result<u32, RowsFault>
    requires is { IsRowGathering gathering.old }

    ensures ok { IfOk result (λ n. n ≡ length words.now) }
    ensures words { OnOk result (gathered gathering.new ≡ gathered gathering.old ++ words.now) }
    ensures is { OnOk result (IsRowGathering gathering.new) }
    ensures too_many { IsErrOf result RowsFault.TooManyRows → MAX_ROWS < length (gathered gathering.old) + length words.now }
{
    for word in words {
        add(alloc, gathering, word.bytes())?;
    }
    Ok(words.len() as u32)
}

// Adds a word at the end.
#[inline]
fn add(alloc: Global, gathering: &mut Gathering, word: &[u8]) -> Result<(), RowsFault>
    requires is { IsRowGathering gathering.old }
    requires some { 1 ≤ length word.now }
    requires few_bytes { length word.now ≤ MAX_WORD_BYTES }

    ensures word { OnOk result (gathered gathering.new ≡ gathered gathering.old ++ word.now ∷ []) }
    ensures is { OnOk result (IsRowGathering gathering.new) }
    ensures too_many { IsErrOf result RowsFault.TooManyRows → MAX_ROWS ≤ length (gathered gathering.old) }
{
    if gathering.len() >= MAX_ROWS {
        return Err(RowsFault::TooManyRows);
    }
    gathering.push(alloc, word)?;
    Ok(())
}
