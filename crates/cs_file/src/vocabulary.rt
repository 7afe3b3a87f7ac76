//! The vocabulary of an index file.
ghost use Rattle.std.specs.Prelude.{◌≡◌, ◌+◌, ◌-◌, ◌≤◌, ◌<◌, ◌^◌, ◌&&◌, ◌++◌, ◌∷◌, [], false, length, drop, chars, slice_index_or, IfOk, IfSome, OnOk};
ghost use Rattle.std.specs.List.{list_all};
ghost use Rattle.std.specs.Option.{ForSome, option_map};
ghost use Rattle.cs_base.specs.declared.content.limits.TheConstants.{MAX_WORDS, MAX_WORD_BYTES, MAX_PLAIN_WORD_BYTES};
ghost use Rattle.cs_model.specs.Words.{is_filled, is_word_char};
ghost use Rattle.cs_model_index.specs.FileRules.{break_of, follows, is_named_value, is_plain_word, is_value_char, is_word, laid, tried, word_size, words_break};
ghost use Rattle.cs_model_index.specs.Sections.{vocabulary_at, vocabulary_in};
ghost use Rattle.cs_file.specs.declared.fault.OpenFault.{OpenFault};
ghost use Rattle.cs_file.specs.CallAnswers.{is_read_of_open};
ghost use Rattle.cs_file.specs.HeaderView.{seen_header};
ghost use Rattle.cs_file.specs.Indexes.{CausedReads};
ghost use Rattle.cs_file.specs.Opening.{AreBytes, Judges, IsHeader, HasHeader, HasVocabulary, before, front_word, vocabulary_stage, words_judged, file_words};

use crate::fault::OpenFault;
use crate::header::Header;
use crate::judged::tried;
use crate::reading::section;
use cs_base::{MAX_PLAIN_WORD_BYTES, MAX_WORD_BYTES, Memory, Seq, Store, Word};
use cs_model_index::HEADER_BYTES;
use cs_text::{has_name_form, is_word_char};
use std::alloc::Global;

/// Reads the vocabulary, and tries rules 5 to 7.
pub(crate) fn read_vocabulary<S: Store>(
    alloc: Global,
    store: &mut S,
    header: &Header,
) -> Result<Seq<Word>, OpenFault>
    requires ranges { IsHeader (seen_header header.now) }
    requires told { HasHeader (S.bytes store.old) (seen_header header.now) }

    ensures exact { ForSome (S.bytes store.old) (λ b. Judges (vocabulary_stage b) result) }
    ensures words { ForSome (S.bytes store.old) (λ b. IfOk result (λ ws. ws ≡ file_words b)) }
    ensures ruled { IfOk result (λ ws. HasVocabulary (seen_header header.now) ws) }
    ensures small { ForSome (S.bytes store.old) (λ b. OnOk result (AreBytes b vocabulary_at header.now.vocabulary_len)) }
    ensures bytes { S.bytes store.new ≡ S.bytes store.old }
    ensures lent { S.lent store.new ≡ S.lent store.old }
    ensures caused { CausedReads (is_read_of_open result) (S.faults store.old) (S.faults store.new) }
{
    let len = header.vocabulary_len as usize;
    let bytes = section(alloc, store, u64::from(HEADER_BYTES), len)?;
    let words = cut_words(alloc, &bytes, header.words)?;
    judge_words(words.as_slice())?;
    Ok(words)
}

// The words behind the next length bytes, so many and no more, or rule 5 is broken.
fn cut_words(alloc: Global, bytes: &[u8], count: u32) -> Result<Seq<Word>, OpenFault>
    ensures exact { Judges (tried 5 (words_break count vocabulary_at bytes.now)) result }
    ensures words { IfOk result (λ ws. ws ≡ vocabulary_in count bytes.now) }
    ensures unread { is_read_of_open result ≡ false }
{
    let mut words = room_for(alloc, (count as usize).min(bytes.len()))?;
    let mut at = 0;
    for _ in 0..count {
        let Some(end) = word_end(bytes, at) else {
            return Err(no_length(at));
        };
        push_word(alloc, &mut words, &bytes[at + 1..end])?;
        at = end;
    }
    if at < bytes.len() {
        return Err(no_length(at));
    }
    Ok(Seq::from_vec(words))
}

// Where the word ends whose length byte stands at a place, if one does with its word.
#[tactic(auto, using(crate::proofs::VocabularyCuts::front_at, crate::proofs::VocabularyCuts::front_end))]
fn word_end(bytes: &[u8], at: usize) -> Option<usize>
    requires { at ≤ length bytes.now }

    ensures value { result ≡ option_map (λ n. at + n) (front_word (drop at bytes.now)) }
    ensures within { IfSome result (λ end. (at + 2 ≤ end) × (end ≤ at + 139) × (end ≤ length bytes.now)) }
{
    if at == bytes.len() {
        return None;
    }
    let len = bytes[at] as usize;
    if 1 <= len && len <= MAX_WORD_BYTES && len <= bytes.len() - at - 1 {
        return Some(at + 1 + len);
    }
    None
}

// Rule 5, broken at a place of the vocabulary.
fn no_length(at: usize) -> OpenFault
    requires { at < 2 ^ 63 }

    ensures { result ≡ OpenFault.Damaged 5 (vocabulary_at + at) }
{
    OpenFault::Damaged {
        rule: 5,
        at: u64::from(HEADER_BYTES) + at as u64,
    }
}

fn room_for(alloc: Global, count: usize) -> Result<Vec<Word>, Memory>
    ensures { IfOk result (λ v. v.items ≡ []) }
{
    let words = Vec::with_capacity(alloc, count)?;
    Ok(words)
}

fn push_word(alloc: Global, words: &mut Vec<Word>, bytes: &[u8]) -> Result<(), Memory>
    requires some { 1 ≤ length bytes.now }
    requires few { length bytes.now ≤ MAX_WORD_BYTES }

    ensures { OnOk result (words.new.items ≡ words.old.items ++ bytes.now ∷ []) }
{
    words.push(Word::new(alloc, bytes)?)?;
    Ok(())
}

// Tries rules 6 and 7.
fn judge_words(words: &[Word]) -> Result<(), OpenFault>
    requires few { length words.now ≤ MAX_WORDS }

    ensures exact { Judges (words_judged words.now) result }
    ensures unread { is_read_of_open result ≡ false }
{
    tried(6, bad_word(words))?;
    tried(7, bad_order(words))
}

// The place of the first word that isn't one.
fn bad_word(words: &[Word]) -> Option<u64>
    requires few { length words.now ≤ MAX_WORDS }

    ensures { result ≡ break_of (λ i. is_word i.value) (laid word_size vocabulary_at None words.now) }
{
    let mut at = u64::from(HEADER_BYTES);
    for word in words {
        if !is_word(word.bytes()) {
            return Some(at);
        }
        at += 1 + word.bytes().len() as u64;
    }
    None
}

// The place of the first word that isn't greater than the one before.
fn bad_order(words: &[Word]) -> Option<u64>
    requires few { length words.now ≤ MAX_WORDS }

    ensures { result ≡ break_of (λ i. follows i.last i.value) (laid word_size vocabulary_at None words.now) }
{
    let mut at = u64::from(HEADER_BYTES);
    for (i, word) in words.iter().enumerate() {
        if !follows(words, i) {
            return Some(at);
        }
        at += 1 + word.bytes().len() as u64;
    }
    None
}

// Whether word `i` is greater than the one before, if there is one.
#[tactic(auto, unfolding(crate::specs::Opening::before))]
fn follows(words: &[Word], i: usize) -> bool
    requires { i < length words.now }

    ensures { result ≡ follows (before words.now i) (slice_index_or words.now i []) }
{
    i == 0 || words[i - 1].bytes().cmp(words[i].bytes()).is_lt()
}

// Whether bytes are UTF-8, and a plain word or a facet word.
fn is_word(word: &[u8]) -> bool
    ensures { result ≡ is_word word.now }
{
    match std::str::from_utf8(word) {
        Ok(text) => match text.strip_prefix(':') {
            Some(rest) => is_named_value(rest),
            None => is_plain_word(text),
        },
        Err(_) => false,
    }
}

// Whether word characters stand here alone, from one to `MAX_PLAIN_WORD_BYTES` bytes of them.
fn is_plain_word(text: &str) -> bool
    ensures { result ≡ is_plain_word text.now }
{
    !text.is_empty() && text.len() <= MAX_PLAIN_WORD_BYTES && has_word_chars(text)
}

// Whether a name, a colon and a value stand here.
fn is_named_value(text: &str) -> bool
    ensures { result ≡ is_named_value text.now }
{
    match text.split_once(':') {
        Some((name, value)) => {
            has_name_form(name.as_bytes())
                && !value.is_empty()
                && value.len() <= MAX_PLAIN_WORD_BYTES
                && has_value_chars(value)
        }
        None => false,
    }
}

fn has_word_chars(text: &str) -> bool
    ensures { result ≡ list_all is_word_char (chars text.now) }
{
    text.chars().all(|c| is_word_char(c))
}

fn has_value_chars(text: &str) -> bool
    ensures { result ≡ list_all is_value_char (chars text.now) }
{
    text.chars().all(|c| is_value_char(c))
}

fn is_value_char(c: char) -> bool
    ensures { result ≡ is_value_char c }
{
    is_word_char(c) || c == '_'
}
