//! Words of three syllables.
ghost use Rattle.std.specs.Prelude.{◌≡◌, ◌<◌, ◌≤◌, ◌+◌, ◌++◌, [], ◌∷◌};
ghost use Rattle.std.specs.Vec.{vec_len, vec_capacity};
ghost use Rattle.cs_model_trial.specs.Generator.{syllable, word};
ghost use Rattle.cs_model_trial.specs.declared.sizes.TheConstants.{SYLLABLES, WORDS};
ghost use Rattle.cs_trial.specs.declared.syllables.TheConstants.{SYLLABLE_BYTES, WORD_BYTES};

use cs_model_trial::SYLLABLES;

/// The bytes of a syllable.
pub(crate) const SYLLABLE_BYTES: u32 = 2;

/// The bytes of a word.
pub(crate) const WORD_BYTES: u32 = 3 * SYLLABLE_BYTES;

const PAIRS: u32 = SYLLABLES * SYLLABLES;

// The two letters of the syllable of a number.
#[inline]
fn syllable(n: u32) -> (u8, u8)
    requires { n < SYLLABLES }

    ensures { result.0 ∷ result.1 ∷ [] ≡ syllable n }
{
    match n {
        0 => (b'b', b'a'),
        1 => (b'b', b'e'),
        2 => (b'b', b'i'),
        3 => (b'b', b'o'),
        4 => (b'd', b'a'),
        5 => (b'd', b'e'),
        6 => (b'd', b'i'),
        7 => (b'd', b'o'),
        8 => (b'k', b'a'),
        9 => (b'k', b'e'),
        10 => (b'k', b'i'),
        11 => (b'k', b'o'),
        12 => (b't', b'a'),
        13 => (b't', b'e'),
        14 => (b't', b'i'),
        _ => (b't', b'o'),
    }
}

/// Bytes with the word of a number behind them: a syllable for each of its digits.
#[inline]
pub(crate) fn with_word_of(mut bytes: Vec<u8>, w: u32) -> Vec<u8>
    requires word { w < WORDS }
    requires room { vec_len bytes + WORD_BYTES ≤ vec_capacity bytes }

    ensures items { result.items ≡ bytes.items ++ word w }
    ensures len { vec_len result ≡ vec_len bytes + WORD_BYTES }
    ensures capacity { vec_capacity result ≡ vec_capacity bytes }
{
    bytes = with_syllable(bytes, w / PAIRS);
    bytes = with_syllable(bytes, w / SYLLABLES % SYLLABLES);
    with_syllable(bytes, w % SYLLABLES)
}

/// Bytes with the syllable of a number behind them.
#[inline]
pub(crate) fn with_syllable(mut bytes: Vec<u8>, n: u32) -> Vec<u8>
    requires syllable { n < SYLLABLES }
    requires room { vec_len bytes + SYLLABLE_BYTES ≤ vec_capacity bytes }

    ensures items { result.items ≡ bytes.items ++ syllable n }
    ensures len { vec_len result ≡ vec_len bytes + SYLLABLE_BYTES }
    ensures capacity { vec_capacity result ≡ vec_capacity bytes }
{
    let (first, second) = syllable(n);
    bytes.push_reserved(first);
    bytes.push_reserved(second);
    bytes
}
