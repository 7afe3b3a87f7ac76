//! A number for a word, that few other words have.
ghost use Rattle.std.specs.Prelude.{◌≡◌, ◌≤◌, ◌+◌, drop, length, take};
ghost use Rattle.std.specs.Int.{w32, w64, from_le_bytes};

// The fraction of the golden ratio in 64 bits, made odd.
const GOLDEN: u64 = 0x9e37_79b9_7f4a_7c15;

// The bit from which on the length of a word is mixed in: above the bytes of the shortest words.
const LENGTH_AT: u32 = 24;

// Half the bits of a byte: letters differ from one another most in the lower half, and so do digits.
const HALF_BYTE: u32 = 4;

/// A number that few words share, of the length of a word and its bytes.
///
/// Of a long word only four times eight bytes count: words of more than thirty bytes that differ in others alone share
/// their number, which costs comparisons and nothing else.
#[inline(always)]
pub(crate) fn hash_of(word: &[u8]) -> u32
    requires { 1 ≤ length word.now }
{
    let len = word.len();
    let mixed = if len > 8 {
        mixed_eights(word)
    } else if len >= 4 {
        u64::from(four_at(word, 0)) << 32 | u64::from(four_at(word, len - 4))
    } else {
        u64::from(word[0]) << 16 | u64::from(word[len / 2]) << 8 | u64::from(word[len - 1])
    };
    ((mixed ^ (len as u64) << LENGTH_AT).wrapping_mul(GOLDEN) >> 32) as u32
}

// The first and the last eight bytes, which may overlap, and of a word that has more than these, eight at a third and
// eight at two thirds of the way.
fn mixed_eights(word: &[u8]) -> u64
    requires { 8 ≤ length word.now }
{
    let last = word.len() - 8;
    let ends = eight_at(word, 0) ^ eight_at(word, last).rotate_left(HALF_BYTE);
    if last <= 8 {
        return ends;
    }
    let third = last / 3;
    ends.wrapping_mul(GOLDEN)
        ^ eight_at(word, third)
        ^ eight_at(word, 2 * third).rotate_left(HALF_BYTE)
}

/// Eight bytes of a word as a number, the first the lowest.
#[inline(always)]
pub(crate) fn eight_at(word: &[u8], at: usize) -> u64
    requires { at + 8 ≤ length word.now }

    ensures { result ≡ from_le_bytes w64 (take 8 (drop at word.now)) }
{
    let eight = &word[at..at + 8];
    u64::from_le_bytes([
        eight[0], eight[1], eight[2], eight[3], eight[4], eight[5], eight[6], eight[7],
    ])
}

/// Four bytes of a word as a number, the first the lowest.
#[inline(always)]
pub(crate) fn four_at(word: &[u8], at: usize) -> u32
    requires { at + 4 ≤ length word.now }

    ensures { result ≡ from_le_bytes w32 (take 4 (drop at word.now)) }
{
    let four = &word[at..at + 4];
    u32::from_le_bytes([four[0], four[1], four[2], four[3]])
}
