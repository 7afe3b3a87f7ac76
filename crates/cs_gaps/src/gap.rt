//! Writing a gap code, and reading the one at a place.
ghost use Rattle.std.specs.Prelude.{◌≡◌, ℕ, ◌+◌, ◌<◌, ◌≤◌, ◌^◌, ◌++◌, List, length, drop, OnOk, OnErr};
ghost use Rattle.std.specs.Vec.{vec_len, vec_capacity};
ghost use Rattle.cs_base.specs.index.GapCode.{code};
ghost use Rattle.cs_gaps.specs.Reading.{StandsAt, gap_at, at_last_byte, moved};

use cs_base::Memory;

/// What stands at a place where a gap code is looked for.
#[derive(Clone, Copy, Debug, PartialEq, Eq)]
pub enum Gap {
    /// The code of a number.
    Is {
        /// The number.
        n: u32,
        /// The place behind its code.
        next: usize,
    },
    /// The bytes end within a code.
    Cut,
    /// A code that isn't in its shortest form.
    Long,
    /// A number of 2^32 or more, or a code of more than five bytes.
    Big,
}

/// Adds the code of `n` at the end.
pub fn put_gap(out: &mut Vec<u8>, n: u32) -> Result<(), Memory>
    ensures ok { OnOk result (out.new.items ≡ out.old.items ++ code n) }
    ensures err { OnErr result (out.new.items ≡ out.old.items) }
{
    if n < 128 {
        out.push(n as u8)?;
        return Ok(());
    }
    put_long_gap(out, n)
}

// The same in a loop over the code's bytes.
fn put_long_gap(out: &mut Vec<u8>, n: u32) -> Result<(), Memory>
    ensures ok { OnOk result (out.new.items ≡ out.old.items ++ code n) }
    ensures err { OnErr result (out.new.items ≡ out.old.items) }
{
    let mut text = [0u8; 5];
    let mut len = 0;
    let mut left = n;
    while left >= 128 {
        text[len] = (left % 128 + 128) as u8;
        len += 1;
        left /= 128;
    }
    text[len] = left as u8;
    out.extend_from_slice(&text[..len + 1])?;
    Ok(())
}

/// These bytes with the code of `n` at the end, in the memory that they have: it can't fail. Whatever
/// `n` is, there must be room for five bytes, as many as a code has at most.
#[inline]
pub fn with_gap(mut out: Vec<u8>, n: u32) -> Vec<u8>
    requires { vec_len out + 5 ≤ vec_capacity out }

    ensures items { result.items ≡ out.items ++ code n }
    ensures few { vec_len result ≤ vec_len out + 5 }
    ensures capacity { vec_capacity result ≡ vec_capacity out }
{
    let mut rest = n;
    while rest >= 128 {
        out.push_reserved((rest % 128 + 128) as u8);
        rest /= 128;
    }
    out.push_reserved(rest as u8);
    out
}

/// What stands at `at`, counted in bytes from 0.
#[inline]
pub fn next_gap(bytes: &[u8], at: usize) -> Gap
    requires within { at ≤ length bytes.now }

    // the code of n stands there, and the next place is behind it
    ensures found { (n next : ℕ) → result ≡ Gap.Is n next → StandsAt n at next bytes.now }
    // where the code of a number stands, that number is found
    ensures accepts { (n : ℕ) (rest : List ℕ) → n < 2 ^ 32 → drop at bytes.now ≡ code n ++ rest → result ≡ Gap.Is n (at + length (code n)) }
    // which answer it is where no code stands
    ensures exact { result ≡ moved at (gap_at (drop at bytes.now)) }
{
    if at < bytes.len() && bytes[at] < 128 {
        return Gap::Is {
            n: u32::from(bytes[at]),
            next: at + 1,
        };
    }
    read_gap(bytes, at)
}

// The same in a loop over the bytes.
fn read_gap(bytes: &[u8], at: usize) -> Gap
    requires { at ≤ length bytes.now }

    ensures { result ≡ moved at (gap_at (drop at bytes.now)) }
{
    let rest = &bytes[at..];
    let mut n: u64 = 0;
    let mut weight: u64 = 1;
    for (i, b) in rest.iter().enumerate() {
        if *b < 128 {
            return end_gap(*b, i + 1, n + u64::from(*b) * weight, at + i + 1);
        }
        if i == 4 {
            return Gap::Big;
        }
        n += u64::from(*b - 128) * weight;
        weight *= 128;
    }
    Gap::Cut
}

// What a last byte makes of the number `n`, where it is the last of `len` bytes.
fn end_gap(last: u8, len: usize, n: u64, next: usize) -> Gap
    ensures { result ≡ at_last_byte last len n next }
{
    if last == 0 && len > 1 {
        return Gap::Long;
    }
    if n >= 1 << 32 {
        return Gap::Big;
    }
    Gap::Is { n: n as u32, next }
}
