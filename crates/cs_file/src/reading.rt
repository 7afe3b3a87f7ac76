//! Bytes of a store, read at once or in pieces.
ghost use Rattle.std.specs.Prelude.{◌≡◌, ◌+◌, ◌<◌, ◌≤◌, ◌^◌, Option, length, IfOk, IfErr, OnOk, All, replicate};
ghost use Rattle.std.specs.Option.{ForSome};
ghost use Rattle.cs_base.specs.outside.Causes.{Counted, ReadsWithin};
ghost use Rattle.cs_base.specs.outside.Outside.{part};
ghost use Rattle.cs_base.specs.declared.index.block.Broken.{Broken};
ghost use Rattle.cs_file.specs.CallAnswers.{is_read_of_open};
ghost use Rattle.cs_file.specs.Indexes.{CausedReads};
ghost use Rattle.cs_file.specs.Opening.{AreBytes, Refuses};

use crate::fault::OpenFault;
use cs_base::{Failed, Memory, Store};
use std::alloc::Global;

/// The most bytes of a piece.
pub(crate) const PIECE: usize = 1 << 16;

/// So many zeros, to be read over.
pub(crate) fn zeros(alloc: Global, len: usize) -> Result<Vec<u8>, Memory>
    ensures long { IfOk result (λ v. length v.items ≡ len) }
    ensures zeros { IfOk result (λ v. v.items ≡ replicate len 0) }
{
    let zeros = vec![in alloc; 0; len]?;
    Ok(zeros)
}

/// Makes a vector so long, to be read over.
pub(crate) fn fit(bytes: &mut Vec<u8>, len: usize) -> Result<(), Memory>
    ensures { OnOk result (length bytes.new.items ≡ len) }
{
    bytes.resize(len, 0)?;
    Ok(())
}

/// Fills a vector with the bytes from a place, by one read.
pub(crate) fn read_at_once<S: Store>(
    store: &mut S,
    at: u64,
    bytes: &mut Vec<u8>,
) -> Result<(), Failed>
    requires within { ForSome (S.bytes store.old) (λ b. at + length bytes.old.items ≤ length b) }

    ensures ok { ForSome (S.bytes store.old) (λ b. OnOk result (bytes.new.items ≡ part b at (length bytes.old.items))) }
    ensures long { length bytes.new.items ≡ length bytes.old.items }
    ensures same { S.bytes store.new ≡ S.bytes store.old }
    ensures lent { S.lent store.new ≡ S.lent store.old }
    ensures reads { ReadsWithin 1 (S.reads store.old) (S.reads store.new) }
    ensures counted { Counted (S.faults store.old) (S.faults store.new) result }
{
    let read = store.read_at(at, bytes);
    read
}

/// So many bytes from a place, by reads of at most `PIECE` bytes each.
pub(crate) fn section<S: Store>(
    alloc: Global,
    store: &mut S,
    at: u64,
    len: usize,
) -> Result<Vec<u8>, OpenFault>
    requires places { at + len < 2 ^ 64 }
    requires within { ForSome (S.bytes store.old) (λ b. at + len ≤ length b) }

    ensures ok { ForSome (S.bytes store.old) (λ b. IfOk result (λ v. v.items ≡ part b at len)) }
    ensures long { IfOk result (λ v. length v.items ≡ len) }
    ensures small { ForSome (S.bytes store.old) (λ b. OnOk result (AreBytes b at len)) }
    // no damage is found
    ensures err { (o : Option Broken) → IfErr result (Refuses o) }
    ensures bytes { S.bytes store.new ≡ S.bytes store.old }
    ensures lent { S.lent store.new ≡ S.lent store.old }
    ensures caused { CausedReads (is_read_of_open result) (S.faults store.old) (S.faults store.new) }
{
    let mut bytes = zeros(alloc, len)?;
    section_over(store, at, len, &mut bytes)?;
    Ok(bytes)
}

/// Reads so many bytes from a place in place of others, by reads of at most `PIECE` bytes each.
pub(crate) fn section_over<S: Store>(
    store: &mut S,
    at: u64,
    len: usize,
    bytes: &mut Vec<u8>,
) -> Result<(), OpenFault>
    requires places { at + len < 2 ^ 64 }
    requires within { ForSome (S.bytes store.old) (λ b. at + len ≤ length b) }

    ensures ok { ForSome (S.bytes store.old) (λ b. OnOk result (bytes.new.items ≡ part b at len)) }
    ensures long { OnOk result (length bytes.new.items ≡ len) }
    ensures small { ForSome (S.bytes store.old) (λ b. OnOk result (AreBytes b at len)) }
    // no damage is found
    ensures err { (o : Option Broken) → IfErr result (Refuses o) }
    ensures bytes { S.bytes store.new ≡ S.bytes store.old }
    ensures lent { S.lent store.new ≡ S.lent store.old }
    ensures caused { CausedReads (is_read_of_open result) (S.faults store.old) (S.faults store.new) }
{
    fit(bytes, len)?;
    match read_in_pieces(store, at, bytes) {
        Ok(()) => {
            are_bytes(bytes);
            Ok(())
        }
        Err(_) => Err(OpenFault::Read),
    }
}

// What is read into bytes is below 256, which a store needn't tell of what it holds.
fn are_bytes(bytes: &[u8])
    ensures { All (λ x. x < 2 ^ 8) bytes.now }
{}

// Fills a vector with the bytes from a place.
fn read_in_pieces<S: Store>(store: &mut S, at: u64, bytes: &mut Vec<u8>) -> Result<(), Failed>
    requires places { at + length bytes.old.items < 2 ^ 64 }
    requires within { ForSome (S.bytes store.old) (λ b. at + length bytes.old.items ≤ length b) }

    ensures ok { ForSome (S.bytes store.old) (λ b. OnOk result (bytes.new.items ≡ part b at (length bytes.old.items))) }
    ensures long { length bytes.new.items ≡ length bytes.old.items }
    ensures same { S.bytes store.new ≡ S.bytes store.old }
    ensures lent { S.lent store.new ≡ S.lent store.old }
    ensures counted { Counted (S.faults store.old) (S.faults store.new) result }
{
    fill(store, at, bytes)
}

// Fills a slice with the bytes from a place.
pub(crate) fn fill<S: Store>(store: &mut S, at: u64, out: &mut [u8]) -> Result<(), Failed>
    requires places { at + length out.old < 2 ^ 64 }
    requires within { ForSome (S.bytes store.old) (λ b. at + length out.old ≤ length b) }

    ensures ok { ForSome (S.bytes store.old) (λ b. OnOk result (out.new ≡ part b at (length out.old))) }
    ensures same { S.bytes store.new ≡ S.bytes store.old }
    ensures lent { S.lent store.new ≡ S.lent store.old }
    ensures counted { Counted (S.faults store.old) (S.faults store.new) result }
{
    let mut done = 0;
    while done < out.len() {
        let end = done + (out.len() - done).min(PIECE);
        store.read_at(at + done as u64, &mut out[done..end])?;
        done = end;
    }
    Ok(())
}
