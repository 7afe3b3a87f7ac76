//! Bytes that go into a sink, gathered so that few puts are made.
ghost use Rattle.std.specs.Prelude.{◌≡◌, [], ◌++◌, OnOk, OnErr};
ghost use Rattle.cs_base.specs.outside.Outside.{Grew, GrewByPrefix};
ghost use Rattle.cs_file.specs.CallAnswers.{is_sink};
ghost use Rattle.cs_file.specs.Indexes.{CausedReads};
ghost use Rattle.cs_file.specs.Putting.{HasPut};

use crate::fault::WriteFault;
use cs_base::{Memory, Sink};

// The most bytes of a put. So many are gathered before they are put.
const MAX_PUT_BYTES: usize = 1 << 16;

/// Adds bytes behind those held, and puts all of them once there are enough.
pub(crate) fn put_bytes<S: Sink>(
    bytes: &[u8],
    held: &mut Vec<u8>,
    out: &mut S,
) -> Result<(), WriteFault>
    ensures ok { OnOk result (HasPut (S.written out.old) held.old.items bytes.now (S.written out.new) held.new.items) }
    ensures err { OnErr result (GrewByPrefix (S.written out.old) (held.old.items ++ bytes.now) (S.written out.new)) }
    ensures lent { S.lent out.new ≡ S.lent out.old }
    ensures caused { CausedReads (is_sink result) (S.faults out.old) (S.faults out.new) }
{
    hold(bytes, held)?;
    put_full(held, out)
}

fn hold(bytes: &[u8], held: &mut Vec<u8>) -> Result<(), Memory>
    ensures ok { OnOk result (held.new.items ≡ held.old.items ++ bytes.now) }
{
    held.extend_from_slice(bytes)?;
    Ok(())
}

/// Puts the bytes that are held, if there are enough.
pub(crate) fn put_full<S: Sink>(held: &mut Vec<u8>, out: &mut S) -> Result<(), WriteFault>
    ensures ok { OnOk result (HasPut (S.written out.old) held.old.items [] (S.written out.new) held.new.items) }
    ensures err { OnErr result (GrewByPrefix (S.written out.old) held.old.items (S.written out.new)) }
    ensures lent { S.lent out.new ≡ S.lent out.old }
    ensures caused { CausedReads (is_sink result) (S.faults out.old) (S.faults out.new) }
{
    if held.len() >= MAX_PUT_BYTES {
        put_pieces(held, out)?;
        held.clear();
    }
    Ok(())
}

/// Puts bytes, at most `MAX_PUT_BYTES` at once.
pub(crate) fn put_pieces<S: Sink>(bytes: &[u8], out: &mut S) -> Result<(), WriteFault>
    ensures ok { OnOk result (Grew (S.written out.old) bytes.now (S.written out.new)) }
    ensures err { OnErr result (GrewByPrefix (S.written out.old) bytes.now (S.written out.new)) }
    ensures lent { S.lent out.new ≡ S.lent out.old }
    ensures caused { CausedReads (is_sink result) (S.faults out.old) (S.faults out.new) }
{
    let mut rest = bytes;
    while !rest.is_empty() {
        let (piece, behind) = rest.split_at(rest.len().min(MAX_PUT_BYTES));
        put_piece(piece, out)?;
        rest = behind;
    }
    Ok(())
}

fn put_piece<S: Sink>(bytes: &[u8], out: &mut S) -> Result<(), WriteFault>
    ensures ok { OnOk result (Grew (S.written out.old) bytes.now (S.written out.new)) }
    ensures err { OnErr result (GrewByPrefix (S.written out.old) bytes.now (S.written out.new)) }
    ensures lent { S.lent out.new ≡ S.lent out.old }
    ensures caused { CausedReads (is_sink result) (S.faults out.old) (S.faults out.new) }
{
    match out.put(bytes) {
        Ok(()) => Ok(()),
        Err(_) => Err(WriteFault::Sink),
    }
}
