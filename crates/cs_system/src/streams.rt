//! Streams, as pipes are: bytes that come once, so they are read whole and lent from memory.
ghost use Rattle.std.specs.Prelude.{◌≡◌, ◌≤◌, ◌+◌, ◌<◌, length, IfOk, IfErr, OnOk, OnErr};
ghost use Rattle.std.specs.Option.{ForSome};
ghost use Rattle.cs_base.specs.outside.Outside.{part};

use cs_base::MAX_COLLECTION_BYTES;
use std::alloc::Global;
use std::io::{self, ErrorKind, Read};

/// The most bytes that are read of a stream: a larger collection is refused in any case.
pub const MAX_STREAM_BYTES: usize = MAX_COLLECTION_BYTES;

/// Why a stream isn't kept.
#[derive(Debug, Drop)]
pub enum StreamFault {
    /// It has more than `MAX_STREAM_BYTES`.
    TooLong,
    /// It couldn't be read, or found no memory.
    System(io::Error),
}

impl From<io::Error> for StreamFault {
    ghost use Rattle.cs_system.specs.declared.streams.StreamFault.TheVariants.{System};

    ghost from_gives = { λ e f. f ≡ System e };

    fn from(error: io::Error) -> StreamFault {
        StreamFault::System(error)
    }
}

impl From<StreamFault> for io::Error {
    fn from(fault: StreamFault) -> io::Error {
        match fault {
            StreamFault::TooLong => ErrorKind::FileTooLarge.into(),
            StreamFault::System(error) => error,
        }
    }
}

/// All bytes of a stream, read to its end. One that has more than `MAX_STREAM_BYTES` fails, without an end too.
pub fn read_stream<F: Read + Drop>(alloc: Global, stream: F) -> Result<Vec<u8>, StreamFault>
    ensures ok { IfOk result (λ b. ForSome (F.remaining stream) (λ bytes. b.items ≡ bytes)) }
    ensures limit { IfOk result (λ b. length b.items ≤ MAX_STREAM_BYTES) }
    ensures too_long { IfErr result (λ f. f ≡ StreamFault.TooLong → ForSome (F.remaining stream) (λ bytes. MAX_STREAM_BYTES < length bytes)) }
{
    let mut bytes = Vec::new(alloc);
    stream
        .take(MAX_STREAM_BYTES as u64 + 1)
        .read_to_end(&mut bytes)?;
    if bytes.len() > MAX_STREAM_BYTES {
        return Err(StreamFault::TooLong);
    }
    Ok(bytes)
}

/// Fills `out` with the bytes from a place. It fails exactly where they end before.
pub fn lend(bytes: &[u8], at: u64, out: &mut [u8]) -> io::Result<()>
    ensures ok { OnOk result (out.new ≡ part bytes.now at (length out.old)) }
    ensures within { OnOk result (at + length out.old ≤ length bytes.now) }
    ensures err { OnErr result (length bytes.now < at + length out.old) }
{
    let len = bytes.len() as u64;
    if at > len || len - at < out.len() as u64 {
        return Err(ErrorKind::UnexpectedEof.into());
    }
    let start = at as usize;
    out.copy_from_slice(&bytes[start..start + out.len()]);
    Ok(())
}
