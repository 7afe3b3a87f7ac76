//! A stream that is interrupted, waits, takes little, and breaks.
use cs_system::Ends;
use std::io::{self, ErrorKind, Read, Write};

/// A stream of which each second call is interrupted, that takes at most 3 bytes a call, and of which each eighth call would wait. It
/// breaks at the thousandth.
#[derive(Drop)]
pub struct Weak {
    /// How often it was called.
    pub calls: u32,
}

impl Weak {
    fn turn(&mut self) -> io::Result<()> {
        self.calls = self.calls.wrapping_add(1);
        if self.calls >= 1_000 {
            return Err(ErrorKind::Other.into());
        }
        if self.calls % 2 == 1 {
            return Err(ErrorKind::Interrupted.into());
        }
        if self.calls % 8 == 0 {
            return Err(ErrorKind::WouldBlock.into());
        }
        Ok(())
    }
}

impl Read for Weak {
    fn read(&mut self, buf: &mut [u8]) -> io::Result<usize> {
        self.turn()?;
        let Some(first) = buf.first_mut() else {
            return Ok(0);
        };
        *first = b'r';
        Ok(1)
    }
}

impl Write for Weak {
    fn write(&mut self, buf: &[u8]) -> io::Result<usize> {
        self.turn()?;
        Ok(buf.len().min(3))
    }

    fn flush(&mut self) -> io::Result<()> {
        Ok(())
    }
}

impl Ends for Weak {
    fn end(&self) -> io::Result<()> {
        Ok(())
    }
}
