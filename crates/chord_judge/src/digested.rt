//! A reader that digests what it reads.
ghost use Rattle.std.specs.Prelude.{◌≡◌};

use crate::digest::Digest;
use crate::stream::TableFault;
use std::io;
use std::io::{Read, Write};

/// How much of a digest is kept before it is written.
const ROOM: usize = 65_536;

/// A reader of a trace that writes a digest of what it reads. It passes each call on once, and returns the same result.
/// After the first failure of the digest it writes no more.
#[derive(Drop)]
pub struct Digested<R, W> {
    inner: R,
    digest: Digest,
    writer: W,
    fault: Option<TableFault>,
}

impl<R, W: Write> Digested<R, W> {
    ghost use Rattle.std.specs.Prelude.{◌≡◌, Err, IfSome};

    /// A reader that has read nothing.
    pub fn new(inner: R, digest: Digest, writer: W) -> Digested<R, W> {
        Digested {
            inner,
            digest,
            writer,
            fault: None,
        }
    }

    /// Takes what was read.
    fn take(&mut self, piece: &[u8])
        ensures { self.new.inner ≡ self.old.inner }
    {
        if self.fault.is_none() {
            self.fault = self.digest_piece(piece).err();
        }
    }

    /// Digests a piece, and writes the digest if there is much of it.
    fn digest_piece(&mut self, piece: &[u8]) -> Result<(), TableFault>
        ensures { self.new.inner ≡ self.old.inner }
    {
        self.digest.take(piece)?;
        if self.digest.text().len() < ROOM {
            return Ok(());
        }
        self.write()
    }

    /// Writes the rest of the digest, and says why it could not be written, if it could not.
    pub fn finish(&mut self) -> Result<(), TableFault>
        ensures { IfSome self.old.fault (λ fault. result ≡ Err fault) }
    {
        if let Some(fault) = self.fault {
            return Err(fault);
        }
        self.digest.finish()?;
        self.write()
    }

    /// Writes the digest so far.
    fn write(&mut self) -> Result<(), TableFault>
        ensures { self.new.inner ≡ self.old.inner }
    {
        match self.writer.write_all(self.digest.text()) {
            Ok(()) => {
                self.digest.clear();
                Ok(())
            }
            Err(_) => Err(TableFault::Write),
        }
    }
}

impl<R: Read, W: Write> Read for Digested<R, W> {
    ghost remaining = { λ d. R.remaining d.inner };

    fn read(&mut self, buf: &mut [u8]) -> io::Result<usize> {
        let outcome = self.inner.read(buf);
        if let Ok(count) = outcome {
            self.take(&buf[..count]);
        }
        outcome
    }
}
