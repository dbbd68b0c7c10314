//! Readers and writers that remember failures.
ghost use Rattle.std.specs.Prelude.{◌≡◌, ◌||◌, false, is_err};
ghost use Rattle.std.specs.Io.{ReadsAtMost, WritesAtMost};
ghost use Rattle.std.specs.Io.KnownBytes.{Keeps, ReadConsumes, WriteAppends};
ghost use Rattle.des_output.specs.Watched.{wrapped, has_failed, refuses};

use std::io;
use std::io::{Read, Write};

/// A reader or writer that remembers whether one of its calls failed. It passes each call on once,
/// and returns the same result.
#[derive(Drop)]
pub struct Watched<V> {
    inner: V,
    failed: bool,
}

impl<V> Watched<V> {
    /// Wraps a reader or writer. No call has failed yet.
    pub fn new(inner: V) -> Watched<V>
        ensures wrapped { wrapped result ≡ inner }
        ensures sound { has_failed result ≡ false }
    {
        Watched {
            inner,
            failed: false,
        }
    }

    /// Whether a call so far returned an error, or a write took no byte of a piece that is not
    /// empty.
    pub fn failed(&self) -> bool
        ensures { result ≡ has_failed self.now }
    {
        self.failed
    }

    /// The reader or writer inside.
    pub fn into_inner(self) -> V
        ensures { result ≡ wrapped self }
    {
        self.inner
    }
}

impl<R: Read> Read for Watched<R> {
    ghost remaining = { λ w. R.remaining (wrapped w) };

    fn read(&mut self, buf: &mut [u8]) -> io::Result<usize>
        ensures bound { ReadsAtMost result buf.new }
        ensures bytes { ReadConsumes (R.remaining (wrapped self.old)) (R.remaining (wrapped self.new)) result buf.new }
        ensures noted { has_failed self.new ≡ (has_failed self.old || is_err result) }
    {
        let outcome = self.inner.read(buf);
        self.failed |= outcome.is_err();
        outcome
    }
}

impl<W: Write> Write for Watched<W> {
    ghost contents = { λ w. W.contents (wrapped w) };

    fn write(&mut self, buf: &[u8]) -> io::Result<usize>
        ensures bound { WritesAtMost result buf.now }
        ensures bytes { WriteAppends (W.contents (wrapped self.old)) (W.contents (wrapped self.new)) result buf.now }
        ensures noted { has_failed self.new ≡ (has_failed self.old || refuses result buf.now) }
    {
        let outcome = self.inner.write(buf);
        self.failed |= refuses(&outcome, buf);
        outcome
    }

    fn flush(&mut self) -> io::Result<()>
        ensures bytes { Keeps (W.contents (wrapped self.old)) (W.contents (wrapped self.new)) }
        ensures noted { has_failed self.new ≡ (has_failed self.old || is_err result) }
    {
        // That the flush is passed on is tested and not proved: contracts of std say nothing of
        // flushes.
        let outcome = self.inner.flush();
        self.failed |= outcome.is_err();
        outcome
    }
}

fn refuses(outcome: &io::Result<usize>, piece: &[u8]) -> bool
    ensures { result ≡ refuses outcome.now piece.now }
{
    match outcome {
        Ok(count) => *count == 0 && !piece.is_empty(),
        Err(_) => true,
    }
}
