//! The latency file, which may be left out.
ghost use Rattle.std.specs.Io.{ReadsAtMost};
ghost use Rattle.std.specs.Io.KnownBytes.{ReadConsumes};
ghost use Rattle.chord_play.specs.LatencyFiles.{left_in};

use std::io;
use std::io::Read;

/// The latency file if the arguments name one, and otherwise an empty text.
#[derive(Drop)]
pub enum LatencyFile<F> {
    Absent,
    Given(F),
}

impl<F: Read> Read for LatencyFile<F> {
    ghost remaining = { λ file. left_in F.remaining file };

    fn read(&mut self, buf: &mut [u8]) -> io::Result<usize>
        ensures bound { ReadsAtMost result buf.new }
        ensures bytes { ReadConsumes (left_in F.remaining self.old) (left_in F.remaining self.new) result buf.new }
    {
        match self {
            LatencyFile::Absent => Ok(0),
            LatencyFile::Given(file) => file.read(buf),
        }
    }
}
