//! A watched reader or writer makes each call of its own once, and returns what that returned.
use chord_trace::Watched;
use std::io;
use std::io::{ErrorKind, Read, Write};

/// What a call of a scripted reader or writer returns.
#[derive(Clone, Copy)]
enum Turn {
    Takes(usize),
    Fails,
}

/// A reader and writer that notes the length that each call asks for, and returns what its script
/// says.
#[derive(Drop)]
struct Scripted {
    script: [Turn; 4],
    asked: [usize; 4],
    calls: usize,
}

impl Scripted {
    fn new(script: [Turn; 4]) -> Scripted {
        Scripted {
            script,
            asked: [0; 4],
            calls: 0,
        }
    }

    fn turn(&mut self, length: usize) -> io::Result<usize> {
        let turn = self.script.get(self.calls).copied();
        if let Some(asked) = self.asked.get_mut(self.calls) {
            *asked = length;
        }
        self.calls = self.calls.saturating_add(1);
        match turn {
            Some(Turn::Takes(count)) => Ok(count.min(length)),
            _ => Err(io::Error::from(ErrorKind::BrokenPipe)),
        }
    }
}

impl Write for Scripted {
    fn write(&mut self, buf: &[u8]) -> io::Result<usize> {
        let count = self.turn(buf.len())?;
        Ok(count.min(buf.len()))
    }

    fn flush(&mut self) -> io::Result<()> {
        self.turn(9)?;
        Ok(())
    }
}

impl Read for Scripted {
    fn read(&mut self, buf: &mut [u8]) -> io::Result<usize> {
        let count = self.turn(buf.len())?;
        Ok(count.min(buf.len()))
    }
}

/// The number of bytes, or 77 for an error of the script.
fn shown(outcome: io::Result<usize>) -> usize {
    match outcome {
        Ok(count) => count,
        Err(error) => match error.kind() {
            ErrorKind::BrokenPipe => 77,
            _ => 99,
        },
    }
}

const SCRIPT: [Turn; 4] = [Turn::Takes(2), Turn::Takes(0), Turn::Fails, Turn::Takes(1)];

#[test]
fn a_watched_writer_has_the_calls_and_answers_of_its_own(rt: HostRuntime) {
    let mut writer = Watched::new(Scripted::new(SCRIPT));
    for (piece, answer, failed) in [
        ("abc", 2, false),
        ("abcd", 0, true),
        ("abcde", 77, true),
        ("a", 1, true),
    ] {
        assert_eq!(rt; shown(writer.write(piece.as_bytes())), answer, "{piece}");
        assert_eq!(rt; writer.failed(), failed, "{piece}");
    }
    let Scripted { asked, calls, .. } = writer.into_inner();
    assert!(rt; asked == [3, 4, 5, 1]);
    assert_eq!(rt; calls, 4);

    let mut writer = Watched::new(Scripted::new([
        Turn::Takes(0),
        Turn::Fails,
        SCRIPT[0],
        SCRIPT[0],
    ]));
    assert_eq!(rt; shown(writer.write(b"")), 0);
    assert!(rt; !writer.failed());
    assert!(rt; writer.flush().is_err());
    assert!(rt; writer.failed());
    assert!(rt; writer.flush().is_ok());
    assert_eq!(rt; writer.into_inner().calls, 3);
}

#[test]
fn a_watched_reader_has_the_calls_and_answers_of_its_own(rt: HostRuntime) {
    let mut reader = Watched::new(Scripted::new(SCRIPT));
    let mut room = [0; 8];
    for (length, answer, failed) in [(3, 2, false), (4, 0, false), (5, 77, true), (1, 1, true)] {
        assert_eq!(rt; shown(reader.read(&mut room[..length])), answer, "{length}");
        assert_eq!(rt; reader.failed(), failed, "{length}");
    }
    let Scripted { asked, calls, .. } = reader.into_inner();
    assert!(rt; asked == [3, 4, 5, 1]);
    assert_eq!(rt; calls, 4);
}
