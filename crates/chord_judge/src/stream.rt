//! From the text of a trace to the table of its lookups.
ghost use Rattle.std.specs.Prelude.{◌≡◌, ℕ, Err, OnOk, false, true};
ghost use Rattle.chord_judge.specs.Faults.{is_read_fault, is_write_fault};
ghost use Rattle.chord_judge.specs.Inside.{setup_of};
ghost use Rattle.chord_judge.specs.Traces.{WasBegun, WasJudged, WasRefused};
ghost use Rattle.des_output.specs.Watched.{has_failed, wrapped};

use crate::judge::{Judge, JudgeFault};
use crate::lines::{LineReader, Said};
use crate::row::Row;
use crate::table::{HEADING, push_rows_text};
use crate::words::place_in;
use chord_event::Memory;
use chord_scenario::Scenario;
use des_output::{Watched, write_text};
use std::alloc::{AllocError, Global};
use std::io::{Read, Write};

/// Why a table was not written to its end.
#[derive(Clone, Copy, Drop)]
pub enum TableFault {
    /// An allocation failed.
    Memory,
    /// The reader of the trace failed.
    Read,
    /// The writer of the table failed.
    Write,
    /// The line of this number, counted from 1, says nothing, or ends a lookup that is not in
    /// progress: no run of the scenario writes it.
    Line(u64),
}

impl From<Memory> for TableFault {
    ghost use Rattle.chord_judge.specs.declared.stream.TableFault.TheVariants.{Memory};

    ghost from_gives = { λ _ fault. fault ≡ Memory };

    fn from(_error: Memory) -> TableFault {
        TableFault::Memory
    }
}

impl From<AllocError> for TableFault {
    ghost use Rattle.chord_judge.specs.declared.stream.TableFault.TheVariants.{Memory};

    ghost from_gives = { λ _ fault. fault ≡ Memory };

    fn from(_error: AllocError) -> TableFault {
        TableFault::Memory
    }
}

/// The size of the pieces in which a trace is read.
const CHUNK: usize = 65_536;

/// Reads a trace of the scenario to its end, and writes the table of its lookups.
pub fn judge_trace<R: Read, W: Write>(
    alloc: Global,
    scenario: &Scenario,
    trace: &mut Watched<R>,
    output: &mut Watched<W>,
) -> Result<(), TableFault>
    requires { has_failed output.old ≡ false }
    ensures writer { has_failed output.new ≡ is_write_fault result }
    ensures reader { has_failed trace.old ≡ false → has_failed trace.new ≡ is_read_fault result }
    ensures beginning { WasBegun scenario.now (R.remaining (wrapped trace.old)) (R.remaining (wrapped trace.new)) (W.contents (wrapped output.old)) (W.contents (wrapped output.new)) }
    ensures refused { (number : ℕ) → result ≡ Err (TableFault.Line number) → WasRefused scenario.now number (R.remaining (wrapped trace.old)) (R.remaining (wrapped trace.new)) }
    ensures whole { OnOk result (WasJudged scenario.now (R.remaining (wrapped trace.old)) (R.remaining (wrapped trace.new)) (W.contents (wrapped output.old)) (W.contents (wrapped output.new))) }
{
    let mut stream = Stream::new(alloc, scenario)?;
    let mut chunk = Vec::new(alloc);
    chunk.resize(CHUNK, 0u8)?;
    stream.run(alloc, chunk.as_mut_slice(), trace, output)
}

/// A trace that is read, and the text of the table that is still to be written.
#[derive(Drop)]
pub(crate) struct Stream<'a> {
    pub judge: Judge<'a>,
    pub reader: LineReader<'a>,
    /// The rows that are still to be turned into text.
    pub rows: Vec<Row>,
    pub text: String,
    /// The beginning of a line that has not ended yet.
    pub line: Vec<u8>,
    /// How many lines have ended.
    pub lines: u64,
    ghost one: { reader.scenario.now ≡ setup_of judge },
}

impl<'a> Stream<'a> {
    ghost use Rattle.std.specs.Prelude.{◌≡◌, ◌<◌, ◌++◌, [], ◌∷◌, ℕ, List, Err, OnOk, IfErr, IfOk, false, length, string_bytes, true};
    ghost use Rattle.std.specs.Io.KnownBytes.{Appends};
    ghost use Rattle.chord_judge.specs.Faults.{is_read_fault, is_write_fault};
    ghost use Rattle.chord_judge.specs.Inside.{setup_of};
    ghost use Rattle.chord_judge.specs.Taken.{HasTaken};
    ghost use Rattle.chord_judge.specs.Traces.{EndsRefused, HasRefused, WasBegun, WasJudged, WasRefused, table_text};
    ghost use Rattle.chord_scenario.specs.Setup.{Setup};
    ghost use Rattle.des_output.specs.Watched.{has_failed, wrapped};
    ghost use Rattle.des_output.specs.Writing.{AppendsFront};

    /// A stream that has taken nothing yet, with the heading to be written.
    fn new(alloc: Global, scenario: &'a Scenario) -> Result<Stream<'a>, TableFault>
        ensures taken { IfOk result (HasTaken scenario.entry.now [] []) }
        ensures memory { IfErr result (λ fault. fault ≡ TableFault.Memory) }
    {
        Ok(Stream {
            judge: Judge::new(alloc, scenario)?,
            reader: LineReader::new(alloc, scenario)?,
            rows: Vec::new(alloc),
            text: String::from_str(alloc, HEADING)?,
            line: Vec::new(alloc),
            lines: 0,
        })
    }

    /// Reads the trace to its end, and writes the table.
    fn run<R: Read, W: Write>(
        &mut self,
        alloc: Global,
        chunk: &mut [u8],
        trace: &mut Watched<R>,
        output: &mut Watched<W>,
    ) -> Result<(), TableFault>
        requires room { 0 < length chunk.old }
        requires begun { HasTaken (setup_of self.old.judge) [] [] self.old }
        requires sound { has_failed output.old ≡ false }
        ensures writer { has_failed output.new ≡ is_write_fault result }
        ensures reader { has_failed trace.old ≡ false → has_failed trace.new ≡ is_read_fault result }
        ensures beginning { WasBegun (setup_of self.old.judge) (R.remaining (wrapped trace.old)) (R.remaining (wrapped trace.new)) (W.contents (wrapped output.old)) (W.contents (wrapped output.new)) }
        ensures refused { (number : ℕ) → result ≡ Err (TableFault.Line number) → WasRefused (setup_of self.old.judge) number (R.remaining (wrapped trace.old)) (R.remaining (wrapped trace.new)) }
        ensures whole { OnOk result (WasJudged (setup_of self.old.judge) (R.remaining (wrapped trace.old)) (R.remaining (wrapped trace.new)) (W.contents (wrapped output.old)) (W.contents (wrapped output.new))) }
    {
        for _ in 0..u64::MAX {
            let Ok(count) = trace.read(chunk) else {
                return Err(TableFault::Read);
            };
            if count == 0 {
                self.finish(alloc)?;
                return self.write(output);
            }
            self.take(&chunk[..count])?;
            self.write(output)?;
        }
        // No reader gives this many pieces.
        Err(TableFault::Memory)
    }

    /// Takes a piece of the trace.
    fn take(&mut self, piece: &[u8]) -> Result<(), TableFault>
        ensures unwritten { is_write_fault result ≡ false }
        ensures unread { is_read_fault result ≡ false }
        ensures taken { OnOk result ((sc : Setup) (text written : List ℕ) → HasTaken sc text written self.old → HasTaken sc (text ++ piece.now) written self.new) }
        ensures refused { (number : ℕ) → result ≡ Err (TableFault.Line number) → (sc : Setup) (text written : List ℕ) → HasTaken sc text written self.old → HasRefused sc (text ++ piece.now) number }
    {
        let mut start = 0;
        while start < piece.len() {
            let rest = &piece[start..];
            let length = place_in(rest, b'\n');
            self.line.extend_from_slice(&rest[..length])?;
            if length < rest.len() {
                self.end_line()?;
            }
            start += length + 1;
        }
        Ok(())
    }

    /// Takes the line feed that ends a line.
    fn end_line(&mut self) -> Result<(), TableFault>
        ensures unwritten { is_write_fault result ≡ false }
        ensures unread { is_read_fault result ≡ false }
        ensures taken { OnOk result ((sc : Setup) (text written : List ℕ) → HasTaken sc text written self.old → HasTaken sc (text ++ 10 ∷ []) written self.new) }
        ensures refused { (number : ℕ) → result ≡ Err (TableFault.Line number) → (sc : Setup) (text written : List ℕ) → HasTaken sc text written self.old → EndsRefused sc text number }
    {
        self.lines = self.lines.saturating_add(1);
        match self.reader.read(self.line.as_slice()) {
            Said::Told(told) => match self.judge.read(told, &mut self.rows) {
                Ok(()) => {}
                Err(JudgeFault::Memory) => return Err(TableFault::Memory),
                Err(JudgeFault::NoLookup) => return Err(TableFault::Line(self.lines)),
            },
            Said::Other => {}
            Said::Nothing => return Err(TableFault::Line(self.lines)),
        }
        self.line.clear();
        push_rows_text(&mut self.text, self.reader.scenario, self.rows.as_slice())?;
        self.rows.clear();
        Ok(())
    }

    /// Takes the end of the trace. A line that has no line feed is not taken.
    fn finish(&mut self, alloc: Global) -> Result<(), TableFault>
        ensures memory { IfErr result (λ fault. fault ≡ TableFault.Memory) }
        ensures table { OnOk result ((sc : Setup) (text written : List ℕ) → HasTaken sc text written self.old → table_text sc text ≡ written ++ string_bytes self.new.text) }
    {
        self.judge.finish(alloc, &mut self.rows)?;
        push_rows_text(&mut self.text, self.reader.scenario, self.rows.as_slice())?;
        Ok(())
    }

    /// Writes the text so far.
    fn write<W: Write>(&mut self, output: &mut Watched<W>) -> Result<(), TableFault>
        requires { has_failed output.old ≡ false }
        ensures writer { has_failed output.new ≡ is_write_fault result }
        ensures only { IfErr result (λ fault. fault ≡ TableFault.Write) }
        ensures front { AppendsFront (W.contents (wrapped output.old)) (W.contents (wrapped output.new)) (string_bytes self.old.text) }
        ensures whole { OnOk result (Appends (W.contents (wrapped output.old)) (W.contents (wrapped output.new)) (string_bytes self.old.text)) }
        ensures taken { OnOk result ((sc : Setup) (text written : List ℕ) → HasTaken sc text written self.old → HasTaken sc text (written ++ string_bytes self.old.text) self.new) }
    {
        match write_text(self.text.as_bytes(), output) {
            Ok(()) => {
                self.text.clear();
                Ok(())
            }
            Err(_) => Err(TableFault::Write),
        }
    }
}
