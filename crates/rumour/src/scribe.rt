//! How a run of the rumour is written down.
ghost use Rattle.std.specs.Prelude.{◌≡◌, ◌⊎◌, ◌+◌, ◌<◌, ◌≤◌, ◌^◌, ◌++◌, false, string_bytes, IfErr, OnOk};
ghost use Rattle.std.specs.Io.KnownBytes.{Appends};
ghost use Rattle.des_output.specs.Watched.{wrapped, has_failed};
ghost use Rattle.des_output.specs.Writing.{AppendsFront, is_write};
ghost use Rattle.rumour_rules.specs.Counts.{first_of};
ghost use Rattle.rumour.specs.Texts.{line_of};

use crate::spread::Spread;
use des_event::{Memory, RunError};
use des_machine::Scribe;
use des_output::{Watched, write_text};
use des_protocol::Numbered;
use rumour_rules::{Report, Told};
use std::alloc::{AllocError, Global};
use std::fmt::Write as _;
use std::io::Write;

/// Writes a line for each node that hears the rumour for the first time, and counts what the report
/// tells.
#[derive(Drop)]
pub struct RumourScribe {
    counts: Report,
    ghost heard_fits: { counts.heard ≤ counts.told },
}

impl RumourScribe {
    /// Counts a piece.
    fn count(&mut self, piece: Told)
        requires { self.old.counts.told < 2 ^ 40 }
        ensures heard { self.new.counts.heard ≡ self.old.counts.heard + first_of piece }
        ensures told { self.new.counts.told ≡ self.old.counts.told + 1 }
    {
        let Report { heard, told } = self.counts;
        self.counts = Report {
            heard: if piece.first { heard + 1 } else { heard },
            told: told + 1,
        };
    }
}

impl Scribe<Numbered<Spread>> for RumourScribe {
    ghost use Rattle.rumour_rules.specs.Counts.{AreCounts};
    ghost use Rattle.rumour_rules.proofs.Counted.{reordered};
    ghost use Rattle.rumour.specs.Texts.{text_of};

    type Report = Report;

    ghost text = { λ _ piece. text_of piece };

    ghost HasCounted = { λ _ pieces s. AreCounts pieces s.counts };

    ghost size = { λ s. s.counts.told };

    ghost IsReport = { λ _ pieces report. AreCounts pieces report };

    fn start(_alloc: Global, _spread: &Numbered<Spread>) -> RumourScribe {
        RumourScribe {
            counts: Report { heard: 0, told: 0 },
        }
    }

    fn put<W: Write>(
        &mut self,
        alloc: Global,
        _spread: &Numbered<Spread>,
        piece: &Told,
        writer: &mut Watched<W>,
    ) -> Result<(), RunError> {
        if piece.first {
            write_line(alloc, *piece, writer)?;
        }
        self.count(*piece);
        Ok(())
    }

    fn join(self, _spread: &Numbered<Spread>, other: RumourScribe) -> Result<RumourScribe, Memory> {
        Ok(RumourScribe {
            counts: Report {
                heard: self.counts.heard + other.counts.heard,
                told: self.counts.told + other.counts.told,
            },
        })
    }

    fn report(&self, _spread: &Numbered<Spread>) -> Report {
        self.counts
    }

    ghost sized = { λ p pieces s counts. counts.told };

    ghost unordered = { λ p pieces others report. reordered pieces others report };
}

/// Writes the line of a piece.
fn write_line<W: Write>(alloc: Global, piece: Told, writer: &mut Watched<W>) -> Result<(), RunError>
    requires { has_failed writer.old ≡ false }
    ensures whole { OnOk result (Appends (W.contents (wrapped writer.old)) (W.contents (wrapped writer.new)) (line_of piece)) }
    ensures front { AppendsFront (W.contents (wrapped writer.old)) (W.contents (wrapped writer.new)) (line_of piece) }
    ensures writer { has_failed writer.new ≡ is_write result }
    ensures only { IfErr result (λ e. (e ≡ RunError.Memory) ⊎ (e ≡ RunError.Write)) }
{
    let mut text = String::new(alloc);
    push_line(&mut text, piece)?;
    write_text(text.as_bytes(), writer)
}

fn push_line(text: &mut String, piece: Told) -> Result<(), AllocError>
    ensures { OnOk result (string_bytes text.new ≡ string_bytes text.old ++ line_of piece) }
{
    let Told { time, node, .. } = piece;
    writeln!(text, "{time} {node}")
}
