//! How a Chord ring's run is written down.
use chord_event::{Memory, RunError};
use chord_scenario::Scenario;
use chord_trace::{Piece, Report, Tally, Watched, write_audit, write_block};
use des_machine::{Machine, Scribe};
use std::alloc::Global;
use std::io::Write;

/// The Chord ring of a scenario, as a machine.
pub trait RingMachine: Machine<Piece = Piece> {
    ghost use Rattle.std.specs.Prelude.{◌≡◌};
    ghost use Rattle.chord_machine.specs.Pieces.{IsKnownPiece};
    ghost use Rattle.chord_scenario.specs.declared.scenario.Scenario.{Scenario as AScenario};
    ghost use Rattle.chord_trace.specs.declared.piece.Piece.{Piece as APiece};

    // The scenario of the ring.
    ghost scenario_of: { Self → AScenario };

    /// The scenario of the ring.
    fn scenario(&self) -> &Scenario
        ensures { result.now ≡ scenario_of self.now };

    // A piece that the machine knows is a known one of the scenario.
    ghost known: { (ring : Self) (piece : APiece) → Self.Known ring piece → IsKnownPiece (scenario_of ring) piece };
}

/// Writes the trace of a Chord ring, and tallies what its report tells.
#[derive(Drop)]
pub struct ChordScribe {
    pub tally: Tally,
}

impl<R: RingMachine> Scribe<R> for ChordScribe {
    ghost use Rattle.std.specs.Prelude.{◌≡◌};
    ghost use Rattle.chord_trace.proofs.Reports.{reordered};
    ghost use Rattle.chord_trace.specs.Report.{IsReportOf};
    ghost use Rattle.chord_trace.specs.Tally.{IsTallyOf, taken};
    ghost use Rattle.chord_trace.specs.Texts.{piece_text};

    type Report = Report;

    ghost text = { λ ring p. piece_text (R.scenario_of ring) p };

    ghost HasCounted = { λ ring pieces s. IsTallyOf (R.scenario_of ring).profile pieces s.tally };

    ghost size = { λ s. taken s.tally };

    ghost IsReport = { λ ring pieces report. IsReportOf (R.scenario_of ring).profile pieces report };

    fn start(alloc: Global, ring: &R) -> ChordScribe {
        ChordScribe {
            tally: Tally::new(alloc, ring.scenario().profile()),
        }
    }

    #[inline(always)]
    fn put<W: Write>(
        &mut self,
        alloc: Global,
        ring: &R,
        piece: &Piece,
        writer: &mut Watched<W>,
    ) -> Result<(), RunError> {
        match piece {
            Piece::OfEvent { block } => {
                write_block(alloc, ring.scenario(), block, writer)?;
                self.tally.add(block)?;
            }
            Piece::OfAudit { audit } => {
                write_audit(alloc, audit, writer)?;
                self.tally.add_audit(audit);
            }
        }
        Ok(())
    }

    fn join(self, _ring: &R, other: ChordScribe) -> Result<ChordScribe, Memory> {
        let tally = self.tally.join(other.tally)?;
        Ok(ChordScribe { tally })
    }

    fn report(&self, _ring: &R) -> Report {
        self.tally.report()
    }

    ghost sized = { λ ring pieces s h. h.size };

    ghost unordered = { λ ring pieces others report. reordered (R.scenario_of ring).profile pieces others report };
}
