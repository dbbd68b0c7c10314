//! How a run of PHOLD is written down.
ghost use Rattle.std.specs.Prelude.{◌≡◌, ◌⊎◌, ◌+◌, ◌*◌, ◌<◌, ◌≤◌, ◌^◌, ◌++◌, false, string_bytes, IfErr, OnOk};
ghost use Rattle.std.specs.Io.KnownBytes.{Appends};
ghost use Rattle.des_output.specs.Watched.{wrapped, has_failed};
ghost use Rattle.des_output.specs.Writing.{AppendsFront, is_write};
ghost use Rattle.phold_machine.specs.Texts.{hop_text};
ghost use Rattle.phold_rules.specs.Counts.{remote_of};

use crate::phold::Phold;
use des_event::{Memory, RunError};
use des_machine::Scribe;
use des_output::{Watched, write_text};
use phold_rules::{Hop, PholdReport};
use std::alloc::{AllocError, Global};
use std::fmt::Write as _;
use std::io::Write;

/// Writes a line for each hop, if the trace is wanted, and counts what the report tells.
#[derive(Drop)]
pub struct PholdScribe {
    counts: PholdReport,
    ghost remote_fits: { counts.remote ≤ counts.events },
    ghost times_fit: { counts.time_sum ≤ counts.events * 2 ^ 64 },
}

impl PholdScribe {
    /// Counts a hop.
    fn count(&mut self, hop: Hop)
        requires { self.old.counts.events < 2 ^ 40 }
        ensures events { self.new.counts.events ≡ self.old.counts.events + 1 }
        ensures remote { self.new.counts.remote ≡ self.old.counts.remote + remote_of hop }
        ensures time_sum { self.new.counts.time_sum ≡ self.old.counts.time_sum + hop.time }
    {
        let PholdReport {
            events,
            remote,
            time_sum,
        } = self.counts;
        self.counts = PholdReport {
            events: events + 1,
            remote: if hop.node == hop.receiver {
                remote
            } else {
                remote + 1
            },
            time_sum: time_sum + u128::from(hop.time),
        };
    }
}

impl Scribe<Phold> for PholdScribe {
    ghost use Rattle.std.specs.Prelude.{◌≡◌};
    ghost use Rattle.phold_rules.specs.Counts.{AreCounts};
    ghost use Rattle.phold_machine.specs.Texts.{text_of};
    ghost use Rattle.phold_rules.proofs.Counted.{reordered};

    type Report = PholdReport;

    ghost text = { λ p hop. text_of p hop };

    ghost HasCounted = { λ _ hops s. AreCounts hops s.counts };

    ghost size = { λ s. s.counts.events };

    ghost IsReport = { λ _ hops report. AreCounts hops report };

    fn start(_alloc: Global, _phold: &Phold) -> PholdScribe {
        PholdScribe {
            counts: PholdReport {
                events: 0,
                remote: 0,
                time_sum: 0,
            },
        }
    }

    fn put<W: Write>(
        &mut self,
        alloc: Global,
        phold: &Phold,
        hop: &Hop,
        writer: &mut Watched<W>,
    ) -> Result<(), RunError> {
        if phold.settings().trace {
            write_hop(alloc, *hop, writer)?;
        }
        self.count(*hop);
        Ok(())
    }

    fn join(self, _phold: &Phold, other: PholdScribe) -> Result<PholdScribe, Memory> {
        Ok(PholdScribe {
            counts: PholdReport {
                events: self.counts.events + other.counts.events,
                remote: self.counts.remote + other.counts.remote,
                time_sum: self.counts.time_sum + other.counts.time_sum,
            },
        })
    }

    fn report(&self, _phold: &Phold) -> PholdReport {
        self.counts
    }

    ghost sized = { λ p hops s counts. counts.events };

    ghost unordered = { λ p hops others report. reordered hops others report };
}

/// Writes the line of a hop.
fn write_hop<W: Write>(alloc: Global, hop: Hop, writer: &mut Watched<W>) -> Result<(), RunError>
    requires { has_failed writer.old ≡ false }
    ensures whole { OnOk result (Appends (W.contents (wrapped writer.old)) (W.contents (wrapped writer.new)) (hop_text hop)) }
    ensures front { AppendsFront (W.contents (wrapped writer.old)) (W.contents (wrapped writer.new)) (hop_text hop) }
    ensures writer { has_failed writer.new ≡ is_write result }
    ensures only { IfErr result (λ e. (e ≡ RunError.Memory) ⊎ (e ≡ RunError.Write)) }
{
    let mut text = String::new(alloc);
    push_hop(&mut text, hop)?;
    write_text(text.as_bytes(), writer)
}

fn push_hop(text: &mut String, hop: Hop) -> Result<(), AllocError>
    ensures { OnOk result (string_bytes text.new ≡ string_bytes text.old ++ hop_text hop) }
{
    let Hop {
        time,
        node,
        receiver,
    } = hop;
    writeln!(text, "{time} {node} {receiver}")
}
