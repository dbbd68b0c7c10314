//! The tally from which a report is made.
ghost use Rattle.std.specs.Prelude.{◌≡◌, ◌+◌, ◌*◌, ◌≤◌, ◌^◌, length};
ghost use Rattle.chord_scenario.specs.Blocks.{most_lines};
ghost use Rattle.chord_trace.specs.AuditCounts.{AreAmong};
ghost use Rattle.chord_trace.specs.Counts.{AreWithin};
ghost use Rattle.chord_trace.specs.FoundLookups.{found_len};

use crate::audit_counts::AuditCounts;
use crate::found_lookups::FoundLookups;
use crate::line_counts::LineCounts;
use crate::report::Report;
use chord_audit::AuditLine;
use chord_event::{Block, Memory};
use std::alloc::Global;

/// What the report needs of the blocks and audits so far.
#[derive(Drop)]
pub struct Tally {
    profile: u32,
    events: u64,
    counts: LineCounts,
    founds: FoundLookups,
    audits: AuditCounts,
    ghost counts_fit: { AreWithin (most_lines * events) counts },
    ghost founds_fit: { found_len founds ≤ most_lines * events },
    ghost audits_fit: { AreAmong audits },
}

impl Tally {
    ghost use Rattle.std.specs.Prelude.{◌≡◌, ℕ, ◌+◌, ◌^◌, ◌<◌, ◌≤◌, List, [], ◌∷◌, ◌++◌, length, IfOk, OnOk};
    ghost use Rattle.chord_trace.specs.Report.{IsReportOf};
    ghost use Rattle.chord_trace.specs.Tally.{IsTallyOf, taken};
    ghost use Rattle.chord_trace.specs.declared.piece.Piece.{Piece};
    ghost use Rattle.chord_trace.specs.declared.piece.Piece.TheVariants as piece;

    /// The tally of an empty trace in a profile.
    pub fn new(alloc: Global, profile: u32) -> Tally
        ensures { IsTallyOf profile [] result }
    {
        Tally {
            profile,
            events: 0,
            counts: LineCounts::default(),
            founds: FoundLookups::new(alloc),
            audits: AuditCounts::default(),
        }
    }

    /// Adds an event's block.
    pub fn add(&mut self, block: &Block) -> Result<(), Memory>
        requires room { taken self.old < 2 ^ 40 }
        requires short { length block.now.lines ≤ most_lines }
        ensures piece { OnOk result ((profile : ℕ) (pieces : List Piece) → IsTallyOf profile pieces self.old → IsTallyOf profile (pieces ++ piece.OfEvent block.now ∷ []) self.new) }
        ensures size { OnOk result (taken self.new ≡ taken self.old + 1) }
    {
        let lines = block.lines.as_slice();
        self.events += 1;
        self.counts.add(lines);
        self.founds.add_lines(lines)?;
        Ok(())
    }

    /// Adds an audit.
    pub fn add_audit(&mut self, audit: &AuditLine)
        requires room { taken self.old < 2 ^ 40 }
        ensures piece { (profile : ℕ) (pieces : List Piece) → IsTallyOf profile pieces self.old → IsTallyOf profile (pieces ++ piece.OfAudit audit.now ∷ []) self.new }
        ensures size { taken self.new ≡ taken self.old + 1 }
    {
        self.audits.add(audit);
    }

    /// The tally of both together, which are of one profile. If an allocation fails, both are
    /// dropped.
    pub fn join(self, other: Tally) -> Result<Tally, Memory>
        requires room { taken self + taken other ≤ 2 ^ 40 }
        requires same_profile { self.profile ≡ other.profile }
        ensures pieces { IfOk result (λ joined. (profile : ℕ) (mine others : List Piece) → IsTallyOf profile mine self → IsTallyOf profile others other → IsTallyOf profile (mine ++ others) joined) }
        ensures size { IfOk result (λ joined. taken joined ≡ taken self + taken other) }
    {
        Ok(Tally {
            profile: self.profile,
            events: self.events + other.events,
            counts: self.counts.join(other.counts),
            founds: self.founds.join(other.founds)?,
            audits: self.audits.join(other.audits),
        })
    }

    /// The report of the blocks and audits so far.
    pub fn report(&self) -> Report
        ensures { (profile : ℕ) (pieces : List Piece) → IsTallyOf profile pieces self.now → IsReportOf profile pieces result }
    {
        let lines = self.counts;
        let LineCounts {
            lookups,
            found,
            lost,
            ..
        } = lines;
        Report {
            events: self.events,
            lines,
            unfinished: lookups.saturating_sub(found).saturating_sub(lost),
            hops_sum: self.founds.hops_sum,
            hops_greatest: self.founds.hops_greatest,
            timeouts_sum: self.founds.timeouts_sum,
            us_sum: self.founds.us_sum,
            us_least: self.founds.us_least,
            us_median: self.founds.us_median(),
            us_greatest: self.founds.us_greatest,
            audits: self.audits,
            profile: self.profile,
        }
    }
}
