//! The report of a run.
ghost use Rattle.std.specs.Prelude.{◌≡◌, ◌⊎◌, ℕ, ◌++◌, false, [], if◌then◌else◌, List, map, OnOk, IfErr, string_bytes};
ghost use Rattle.std.specs.Io.KnownBytes.{Appends};
ghost use Rattle.std.specs.List.Sorted.{IsPermutation};
ghost use Rattle.chord_trace.specs.Report.{IsReportOf};
ghost use Rattle.chord_trace.specs.ReportText.{extended_numbers_of, network_numbers_of, numbers_of, number_text, report_text};
ghost use Rattle.des_output.specs.Watched.{wrapped, has_failed};
ghost use Rattle.des_output.specs.Writing.{AppendsFront, is_write};
ghost use Rattle.chord_trace.specs.declared.piece.Piece.{Piece};

use crate::audit_counts::AuditCounts;
use crate::line_counts::LineCounts;
use chord_event::RunError;
use chord_scenario::EXTENDED_PROFILE;
use des_output::{Watched, write_text};
use std::alloc::{AllocError, Global};
use std::fmt::Write as _;
use std::io::Write;

/// The numbers of a trace. Times are in microseconds.
#[derive(Clone, Copy, Drop)]
pub struct Report {
    pub events: u64,
    pub lines: LineCounts,
    pub unfinished: u64,
    pub hops_sum: u128,
    pub hops_greatest: u64,
    /// The timeouts of the lookups that were found. Written in the extended profile only.
    pub timeouts_sum: u128,
    pub us_sum: u128,
    pub us_least: u64,
    pub us_median: u64,
    pub us_greatest: u64,
    pub audits: AuditCounts,
    /// The profile of the scenario. It decides which of the numbers are written.
    pub profile: u32,
}

impl Report {
    /// Writes a line for each number. The error is `Memory` if an allocation fails, and `Write` if
    /// the writer fails.
    pub fn write<W: Write>(&self, alloc: Global, writer: &mut Watched<W>) -> Result<(), RunError>
        requires { has_failed writer.old ≡ false }
        ensures whole { OnOk result (Appends (W.contents (wrapped writer.old)) (W.contents (wrapped writer.new)) (report_text self.now)) }
        ensures front { AppendsFront (W.contents (wrapped writer.old)) (W.contents (wrapped writer.new)) (report_text self.now) }
        ensures writer { has_failed writer.new ≡ is_write result }
        ensures only { IfErr result (λ e. (e ≡ RunError.Memory) ⊎ (e ≡ RunError.Write)) }
    {
        let mut text = String::new(alloc);
        self.push(&mut text)?;
        write_text(text.as_bytes(), writer)
    }

    fn push(&self, text: &mut String) -> Result<(), AllocError>
        ensures { OnOk result (string_bytes text.new ≡ string_bytes text.old ++ report_text self.now) }
    {
        push_numbers(text, &self.numbers())?;
        push_if(text, self.profile > 1, &self.network_numbers())?;
        push_if(
            text,
            self.profile == EXTENDED_PROFILE,
            &self.extended_numbers(),
        )
    }

    /// The numbers that every profile has.
    fn numbers(&self) -> [(&'static str, u128); 24]
        ensures { map (λ p. (p.0.now, p.1)) result ≡ numbers_of self.now }
    {
        [
            ("events", u128::from(self.events)),
            ("members", u128::from(self.lines.members)),
            ("join-failed", u128::from(self.lines.join_failed)),
            ("crashes", u128::from(self.lines.crashes)),
            ("stranded", u128::from(self.lines.stranded)),
            ("drops", u128::from(self.lines.drops)),
            ("late", u128::from(self.lines.late)),
            ("timeouts", u128::from(self.lines.timeouts)),
            ("lookups", u128::from(self.lines.lookups)),
            ("found", u128::from(self.lines.found)),
            ("lost", u128::from(self.lines.lost)),
            ("busy", u128::from(self.lines.busy)),
            ("ignored", u128::from(self.lines.ignored)),
            ("unfinished", u128::from(self.unfinished)),
            ("hops-sum", self.hops_sum),
            ("hops-greatest", u128::from(self.hops_greatest)),
            ("us-sum", self.us_sum),
            ("us-least", u128::from(self.us_least)),
            ("us-median", u128::from(self.us_median)),
            ("us-greatest", u128::from(self.us_greatest)),
            ("audits", u128::from(self.audits.audits)),
            ("ringless", u128::from(self.audits.ringless)),
            ("unordered", u128::from(self.audits.unordered)),
            ("insufficient", u128::from(self.audits.insufficient)),
        ]
    }

    /// The numbers of a network that loses messages.
    fn network_numbers(&self) -> [(&'static str, u128); 1]
        ensures { map (λ p. (p.0.now, p.1)) result ≡ network_numbers_of self.now }
    {
        [("losses", u128::from(self.lines.losses))]
    }

    /// The numbers of the extended profile.
    fn extended_numbers(&self) -> [(&'static str, u128); 6]
        ensures { map (λ p. (p.0.now, p.1)) result ≡ extended_numbers_of self.now }
    {
        [
            ("again", u128::from(self.lines.again)),
            ("forgotten", u128::from(self.lines.forgotten)),
            ("leaves", u128::from(self.lines.leaves)),
            ("rescues", u128::from(self.lines.rescues)),
            ("creates", u128::from(self.lines.creates)),
            ("timeouts-sum", self.timeouts_sum),
        ]
    }
}

/// Adds numbers that not every profile has.
fn push_if(text: &mut String, has: bool, numbers: &[(&str, u128)]) -> Result<(), AllocError>
    ensures { OnOk result (string_bytes text.new ≡ string_bytes text.old ++ number_text (if has then map (λ p. (p.0.now, p.1)) numbers.now else [])) }
{
    if has {
        push_numbers(text, numbers)
    } else {
        Ok(())
    }
}

fn push_numbers(text: &mut String, numbers: &[(&str, u128)]) -> Result<(), AllocError>
    ensures { OnOk result (string_bytes text.new ≡ string_bytes text.old ++ number_text (map (λ p. (p.0.now, p.1)) numbers.now)) }
{
    for (word, number) in numbers {
        writeln!(text, "{word} {number}")?;
    }
    Ok(())
}

/// A trace has one report.
pub fn reports_are_unique()
    ensures { (profile : ℕ) (pieces : List Piece) (a b : Report) → IsReportOf profile pieces a → IsReportOf profile pieces b → a ≡ b }
{}

/// A report does not depend on the order of the pieces of a trace.
pub fn reports_need_no_order()
    ensures { (profile : ℕ) (pieces others : List Piece) (report : Report) → IsPermutation pieces others → IsReportOf profile pieces report → IsReportOf profile others report }
{}
