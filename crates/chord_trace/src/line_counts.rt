//! Counts of lines for the report.
use chord_event::Line;

/// The number of lines of each kind that a report counts.
#[derive(Clone, Copy, Default, Drop)]
pub struct LineCounts {
    pub members: u64,
    pub join_failed: u64,
    pub crashes: u64,
    pub stranded: u64,
    pub drops: u64,
    pub late: u64,
    pub timeouts: u64,
    pub lookups: u64,
    pub found: u64,
    pub lost: u64,
    pub busy: u64,
    pub ignored: u64,
    /// Lost messages. The first profile has none.
    pub losses: u64,
    /// Requests that were sent again. Only the extended profile has them.
    pub again: u64,
    /// Predecessors that were forgotten. Only the extended profile has them.
    pub forgotten: u64,
    /// Nodes that left. Only the extended profile has them.
    pub leaves: u64,
    /// Fingers that were taken as successors. Only the extended profile has them.
    pub rescues: u64,
    /// Rings that nodes made of their own. Only the extended profile has them.
    pub creates: u64,
}

impl LineCounts {
    ghost use Rattle.std.specs.Prelude.{◌≡◌, ◌-◌, ◌^◌, ◌≤◌, ◌∷◌, [], length};
    ghost use Rattle.chord_trace.specs.Counts.{counts_in, plus, AreWithin};

    /// Counts more lines.
    pub(crate) fn add(&mut self, lines: &[Line])
        requires counts { AreWithin (2 ^ 63 - length lines.now) self.old }
        requires short { length lines.now ≤ 2 ^ 63 }
        ensures { self.new ≡ plus self.old (counts_in lines.now) }
    {
        for line in lines {
            self.add_line(*line);
        }
    }

    /// The sum of both.
    pub(crate) fn join(self, other: LineCounts) -> LineCounts
        requires mine { AreWithin (2 ^ 62) self }
        requires others { AreWithin (2 ^ 62) other }
        ensures { result ≡ plus self other }
    {
        LineCounts {
            members: self.members + other.members,
            join_failed: self.join_failed + other.join_failed,
            crashes: self.crashes + other.crashes,
            stranded: self.stranded + other.stranded,
            drops: self.drops + other.drops,
            late: self.late + other.late,
            timeouts: self.timeouts + other.timeouts,
            lookups: self.lookups + other.lookups,
            found: self.found + other.found,
            lost: self.lost + other.lost,
            busy: self.busy + other.busy,
            ignored: self.ignored + other.ignored,
            losses: self.losses + other.losses,
            again: self.again + other.again,
            forgotten: self.forgotten + other.forgotten,
            leaves: self.leaves + other.leaves,
            rescues: self.rescues + other.rescues,
            creates: self.creates + other.creates,
        }
    }

    fn add_line(&mut self, line: Line)
        requires { AreWithin (2 ^ 63) self.old }
        ensures { self.new ≡ plus self.old (counts_in (line ∷ [])) }
    {
        match line {
            // A report has no number of these.
            Line::Join { .. } | Line::Ask { .. } | Line::Seek { .. } | Line::Send { .. } => {}
            Line::Member { .. } => self.members += 1,
            Line::JoinFailed => self.join_failed += 1,
            Line::Crash => self.crashes += 1,
            Line::Stranded { .. } => self.stranded += 1,
            Line::Drop { .. } => self.drops += 1,
            Line::Late { .. } => self.late += 1,
            Line::Timeout { .. } => self.timeouts += 1,
            Line::Lookup { .. } => self.lookups += 1,
            Line::Found { .. } => self.found += 1,
            Line::Lost { .. } => self.lost += 1,
            Line::Busy { .. } => self.busy += 1,
            Line::Ignored { .. } => self.ignored += 1,
            Line::Lose { .. } => self.losses += 1,
            Line::Again { .. } => self.again += 1,
            Line::Forget { .. } => self.forgotten += 1,
            Line::Leave => self.leaves += 1,
            Line::Rescue { .. } => self.rescues += 1,
            Line::Create => self.creates += 1,
        }
    }
}
