//! Counts of audits for the report.
use chord_audit::AuditLine;

/// The number of audits, and how many of them have each fault that a report counts.
#[derive(Clone, Copy, Default, Drop)]
pub struct AuditCounts {
    pub audits: u64,
    pub ringless: u64,
    pub unordered: u64,
    pub insufficient: u64,
}

impl AuditCounts {
    ghost use Rattle.std.specs.Prelude.{◌≡◌, ◌+◌, ◌≤◌, ◌<◌, ◌^◌, ◌∷◌, []};
    ghost use Rattle.chord_trace.specs.AuditCounts.{audit_counts_in, audits_plus, AreAmong};

    /// Counts one more audit.
    pub(crate) fn add(&mut self, audit: &AuditLine)
        requires room { self.old.audits < 2 ^ 63 }
        requires among { AreAmong self.old }
        ensures { self.new ≡ audits_plus self.old (audit_counts_in (audit.now ∷ [])) }
    {
        self.audits += 1;
        self.ringless += u64::from(audit.ring == 0);
        self.unordered += u64::from(!audit.ordered);
        self.insufficient += u64::from(!audit.sufficient);
    }

    /// The sum of both.
    pub(crate) fn join(self, other: AuditCounts) -> AuditCounts
        requires room { self.audits + other.audits ≤ 2 ^ 63 }
        requires mine { AreAmong self }
        requires others { AreAmong other }
        ensures { result ≡ audits_plus self other }
    {
        AuditCounts {
            audits: self.audits + other.audits,
            ringless: self.ringless + other.ringless,
            unordered: self.unordered + other.unordered,
            insufficient: self.insufficient + other.insufficient,
        }
    }
}
