//! The text of an audit.
ghost use Rattle.std.specs.Prelude.{◌≡◌, ◌⊎◌, ◌++◌, false, OnOk, IfErr, string_bytes};
ghost use Rattle.std.specs.Io.KnownBytes.{Appends};
ghost use Rattle.chord_trace.specs.Texts.{yes_or_no, audit_text};
ghost use Rattle.des_output.specs.Watched.{wrapped, has_failed};
ghost use Rattle.des_output.specs.Writing.{AppendsFront, is_write};

use chord_audit::AuditLine;
use chord_event::RunError;
use des_output::{Watched, write_text};
use std::alloc::{AllocError, Global};
use std::fmt::Write as _;
use std::io::Write;

/// Writes the line of an audit. The error is `Memory` if an allocation fails, and `Write` if the
/// writer fails.
pub fn write_audit<W: Write>(
    alloc: Global,
    audit: &AuditLine,
    writer: &mut Watched<W>,
) -> Result<(), RunError>
    requires { has_failed writer.old ≡ false }
    ensures whole { OnOk result (Appends (W.contents (wrapped writer.old)) (W.contents (wrapped writer.new)) (audit_text audit.now)) }
    ensures front { AppendsFront (W.contents (wrapped writer.old)) (W.contents (wrapped writer.new)) (audit_text audit.now) }
    ensures writer { has_failed writer.new ≡ is_write result }
    ensures only { IfErr result (λ e. (e ≡ RunError.Memory) ⊎ (e ≡ RunError.Write)) }
{
    let mut text = String::new(alloc);
    push_audit(&mut text, *audit)?;
    write_text(text.as_bytes(), writer)
}

fn push_audit(text: &mut String, audit: AuditLine) -> Result<(), AllocError>
    ensures { OnOk result (string_bytes text.new ≡ string_bytes text.old ++ audit_text audit) }
{
    let AuditLine {
        time,
        members,
        dead,
        ring,
        principals,
        ..
    } = audit;
    let ordered = yes_or_no(audit.ordered);
    let sufficient = yes_or_no(audit.sufficient);
    writeln!(
        text,
        "{time} audit members={members} dead={dead} ring={ring} ordered={ordered} principals={principals} sufficient={sufficient}"
    )
}

fn yes_or_no(holds: bool) -> &'static str
    ensures { result.now ≡ yes_or_no holds }
{
    if holds { "yes" } else { "no" }
}
