//! Writing a text.
ghost use Rattle.std.specs.Prelude.{◌≡◌, false, OnOk, IfErr};
ghost use Rattle.std.specs.Io.KnownBytes.{Appends};
ghost use Rattle.des_output.specs.Watched.{wrapped, has_failed};
ghost use Rattle.des_output.specs.Writing.{AppendsFront, is_write};

use crate::watched::Watched;
use des_event::RunError;
use std::io::Write;

/// Writes the text, and stops at the first call that returns an error or takes nothing. An
/// interrupted call counts as an error: it is not tried again.
pub fn write_text<W: Write>(text: &[u8], writer: &mut Watched<W>) -> Result<(), RunError>
    requires { has_failed writer.old ≡ false }
    ensures whole { OnOk result (Appends (W.contents (wrapped writer.old)) (W.contents (wrapped writer.new)) text.now) }
    ensures front { AppendsFront (W.contents (wrapped writer.old)) (W.contents (wrapped writer.new)) text.now }
    ensures writer { has_failed writer.new ≡ is_write result }
    ensures only { IfErr result (λ e. e ≡ RunError.Write) }
{
    let mut taken = 0;
    while taken < text.len() {
        match writer.write(&text[taken..]) {
            Ok(0) => return Err(RunError::Write),
            Ok(count) => taken += count,
            Err(_) => return Err(RunError::Write),
        }
    }
    Ok(())
}
