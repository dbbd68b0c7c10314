//! How the two texts are read.
ghost use Rattle.std.specs.Prelude.{◌≡◌, ◌≤◌, false, Err, IfOk, OnOk, vec_len};
ghost use Rattle.std.specs.Io.KnownBytes.{Consumes, IsAtEnd};
ghost use Rattle.chord_play.specs.Faults.{is_read_fault};
ghost use Rattle.chord_play.specs.Texts.{IsCutOff};
ghost use Rattle.des_output.specs.Watched.{wrapped, has_failed};

use chord_trace::Watched;
use std::alloc::{AllocError, Global};
use std::io::Read;

/// The most bytes of a text.
const LIMIT: usize = 16_777_216;

/// Why a text was not read.
#[derive(Clone, Copy, Drop)]
pub(crate) enum TextFault {
    Read,
    TooLong,
    Memory,
}

impl From<AllocError> for TextFault {
    ghost use Rattle.chord_play.specs.declared.text_reader.TextFault.TheVariants.{Memory};

    ghost from_gives = { λ _ fault. fault ≡ Memory };

    fn from(_error: AllocError) -> TextFault {
        TextFault::Memory
    }
}

/// Reads a text to its end, or to one byte beyond the limit.
pub(crate) fn read_text<R: Read>(
    alloc: Global,
    reader: &mut Watched<R>,
) -> Result<Vec<u8>, TextFault>
    requires { has_failed reader.old ≡ false }
    ensures whole { IfOk result (λ text. Consumes (R.remaining (wrapped reader.old)) (R.remaining (wrapped reader.new)) text.items) }
    ensures end { OnOk result (IsAtEnd (R.remaining (wrapped reader.new))) }
    ensures reader { has_failed reader.new ≡ is_read_fault result }
    ensures short { IfOk result (λ text. vec_len text ≤ 16777216) }
    ensures long { result ≡ Err TextFault.TooLong → IsCutOff (R.remaining (wrapped reader.old)) (R.remaining (wrapped reader.new)) }
{
    let mut text = Vec::new(alloc);
    let mut chunk = [0u8; 8192];
    while text.len() <= LIMIT {
        let most = chunk.len().min(LIMIT + 1 - text.len());
        let Ok(count) = reader.read(&mut chunk[..most]) else {
            return Err(TextFault::Read);
        };
        if count == 0 {
            return Ok(text);
        }
        text.extend_from_slice(&chunk[..count])?;
    }
    Err(TextFault::TooLong)
}
