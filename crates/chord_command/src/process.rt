//! The arguments of the process.
ghost use Rattle.std.specs.Prelude.{◌≡◌, ◌≢◌};
ghost use Rattle.std.specs.IoError.{error_kind};

use crate::order::Order;
use crate::words::{WordFault, read_words};
use std::env;
use std::io::{Error, ErrorKind};
use std::rt::Env;

/// Reads the order that the arguments of the process give.
pub fn read_process(rt: &(impl Env + AllocGlobal)) -> Result<Order, WordFault> {
    let words = env::args(rt).map_err(unread)?.collect(rt.alloc())?;
    read_words(rt.alloc(), words)
}

/// Why the arguments of the process were not read: an allocation failed, or one of them is not UTF-8 text.
fn unread(error: Error) -> WordFault
    ensures memory { error_kind error ≡ ErrorKind.OutOfMemory → result ≡ WordFault.Memory }
    ensures no_text { error_kind error ≢ ErrorKind.OutOfMemory → result ≡ WordFault.NotText }
{
    if error.kind() == ErrorKind::OutOfMemory {
        WordFault::Memory
    } else {
        WordFault::NotText
    }
}
