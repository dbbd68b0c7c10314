//! Names of nodes.
ghost use Rattle.std.specs.Prelude.{◌≡◌, ◌++◌, ℕ, List, decimal, string_bytes, IfOk};

use std::alloc::{AllocError, Global};
use std::fmt::Write as _;
use std::marker::Model;

/// Room in bytes for the digits of each number of a class of nodes.
const ROOM_FOR_DIGITS: usize = 7;

/// A node's name, which contracts see as its bytes.
#[derive(Drop)]
pub struct Name {
    text: String,
}

impl Model for Name {
    ghost use Rattle.std.specs.Prelude.{ℕ, List, string_bytes};

    ghost Value = { List ℕ };

    ghost view = { λ n. string_bytes n.text };
}

impl Name {
    /// A copy of a text as a name.
    pub fn new(alloc: Global, text: &str) -> Result<Self, AllocError>
        ensures { IfOk result (λ n. n ≡ text.now) }
    {
        Ok(Name {
            text: String::from_str(alloc, text)?,
        })
    }

    /// The name that a prefix and a number make.
    pub fn numbered(alloc: Global, prefix: &str, number: u64) -> Result<Self, AllocError>
        ensures { IfOk result (λ n. n ≡ prefix.now ++ decimal number) }
    {
        let mut text = String::with_capacity(alloc, prefix.len() + ROOM_FOR_DIGITS)?;
        write!(text, "{prefix}{number}")?;
        Ok(Name { text })
    }

    /// The name as a text.
    pub fn as_str(&self) -> &str
        ensures { result.now ≡ self.now }
    {
        self.text.as_str()
    }
}
