//! Steps and assertions of tests as functions. A test that asserts texts or that may return early is proved slowly, so
//! that is done here once.
ghost use Rattle.std.specs.Prelude.{◌≡◌, Ok};

use std::fmt::Debug;
use std::process::Abort;

/// The value of a step, which must not fail.
pub fn value_of<T, E: Debug>(rt: &impl Abort, step: Result<T, E>) -> T
    ensures { step ≡ Ok result }
{
    match step {
        Ok(value) => value,
        Err(error) => panic!(rt; "error: {error:?}"),
    }
}

/// Asserts that a text is this one.
pub fn is_text(rt: &impl Abort, found: &str, text: &str) {
    assert!(rt; found == text, "{found}");
}

/// Asserts a fact. `how` says of what it is one.
pub fn holds<D: Debug>(rt: &impl Abort, fact: bool, how: &D) {
    assert!(rt; fact, "{how:?}");
}
