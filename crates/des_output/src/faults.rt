//! Which of two faults of a window is reported.
ghost use Rattle.std.specs.Prelude.{◌≡◌, ◌⊎◌, ◌≤◌};
ghost use Rattle.des_output.specs.Faults.{rank_of};

use des_event::RunError;

fn rank(fault: RunError) -> u8
    ensures { result ≡ rank_of fault }
{
    match fault {
        RunError::Worker => 0,
        RunError::Memory => 1,
        RunError::TooManyEvents => 2,
        RunError::Write => 3,
        RunError::BadDivision => 4,
    }
}

/// The one of two faults that is reported: `Worker` before `Memory`, and that before
/// `TooManyEvents`.
pub fn graver(one: RunError, other: RunError) -> RunError
    ensures either { (result ≡ one) ⊎ (result ≡ other) }
    ensures first { rank_of result ≤ rank_of one }
    ensures second { rank_of result ≤ rank_of other }
{
    if rank(other) < rank(one) { other } else { one }
}
