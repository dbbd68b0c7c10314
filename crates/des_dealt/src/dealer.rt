//! Who divides the nodes.
use des_event::Memory;
use des_window::Division;

/// Divides the nodes among the parts before each window. It may go by what the nodes have handled
/// so far: the bytes of a trace and its report do not depend on the divisions.
pub trait Dealer {
    ghost use Rattle.std.specs.Prelude.{ℕ, length, IfOk};
    ghost use Rattle.des_model.specs.Windows.{Division as ADivision};

    // The divisions that it may name for this number of nodes. So a dealer that only names
    // divisions of the right length never meets `BadDivision`.
    ghost can_name: { ℕ → ADivision → Type 0 };

    /// The division for the next window. `loads` has, for each node, the number of events that it
    /// has handled so far.
    ///
    /// # Errors
    ///
    /// `Memory`, if an allocation fails.
    fn deal(&mut self, loads: &[u64]) -> Result<Division, Memory>
        ensures named { IfOk result (λ d. can_name (length loads.now) d) };
}
