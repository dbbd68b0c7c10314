//! What writes a run down.
use crate::machine::Machine;
use des_event::{Memory, RunError};
use des_output::Watched;
use std::alloc::Global;
use std::io::Write;

/// Writes the trace of a machine piece by piece, and counts what the report tells.
pub trait Scribe<M: Machine> {
    ghost use Rattle.std.specs.Prelude.{◌≡◌, ◌⊎◌, ◌+◌, ◌<◌, ◌≤◌, ◌^◌, ◌++◌, ◌∷◌, [], ℕ, List, length, false, IfErr, IfOk, OnOk};
    ghost use Rattle.std.specs.Io.KnownBytes.{Appends};
    ghost use Rattle.std.specs.List.Sorted.{IsPermutation};
    ghost use Rattle.des_output.specs.Watched.{wrapped, has_failed};
    ghost use Rattle.des_output.specs.Writing.{AppendsFront, is_write};

    /// What it tells at the end of a run.
    type Report: Drop;

    // The text of a piece.
    ghost text: { M → M.Piece → List ℕ };

    // It has counted these pieces.
    ghost HasCounted: { M → List M.Piece → Self → Type 0 };

    // How many these are.
    ghost size: { Self → ℕ };

    // The report of these pieces.
    ghost IsReport: { M → List M.Piece → Self.Report → Type 0 };

    /// A scribe that has counted nothing.
    fn start(alloc: Global, machine: &M) -> Self
        ensures { HasCounted machine.now [] result };

    /// Writes a piece, and counts it. After an error the scribe is not read again.
    fn put<W: Write>(
        &mut self,
        alloc: Global,
        machine: &M,
        piece: &M::Piece,
        writer: &mut Watched<W>,
    ) -> Result<(), RunError>
        requires known { M.Known machine.now piece.now }
        requires room { size self.old < 2 ^ 40 }
        requires sound { has_failed writer.old ≡ false }
        ensures written { OnOk result (Appends (W.contents (wrapped writer.old)) (W.contents (wrapped writer.new)) (text machine.now piece.now)) }
        ensures front { AppendsFront (W.contents (wrapped writer.old)) (W.contents (wrapped writer.new)) (text machine.now piece.now) }
        ensures counted { OnOk result ((pieces : List M.Piece) → HasCounted machine.now pieces self.old → HasCounted machine.now (pieces ++ piece.now ∷ []) self.new) }
        ensures size { OnOk result (size self.new ≡ size self.old + 1) }
        ensures writer { has_failed writer.new ≡ is_write result }
        ensures only { IfErr result (λ e. (e ≡ RunError.Memory) ⊎ (e ≡ RunError.Write)) };

    /// One scribe that has counted what both have. If an allocation fails, both are dropped.
    fn join(self, machine: &M, other: Self) -> Result<Self, Memory>
        requires room { size self + size other ≤ 2 ^ 40 }
        requires mine { (pieces : List M.Piece) × HasCounted machine.now pieces self }
        requires others { (pieces : List M.Piece) × HasCounted machine.now pieces other }
        ensures counted { IfOk result (λ joined. (mine others : List M.Piece) → HasCounted machine.now mine self → HasCounted machine.now others other → HasCounted machine.now (mine ++ others) joined) }
        ensures size { IfOk result (λ joined. size joined ≡ size self + size other) };

    /// The report of what it has counted.
    fn report(&self, machine: &M) -> Self::Report
        ensures { (pieces : List M.Piece) → HasCounted machine.now pieces self.now → IsReport machine.now pieces result };

    // It has counted as many pieces as it says.
    ghost sized: { (m : M) (pieces : List M.Piece) (s : Self) → HasCounted m pieces s → size s ≡ length pieces };

    // The report does not depend on the order of the pieces.
    ghost unordered: { (m : M) (pieces others : List M.Piece) (report : Self.Report) → IsPermutation pieces others → IsReport m pieces report → IsReport m others report };
}
