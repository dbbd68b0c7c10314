//! What a run has told so far.
ghost use Rattle.std.specs.Prelude.{◌≡◌, ◌⊎◌, ℕ, ◌+◌, ◌≤◌, ◌<◌, ◌^◌, ◌∷◌, [], false, length, nat_lt, OnOk, IfErr};
ghost use Rattle.std.specs.List.{filter};
ghost use Rattle.des_machine.specs.Runs.{Adds, WritesFront};
ghost use Rattle.des_machine.specs.Simulable.{AreSound, AreStates};
ghost use Rattle.des_model.specs.Scribes.{audits_at, due};
ghost use Rattle.des_output.specs.Watched.{wrapped, has_failed};
ghost use Rattle.des_output.specs.Writing.{is_write};

use crate::audit_clock::AuditClock;
use crate::machine::Machine;
use crate::scribe::Scribe;
use crate::states::States;
use des_event::RunError;
use des_output::Watched;
use std::alloc::Global;
use std::io::Write;

/// A scribe, and the audits that it has still to write.
#[derive(Drop)]
pub struct Journal<S> {
    pub scribe: S,
    pub clock: AuditClock,
}

impl<S: Drop> Journal<S> {
    /// Makes the audit of a time, and writes it.
    #[inline(never)]
    fn put_audit<M: Machine, V: States<M::State>, W: Write>(
        &mut self,
        alloc: Global,
        machine: &M,
        states: &V,
        time: u64,
        writer: &mut Watched<W>,
    ) -> Result<(), RunError>
    where
        S: Scribe<M>,
        requires states { AreSound (M.model machine.now) (M.Sound machine.now) (V.list states.now) }
        requires room { S.size self.old.scribe < 2 ^ 40 }
        requires sound { has_failed writer.old ≡ false }
        ensures adds { OnOk result ((account : ℕ → M.State) → AreStates (M.model machine.now) (V.list states.now) account → Adds (S.text machine.now) (S.HasCounted machine.now) (W.contents (wrapped writer.old)) (W.contents (wrapped writer.new)) self.old.scribe self.new.scribe (audits_at (M.model machine.now) account (time ∷ []))) }
        ensures size { OnOk result (S.size self.new.scribe ≡ S.size self.old.scribe + 1) }
        ensures clock { self.new.clock ≡ self.old.clock }
        ensures front { (account : ℕ → M.State) → AreStates (M.model machine.now) (V.list states.now) account → WritesFront (S.text machine.now) (W.contents (wrapped writer.old)) (W.contents (wrapped writer.new)) (audits_at (M.model machine.now) account (time ∷ [])) }
        ensures writer { has_failed writer.new ≡ is_write result }
        ensures only { IfErr result (λ e. (e ≡ RunError.Memory) ⊎ (e ≡ RunError.Write)) }
    {
        let piece = machine.audit(alloc, states, time)?;
        self.scribe.put(alloc, machine, &piece, writer)
    }

    /// Makes the audits that are due by a time, and writes them.
    // Inlined, since few events have an audit that is due: the others then make no call.
    #[inline(always)]
    pub fn put_audits<M: Machine, V: States<M::State>, W: Write>(
        &mut self,
        alloc: Global,
        machine: &M,
        states: &V,
        time: u64,
        writer: &mut Watched<W>,
    ) -> Result<(), RunError>
    where
        S: Scribe<M>,
        requires states { AreSound (M.model machine.now) (M.Sound machine.now) (V.list states.now) }
        requires room { S.size self.old.scribe + length self.old.clock ≤ 2 ^ 40 }
        requires sound { has_failed writer.old ≡ false }
        ensures adds { OnOk result ((account : ℕ → M.State) → AreStates (M.model machine.now) (V.list states.now) account → Adds (S.text machine.now) (S.HasCounted machine.now) (W.contents (wrapped writer.old)) (W.contents (wrapped writer.new)) self.old.scribe self.new.scribe (audits_at (M.model machine.now) account (due time self.old.clock))) }
        ensures left { OnOk result (self.new.clock ≡ filter (λ t. nat_lt time t) self.old.clock) }
        ensures size { OnOk result (S.size self.new.scribe + length self.new.clock ≡ S.size self.old.scribe + length self.old.clock) }
        ensures front { (account : ℕ → M.State) → AreStates (M.model machine.now) (V.list states.now) account → WritesFront (S.text machine.now) (W.contents (wrapped writer.old)) (W.contents (wrapped writer.new)) (audits_at (M.model machine.now) account (due time self.old.clock)) }
        ensures writer { has_failed writer.new ≡ is_write result }
        ensures only { IfErr result (λ e. (e ≡ RunError.Memory) ⊎ (e ≡ RunError.Write)) }
    {
        while let Some(at) = self.clock.take_due(time) {
            self.put_audit(alloc, machine, states, at, writer)?;
        }
        Ok(())
    }
}
