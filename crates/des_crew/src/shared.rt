//! What the workers of one window share and promise.
use crate::draws::Draws;
use crate::part_runner::PartRunner;
use crate::seat::Seat;
use crate::shift::Shift;
use std::alloc::Global;
use std::snapshot::Snapshot;
use std::thread::Promise;

/// What all workers of a window share: what runs its parts, the draws of the parts and the gate.
#[derive(Drop)]
pub struct Shared<'a, P, G> {
    pub alloc: Global,
    pub runner: &'a P,
    pub draws: &'a Draws,
    pub gate: &'a G,
}

/// What a worker's thread promises: the shift of the seat that it was given.
#[derive(Drop)]
pub struct ShiftOf<'a, P> {
    pub runner: &'a P,
    pub seat: Snapshot<Seat>,
}

impl<'a, P: PartRunner> Promise<Shift<P::Done>> for ShiftOf<'a, P> {
    ghost use Rattle.des_crew.specs.Shifts.{IsShift};

    ghost kept_by = { λ p shift. IsShift (P.IsDone p.runner.now) (P.IsOver p.runner.now) p.seat.value shift };
}
