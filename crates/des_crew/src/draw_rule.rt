//! The rule of the word that counts the draws, and the steps that keep it.
ghost use Rattle.std.specs.Prelude.{ℕ};

use atomic_table::{Join, Play, Split, TableRule};
use std::collections::LinkedList;
use std::marker::{Brand, PhantomData};

/// What a seat knows: ghost state, never constructed.
pub struct View {
    pub numbers: LinkedList<u32>,
    pub allowance: u32,
    pub met_end: bool,
}

/// The number of numbers to draw, and the greatest number of seats.
#[derive(Clone, Copy)]
pub struct Counts {
    pub parts: u32,
    pub seats: u32,
}

/// The rule of the word.
pub struct Counting;

impl TableRule<(), View, Counts> for Counting {
    ghost use Rattle.des_crew.specs.Draws.{IsCounting, first_view};

    ghost holds = { IsCounting };

    ghost first = { λ counts. first_view counts.seats };
}

/// The counter and the seat of a draw: how many numbers the counter has, its whole allowance, and
/// the seat's place. The call picks them.
pub trait DrawOf {
    ghost parts: { ℕ };

    ghost seats: { ℕ };

    ghost place: { ℕ };
}

impl DrawOf for Brand {
    ghost parts = { 0 };

    ghost seats = { 0 };

    ghost place = { 0 };
}

/// A draw, by what its seat learns.
pub struct Drawn<P> {
    marker: PhantomData<P>,
}

impl<P: DrawOf> Play<(), View> for Drawn<P> {
    ghost use Rattle.std.specs.Prelude.{◌≡◌, ◌≤◌, length};
    ghost use Rattle.des_crew.specs.Draws.{HasMoment, after_draw};

    ghost then = { λ step before found after. (after ≡ (after_draw P.parts before.0 found, before.1)) × (length after.0.numbers ≤ P.parts) × HasMoment P.parts P.seats P.place after.0 };
}

/// A split and a join, by the views that they leave.
pub struct Shares;

impl Split<View> for Shares {
    ghost use Rattle.des_crew.specs.Draws.{after_split, split_off};

    ghost left = { after_split };

    ghost right = { split_off };
}

impl Join<View> for Shares {
    ghost use Rattle.des_crew.specs.Draws.{joined, spent};

    ghost both = { joined };

    ghost spent = { spent };
}
