//! Seats, which draw from a counter.
use crate::draw_rule::View;
use std::marker::Model;

/// The right to draw, with the numbers drawn so far. It has no lifetime and can move to another
/// thread.
#[derive(Drop)]
pub struct Seat {
    pub(crate) token: atomic_table::Seat<(), View>,
    pub(crate) met_end: bool,
    pub(crate) is_exhausted: bool,
}

impl Model for Seat {
    ghost use Rattle.des_crew.specs.Seats.{SeatState};

    ghost Value = { SeatState };

    ghost view = { λ s. record { table = s.token.table_id; place = s.token.id; numbers = s.token.me.0.numbers; allowance = s.token.me.0.allowance; met_end = s.met_end; is_exhausted = s.is_exhausted } };

    ghost use Rattle.des_crew.specs.Inside.{IsLive};

    ghost invariant = { IsLive };
}
