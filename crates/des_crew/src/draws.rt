//! The counter from which the workers of a window draw its parts.
ghost use Rattle.std.specs.Prelude.{◌≡◌, ◌+◌, ◌-◌, ◌<◌, ◌≤◌, ◌||◌, ◌&&◌, ℕ, List, [], ◌∷◌, ◌++◌, true, false, length, None, IfOk, IfSome, IfNone};
ghost use Rattle.des_crew.specs.declared.draw_rule.View.{View as AView};
ghost use Rattle.des_crew.specs.Draws.{HasMoment, after_draw};
ghost use Rattle.des_crew.specs.Seats.{AllAreDrawn, IsDrawnOnlyAt, IsFresh, IsMomentOf, Knows};
ghost use Rattle.des_parts.specs.Ordering.{HasEachOnce};

use crate::draw_rule::{Counting, Counts, DrawOf, Drawn, Shares, View};
use crate::seat::Seat;
use atomic_table::Table;
use des_event::Memory;
use des_window::MOST_PARTS;
use std::alloc::Global;
use std::marker::{Brand, Model};

/// The most seats that a counter has.
pub const MOST_SEATS: u32 = 64;

/// A counter from which threads draw the numbers below `parts`: each of them is drawn by one seat,
/// and no seat draws another. Contracts see which counter it is, its number of parts and its
/// allowance, which is the number of seats that there can be at once.
#[derive(Drop)]
pub struct Draws {
    table: Table<(), View, Counts, Counting, Global>,
    parts: u32,
}

impl Model for Draws {
    ghost use Rattle.des_crew.specs.Seats.{Counter};

    ghost Value = { Counter };

    ghost view = { λ d. record { table = d.table.shared.table_id; parts = d.parts; seats = d.table.shared.key.seats } };

    ghost use Rattle.des_crew.specs.Inside.{IsOneWord};

    ghost invariant = { IsOneWord };
}

impl Draws {
    /// A new counter of 1 to 512 parts, and the seat that has its whole allowance, of 1 to 64
    /// seats.
    ///
    /// # Errors
    ///
    /// `Memory`, if an allocation fails.
    pub fn start(alloc: Global, parts: u32, seats: u32) -> Result<(Draws, Seat), Memory>
        requires parts { (0 < parts) × (parts ≤ MOST_PARTS) }
        requires seats { (0 < seats) × (seats ≤ MOST_SEATS) }
        ensures draws { IfOk result (λ r. (r.0.parts ≡ parts) × (r.0.seats ≡ seats)) }
        ensures seat { IfOk result (λ r. (r.1.table ≡ r.0.table) × IsFresh r.1 × (r.1.allowance ≡ seats) × (r.1.met_end ≡ false)) }
    {
        let counts = Counts { parts, seats };
        let (table, token) = Table::of_words(alloc, &[0], &counts)?;
        let seat = Seat {
            token,
            met_end: false,
            is_exhausted: false,
        };
        Ok((Draws { table, parts }, seat))
    }

    /// Moves 1 of a seat's allowance to a new seat, which knows of the end if the seat does. The
    /// seat keeps its numbers.
    pub fn split(&self, seat: &mut Seat) -> Seat
        requires of_this { seat.old.table ≡ self.now.table }
        requires enough { 2 ≤ seat.old.allowance }
        ensures given { seat.new ≡ record seat.old { allowance = seat.old.allowance - 1 } }
        ensures new { (result.table ≡ self.now.table) × IsFresh result × (result.allowance ≡ 1) × (result.met_end ≡ seat.old.met_end) }
    {
        let token = self.table.shared.split_seat::<Shares>(&mut seat.token);
        Seat {
            token,
            met_end: seat.met_end,
            is_exhausted: false,
        }
    }

    /// The next number, or `None` past the end. It waits for nobody. A seat that knows of the end
    /// does not touch the counter.
    pub fn draw(&self, seat: &mut Seat) -> Option<u32>
        requires { seat.old.table ≡ self.now.table }
        ensures moment { seat.old.met_end ≡ false → (word : ℕ) × (views : List AView) × IsMomentOf self.now seat.new word views }

        ensures drawn { IfSome result (λ n. seat.new ≡ record seat.old { numbers = seat.old.numbers ++ n ∷ [] }) }
        ensures below { IfSome result (λ n. n < self.now.parts) }
        ensures by_no_other { IfSome result (λ n. Knows self.now seat.new (IsDrawnOnlyAt seat.new.place n)) }
        ensures fits { IfSome result (λ _. length seat.new.numbers ≤ self.now.parts) }

        ensures ended { IfNone result (seat.new ≡ record seat.old { met_end = true; is_exhausted = true }) }
        ensures all_drawn { IfNone result (Knows self.now seat.new (AllAreDrawn self.now.parts)) }
        ensures stays_ended { seat.old.met_end ≡ true → result ≡ None }
    {
        if seat.met_end {
            seat.is_exhausted = true;
            return None;
        }
        let found = self.step::<Brand>(&mut seat.token);
        if found < u64::from(self.parts) {
            Some(found as u32)
        } else {
            seat.met_end = true;
            seat.is_exhausted = true;
            None
        }
    }

    /// Adds 1 to the word, and returns its old value.
    fn step<P: DrawOf>(&self, token: &mut atomic_table::Seat<(), View>) -> u64
        requires of { (P.parts ≡ self.now.parts) × (P.seats ≡ self.now.seats) × (P.place ≡ token.old.id) }
        requires token { (token.old.table_id ≡ self.now.table) × (token.old.me.0.met_end ≡ false) × (0 < token.old.me.0.allowance) }
        ensures same_seat { (token.new.table_id ≡ token.old.table_id) × (token.new.id ≡ token.old.id) }
        ensures drawn { token.new.me ≡ (after_draw P.parts token.old.me.0 result, token.old.me.1) }
        ensures fits { length token.new.me.0.numbers ≤ P.parts }
        ensures moment { HasMoment P.parts P.seats P.place token.new.me.0 }
    {
        self.table.shared.fetch_add::<Drawn<P>>(token, 0, 1)
    }

    /// Joins the second seat to the first, with its numbers after those of the first.
    pub fn join(&self, seat: &mut Seat, other: Seat)
        requires of_this { seat.old.table ≡ self.now.table }
        requires other { other.table ≡ self.now.table }
        ensures { seat.new ≡ record seat.old { numbers = seat.old.numbers ++ other.numbers; allowance = seat.old.allowance + other.allowance; met_end = seat.old.met_end || other.met_end; is_exhausted = seat.old.is_exhausted && other.is_exhausted } }
    {
        let Seat {
            token,
            met_end,
            is_exhausted,
        } = other;
        let shared = &self.table.shared;
        shared.join_seat::<Shares>(&mut seat.token, token);
        seat.met_end = seat.met_end || met_end;
        seat.is_exhausted = seat.is_exhausted && is_exhausted;
    }

    /// Drops the counter. A seat with the whole allowance that has met the end has drawn each
    /// number once.
    pub fn close(self, seat: Seat)
        requires { seat.table ≡ self.table }
        ensures kept { (word : ℕ) × (views : List View) × IsMomentOf self seat word views }
        ensures exhausted { seat.is_exhausted ≡ true → seat.met_end ≡ true }
        ensures whole { seat.allowance ≡ self.seats → seat.met_end ≡ true → HasEachOnce self.parts seat.numbers }
    {
        let Draws { table, parts: _ } = self;
        let Seat {
            token,
            met_end: _,
            is_exhausted: _,
        } = seat;
        table.close_with(token).free();
    }
}
