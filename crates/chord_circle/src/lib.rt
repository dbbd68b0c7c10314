//! Identifiers on a circle of `2^bits` places (Chord, SIGCOMM 2001).
#![tactic(auto)]

mod circle;
mod ident;
mod laws;

pub use circle::{Circle, MOST_BITS};
pub use ident::{Ident, Raw};
pub use laws::{fingers_start_on_the_way, places_are_met_in_order};
