//! Worked examples: whole scenarios, with the traces and reports that they have by the rules. None of them was
//! made by this program: most traces were given together with the rules, those with random streams by two simulators
//! written apart from it, a few later ones by `tools/reference`, and the other numbers were counted by hand. And random
//! scenarios, which leave the same one event at a time, by windows and by crews. The tests of all crates are here,
//! because a crate with tests is proved twice. What the program shows by itself is tested by `tools/tests`.
#![tactic(auto)]

mod examples;
#[cfg(test)]
mod tests;

pub use examples::engines::{ENGINES, Engine, Shape, run_by};
pub use examples::own_window::window_by_one;
pub use examples::play::{shown, text_of};
pub use examples::table::{Example, TWO_LOOKUPS, example_groups};
