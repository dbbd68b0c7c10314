//! Laws of the circle.
ghost use Rattle.std.specs.Prelude.{◌≡◌, ℕ, ◌^◌, ◌<◌, ◌≤◌, false, nat_lt};
ghost use Rattle.chord_circle.specs.Circle.{distance, finger_beyond, finger_start, in_half_open};

/// Of the fingers from the second on, those before `finger_beyond` start on the way from `a` to `b`
/// or at `b`, and no others do.
pub fn fingers_start_on_the_way()
    ensures { (bits a b i : ℕ) → bits ≤ 128 → a < 2 ^ bits → b < 2 ^ bits → 2 ≤ i → i ≤ bits → in_half_open bits a (finger_start bits a i) b ≡ nat_lt i (finger_beyond bits a b) }
{}

/// A place that is not between another one and a third, nor at the third, meets the other one first.
pub fn places_are_met_in_order()
    ensures { (bits a x b : ℕ) → a < 2 ^ bits → x < 2 ^ bits → b < 2 ^ bits → in_half_open bits a x b ≡ false → distance bits x a < distance bits x b }
{}
