//! The name of a run, which the types of its messages carry.
use std::marker::Brand;

/// Which run it is: its machine and its layout. Each run picks its own name.
// `M` has no bound: a run picks the name of an impl that has none.
pub trait Named<M> {
    ghost use Rattle.std.specs.Prelude.{Option};
    ghost use Rattle.des_team.specs.declared.layout.Layout.{Layout};

    ghost run: { Option (M × Layout) };
}

impl<M> Named<M> for Brand {
    ghost use Rattle.std.specs.Prelude.{None};

    ghost run = { None };
}
