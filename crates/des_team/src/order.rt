//! What goes to the workers and what comes back.
ghost use Rattle.std.specs.Prelude.{◌≡◌, Some, IfSome};
ghost use Rattle.des_team.specs.Chronicles.{chronicle};
ghost use Rattle.des_team.specs.Orders.{IsDone, IsOrder, IsResultOf};

use crate::layout::Layout;
use crate::named::Named;
use crate::part::{Done, Parcel};
use des_machine::{Machine, Scribe};
use std::alloc::Global;
use std::marker::{Model, PhantomData};

/// A part that is to run a window of the named run.
#[derive(Drop)]
pub struct Order<M: Machine, S: Scribe<M> + Drop, J: Named<M>> {
    parcel: Parcel<M, S>,
    of: PhantomData<J>,
}

impl<M: Machine, S: Scribe<M> + Drop, J: Named<M>> Model for Order<M, S, J> {
    ghost use Rattle.std.specs.Prelude.{IfSome};
    ghost use Rattle.des_team.specs.declared.part.Parcel.{Parcel as AParcel};
    ghost use Rattle.des_team.specs.Chronicles.{chronicle};
    ghost use Rattle.des_team.specs.Orders.{IsOrder};

    ghost Value = { AParcel M S M.State M.Body M.Piece };

    ghost view = { λ o. o.parcel };

    ghost invariant = { λ o. IfSome J.run (λ r. IsOrder (chronicle (M.model r.0) (S.text r.0) (S.HasCounted r.0)) r.1 o.parcel) };
}

/// What the window of a part of the named run leaves.
#[derive(Drop)]
pub struct Reply<M: Machine, S: Scribe<M> + Drop, J: Named<M>> {
    left: Done<M, S>,
    of: PhantomData<J>,
}

impl<M: Machine, S: Scribe<M> + Drop, J: Named<M>> Model for Reply<M, S, J> {
    ghost use Rattle.std.specs.Prelude.{IfSome};
    ghost use Rattle.des_team.specs.declared.part.Done.{Done as ADone};
    ghost use Rattle.des_team.specs.Chronicles.{chronicle};
    ghost use Rattle.des_team.specs.Orders.{IsDone};

    ghost Value = { ADone M S M.State M.Body M.Piece };

    ghost view = { λ r. r.left };

    ghost invariant = { λ r. IfSome J.run (λ q. IsDone (chronicle (M.model q.0) (S.text q.0) (S.HasCounted q.0)) q.1 r.left) };
}

impl<M: Machine, S: Scribe<M> + Drop, J: Named<M>> Order<M, S, J> {
    /// An order of the named run.
    pub fn new(parcel: Parcel<M, S>) -> Order<M, S, J>
        requires { IfSome J.run (λ r. IsOrder (chronicle (M.model r.0) (S.text r.0) (S.HasCounted r.0)) r.1 parcel) }
        ensures { result ≡ parcel }
    {
        Order {
            parcel,
            of: PhantomData,
        }
    }

    /// Runs it.
    pub fn run(self, alloc: Global, machine: &M, layout: &Layout) -> Reply<M, S, J>
        requires { J.run ≡ Some (machine.now, layout.now) }
    {
        let Order { parcel, of: _ } = self;
        Reply {
            left: parcel.run(alloc, machine, layout),
            of: PhantomData,
        }
    }
}

impl<M: Machine, S: Scribe<M> + Drop, J: Named<M>> Reply<M, S, J> {
    /// What it says of the named run.
    pub fn open(self, machine: &M, layout: &Layout) -> Done<M, S>
        requires { J.run ≡ Some (machine.now, layout.now) }
        ensures { IsDone (chronicle (M.model machine.now) (S.text machine.now) (S.HasCounted machine.now)) layout.now result }
    {
        let Reply { left, of: _ } = self;
        left
    }

    /// What it says, if it is the reply of this part in this window.
    pub fn expect(
        self,
        machine: &M,
        layout: &Layout,
        part: u32,
        count: u64,
        horizon: u64,
    ) -> Option<Done<M, S>>
        requires { J.run ≡ Some (machine.now, layout.now) }
        ensures { IfSome result (IsResultOf (chronicle (M.model machine.now) (S.text machine.now) (S.HasCounted machine.now)) layout.now part count horizon) }
    {
        let left = self.open(machine, layout);
        if left.parcel.part.part != part {
            return None;
        }
        if left.parcel.count != count {
            return None;
        }
        if left.parcel.horizon != horizon {
            return None;
        }
        Some(left)
    }
}
