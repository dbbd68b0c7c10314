//! Ways round the circle, and the ranks that they cover.
ghost use Rattle.std.specs.Prelude.{◌≡◌, ℕ, ◌<◌, ◌&&◌, ◌||◌, IfOk, false, length, map, nat_lt};
ghost use Rattle.std.specs.List.{range_with_len};
ghost use Rattle.chord_audit.specs.Tables.{covers, is_inside};

use chord_event::Memory;
use std::alloc::Global;

/// Ways round the circle, each from one rank to another, kept by the ranks that they cover.
#[derive(Drop)]
pub(crate) struct Arcs {
    /// The ways that come round past the last rank cover the ranks below this.
    pub first: usize,
    /// The ways that begin at a rank cover those after it and below this.
    pub far: Vec<usize>,
}

impl Arcs {
    /// No ways, over `ranks` ranks.
    pub fn new(alloc: Global, ranks: usize) -> Result<Arcs, Memory>
        ensures length { IfOk result (λ arcs. length arcs.far.items ≡ ranks) }
        ensures none { IfOk result (λ arcs. (k : ℕ) → covers arcs k ≡ false) }
    {
        let mut far = Vec::new(alloc);
        far.resize(ranks, 0)?;
        Ok(Arcs { first: 0, far })
    }

    /// Adds the way from rank a up to rank b, which goes round if b is not above a.
    pub fn add(&mut self, a: usize, b: usize)
        requires a { a < length self.old.far.items }
        requires b { b < length self.old.far.items }
        ensures length { length self.new.far.items ≡ length self.old.far.items }
        ensures covered { (k : ℕ) → k < length self.old.far.items → covers self.new k ≡ (covers self.old k || is_inside a k b) }
    {
        if a < b {
            self.reach(a, b);
        } else {
            self.first = self.first.max(b);
            let ranks = self.far.len();
            self.reach(a, ranks);
        }
    }

    /// Adds the way from rank a on that ends before another rank.
    fn reach(&mut self, a: usize, end: usize)
        requires { a < length self.old.far.items }
        ensures first { self.new.first ≡ self.old.first }
        ensures length { length self.new.far.items ≡ length self.old.far.items }
        ensures covered { (k : ℕ) → covers self.new k ≡ (covers self.old k || (nat_lt a k && nat_lt k end)) }
    {
        self.far[a] = self.far[a].max(end);
    }

    /// Whether each rank is covered.
    pub fn covered(&self, alloc: Global) -> Result<Vec<bool>, Memory>
        ensures { IfOk result (λ marks. marks.items ≡ map (covers self.now) (range_with_len 0 (length self.now.far.items))) }
    {
        let mut marks = Vec::new(alloc);
        let mut top = self.first;
        for (rank, end) in self.far.iter().enumerate() {
            marks.push(rank < top)?;
            top = top.max(*end);
        }
        Ok(marks)
    }
}
