//! The fingers of a node, in runs of equal neighbours.
ghost use Rattle.std.specs.Prelude.{◌≡◌, ◌==◌, ◌∷◌, ◌++◌, ◌<◌, ◌≤◌, [], drop, length, map, replicate, slice_get, slice_set, take, true, IfOk, OnOk, if◌then◌else◌};
ghost use Rattle.chord_node.specs.Fingers.{expanded, run_nodes};

use chord_event::Memory;
use std::alloc::Global;
use std::marker::Model;

/// Fingers in a row that are one node: the first of them, and how many repeat it. So no run is
/// empty.
#[derive(Clone, Copy, PartialEq, Eq, Drop)]
pub struct Run {
    pub node: u32,
    pub repeats: u32,
}

/// A list of nodes of which most are the same as the one before, in runs. Contracts see the plain
/// list of the nodes.
#[derive(Drop)]
pub struct Fingers {
    runs: Vec<Run>,
}

impl Model for Fingers {
    ghost use Rattle.std.specs.Prelude.{List, ℕ};
    ghost use Rattle.chord_node.specs.Fingers.{expanded};

    ghost Value = { List ℕ };

    ghost view = { λ f. expanded f.runs.items };
}

/// Adds a run at the end. If it is of the same node as the last run, the two become one.
fn push_run(runs: &mut Vec<Run>, run: Run) -> Result<(), Memory>
    ensures { OnOk result (expanded runs.new.items ≡ expanded runs.old.items ++ run_nodes run) }
{
    if let Some(last) = runs.last().copied() {
        if last.node == run.node && last.repeats < u32::MAX - run.repeats {
            let place = runs.len() - 1;
            let node = run.node;
            let repeats = last.repeats + 1 + run.repeats;
            runs[place] = Run { node, repeats };
            return Ok(());
        }
    }
    runs.push(run)?;
    Ok(())
}

/// Adds the first `count` nodes of some runs.
fn push_first(runs: &mut Vec<Run>, others: &[Run], count: usize) -> Result<(), Memory>
    ensures { OnOk result (expanded runs.new.items ≡ expanded runs.old.items ++ take count (expanded others.now)) }
{
    let mut left = count;
    for run in others {
        if left > run.repeats as usize {
            push_run(runs, *run)?;
            left -= run.repeats as usize + 1;
        } else if left > 0 {
            let repeats = (left - 1) as u32;
            let node = run.node;
            push_run(runs, Run { node, repeats })?;
            left = 0;
        }
    }
    Ok(())
}

/// Adds the nodes of some runs that come after the first `count`.
fn push_after(runs: &mut Vec<Run>, others: &[Run], count: usize) -> Result<(), Memory>
    ensures { OnOk result (expanded runs.new.items ≡ expanded runs.old.items ++ drop count (expanded others.now)) }
{
    let mut left = count;
    for run in others {
        if left > run.repeats as usize {
            left -= run.repeats as usize + 1;
        } else {
            let repeats = run.repeats - left as u32;
            let node = run.node;
            push_run(runs, Run { node, repeats })?;
            left = 0;
        }
    }
    Ok(())
}

/// The node at a place.
fn node_at(runs: &[Run], index: usize) -> Option<u32>
    ensures { result ≡ slice_get (expanded runs.now) index }
{
    let mut left = index;
    for run in runs {
        if left <= run.repeats as usize {
            return Some(run.node);
        }
        left -= run.repeats as usize + 1;
    }
    None
}

/// Whether the first run begins with `count` times this node.
fn begins_with(runs: &[Run], count: u32, node: u32) -> bool
    ensures { result ≡ true → expanded runs.now ≡ replicate count node ++ drop count (expanded runs.now) }
{
    match runs.first() {
        Some(run) => run.node == node && count <= run.repeats,
        None => false,
    }
}

/// Adds runs, with the new node in the place of the old.
fn push_replaced(runs: &mut Vec<Run>, others: &[Run], old: u32, new: u32) -> Result<(), Memory>
    ensures { OnOk result (expanded runs.new.items ≡ expanded runs.old.items ++ map (λ n. if n == old then new else n) (expanded others.now)) }
{
    for run in others {
        let node = put_for(run.node, old, new);
        let repeats = run.repeats;
        push_run(runs, Run { node, repeats })?;
    }
    Ok(())
}

/// The node, or the new one in the place of the old.
fn put_for(node: u32, old: u32, new: u32) -> u32
    ensures { result ≡ (if node == old then new else node) }
{
    if node == old { new } else { node }
}

impl Fingers {
    pub fn new(alloc: Global) -> Fingers
        ensures { result ≡ [] }
    {
        Fingers {
            runs: Vec::new(alloc),
        }
    }

    /// One node in all places.
    pub fn filled(alloc: Global, count: u32, node: u32) -> Result<Fingers, Memory>
        ensures { IfOk result (λ fingers. fingers ≡ replicate count node) }
    {
        let mut runs = Vec::new(alloc);
        if count > 0 {
            let repeats = count - 1;
            runs.push(Run { node, repeats })?;
        }
        Ok(Fingers { runs })
    }

    /// The runs, in order.
    pub fn runs(&self) -> &[Run]
        ensures { expanded result.now ≡ self.now }
    {
        self.runs.as_slice()
    }

    /// The node at a place, if there is one.
    pub fn get(&self, index: u32) -> Option<u32>
        ensures { result ≡ slice_get self.now index }
    {
        node_at(self.runs.as_slice(), index as usize)
    }

    pub fn push(&mut self, node: u32) -> Result<(), Memory>
        ensures { OnOk result (self.new ≡ self.old ++ node ∷ []) }
    {
        push_run(&mut self.runs, Run { node, repeats: 0 })
    }

    pub fn set(&mut self, index: u32, node: u32) -> Result<(), Memory>
        requires { index < length self.old }
        ensures { OnOk result (self.new ≡ slice_set self.old index node) }
    {
        if node_at(self.runs.as_slice(), index as usize) == Some(node) {
            return Ok(());
        }
        let mut runs = Vec::with_capacity(*self.runs.allocator(), self.runs.len() + 2)?;
        push_first(&mut runs, self.runs.as_slice(), index as usize)?;
        push_run(&mut runs, Run { node, repeats: 0 })?;
        push_after(&mut runs, self.runs.as_slice(), index as usize + 1)?;
        self.runs = runs;
        Ok(())
    }

    /// Puts a node in each of the first `count` places.
    pub fn fill_first(&mut self, count: u32, node: u32) -> Result<(), Memory>
        requires { count ≤ length self.old }
        ensures { OnOk result (self.new ≡ replicate count node ++ drop count self.old) }
    {
        if count == 0 || begins_with(self.runs.as_slice(), count, node) {
            return Ok(());
        }
        let mut runs = Vec::with_capacity(*self.runs.allocator(), self.runs.len() + 1)?;
        let repeats = count - 1;
        push_run(&mut runs, Run { node, repeats })?;
        push_after(&mut runs, self.runs.as_slice(), count as usize)?;
        self.runs = runs;
        Ok(())
    }

    /// Puts a node in the place of another one, wherever that stands.
    pub fn replace(&mut self, old: u32, new: u32) -> Result<(), Memory>
        ensures { OnOk result (self.new ≡ map (λ n. if n == old then new else n) self.old) }
    {
        let mut runs = Vec::with_capacity(*self.runs.allocator(), self.runs.len())?;
        push_replaced(&mut runs, self.runs.as_slice(), old, new)?;
        self.runs = runs;
        Ok(())
    }

    pub fn clear(&mut self)
        ensures { self.new ≡ [] }
    {
        self.runs.clear();
    }

    pub fn try_clone(&self) -> Result<Fingers, Memory>
        ensures { IfOk result (λ copy. copy ≡ self.now) }
    {
        let runs = Vec::from_slice(*self.runs.allocator(), self.runs.as_slice())?;
        Ok(Fingers { runs })
    }
}
