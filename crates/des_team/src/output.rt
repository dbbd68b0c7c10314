//! The text of a part's window with a mark for each event, and the texts of all parts in one.
ghost use Rattle.std.specs.Prelude.{◌≡◌, ◌⊎◌, ℕ, ◌<◌, ◌≤◌, ◌^◌, ◌++◌, ◌∷◌, [], List, false, length, map, option_map, slice_get, slice_index_or, IfOk, IfErr, OnOk};
ghost use Rattle.std.proofs.Common.{◌∙◌, refl};
ghost use Rattle.std.specs.BinaryHeap.{IsHeap, heap_items};
ghost use Rattle.std.specs.Cmp.{back_total, on_equiv, on_per, on_total, partial_order_from_agreeing_total};
ghost use Rattle.std.specs.Io.KnownBytes.{Appends};
ghost use Rattle.std.specs.List.{AllByRecursion, flat_map};
ghost use Rattle.std.specs.List.Sorted.{IsPermutation};
ghost use Rattle.std.specs.Ordering.{on, as_partial_cmp};
ghost use Rattle.des_event.specs.Keys.{is_same_key};
ghost use Rattle.des_event.specs.contracts.key.KeyPartialEq.TheImpl.Laws.{laws-law as key_alike};
ghost use Rattle.des_event.specs.contracts.key.KeyEq.TheImpl.Laws.{laws-law as key_same};
ghost use Rattle.des_event.specs.contracts.key.KeyOrd.TheImpl.Laws.{total-law as key_total, matches_eq-law as key_ties};
ghost use Rattle.des_output.specs.Watched.{wrapped, has_failed};
ghost use Rattle.des_output.specs.Writing.{AppendsFront, is_write};
ghost use Rattle.des_team.specs.Entries.{Entry, entry_bytes};
ghost use Rattle.des_team.specs.Heads.{IsBelow, IsHead, IsLimit, head_at, head_key, head_cmp, ahead, with_entries};
ghost use Rattle.des_team.specs.Outputs.{AreMerged, AreTexts, CanWrite, IsText};
ghost use Rattle.des_team.specs.declared.output.Mark.{Mark as AMark};

use des_event::{Key, Memory, RunError};
use des_machine::{Machine, Scribe};
use des_output::{Watched, write_text};
use std::alloc::Global;
use std::cmp::Ordering;
use std::collections::BinaryHeap;
use std::io::Write;
use std::mem;

/// Where the text of an event ends.
#[derive(Clone, Copy, Drop)]
pub struct Mark {
    pub key: Key,
    pub end: usize,
}

/// The text of the events that a part ran in a window, in the order of their keys. Most events have
/// no text, and no mark.
#[derive(Drop)]
pub struct Output {
    pub text: Vec<u8>,
    pub marks: Vec<Mark>,
}

impl Output {
    /// The text of no event.
    pub fn new(alloc: Global) -> Output
        ensures { IsText [] result }
    {
        Output {
            text: Vec::new(alloc),
            marks: Vec::new(alloc),
        }
    }

    /// Forgets all events, and keeps the buffers for the next ones.
    pub fn clear(&mut self)
        ensures { IsText [] self.new }
    {
        self.text.clear();
        self.marks.clear();
    }

    /// Adds the text of an event: the scribe writes its piece, and counts it. If an allocation fails,
    /// the text is no longer that of events.
    pub fn put<M: Machine, S: Scribe<M>>(
        &mut self,
        alloc: Global,
        machine: &M,
        key: Key,
        piece: &M::Piece,
        scribe: &mut S,
    ) -> Result<(), Memory>
        requires known { M.Known machine.now piece.now }
        requires room { S.size scribe.old < 2 ^ 40 }
        ensures text { OnOk result ((entries : List Entry) → IsText entries self.old → IsText (entries ++ record { key = key; bytes = S.text machine.now piece.now } ∷ []) self.new) }
        ensures counted { OnOk result ((pieces : List M.Piece) → S.HasCounted machine.now pieces scribe.old → S.HasCounted machine.now (pieces ++ piece.now ∷ []) scribe.new) }
    {
        let start = self.text.len();
        let text = mem::replace(&mut self.text, Vec::new(alloc));
        let mut writer = Watched::new(text);
        let written = scribe.put(alloc, machine, piece, &mut writer);
        self.text = writer.into_inner();
        if let Err(_refused) = written {
            return Err(Memory);
        }
        let end = self.text.len();
        if end > start {
            self.marks.push(Mark { key, end })?;
        }
        Ok(())
    }
}

/// The first event of a part whose text is not written yet: its key, the part, its place among the
/// part's events, and where its text starts. Heads compare by their keys in reverse, since a heap
/// gives the greatest first.
#[derive(Clone, Copy, Drop)]
struct Head {
    key: Key,
    part: usize,
    place: usize,
    start: usize,
}

impl PartialEq for Head {
    ghost eq = { on head_key is_same_key };

    ghost laws = { on_per head_key key_alike };

    fn eq(&self, other: &Head) -> bool {
        self.key == other.key
    }
}

impl Eq for Head {
    ghost laws = { on_equiv head_key key_same };
}

impl PartialOrd for Head {
    ghost partial_cmp = { as_partial_cmp head_cmp };

    ghost laws = { partial_order_from_agreeing_total head_cmp (on_total head_key (back_total key_total)) (λ a b. refl) (λ a b. key_alike.symm (head_key a) (head_key b) ∙ key_ties (head_key b) (head_key a)) };

    fn partial_cmp(&self, other: &Head) -> Option<Ordering> {
        Some(self.cmp(other))
    }
}

impl Ord for Head {
    ghost cmp = { head_cmp };

    ghost total = { on_total head_key (back_total key_total) };

    ghost matches_partial_cmp = { λ a b. refl };

    ghost matches_eq = { λ a b. key_alike.symm (head_key a) (head_key b) ∙ key_ties (head_key b) (head_key a) };

    fn cmp(&self, other: &Head) -> Ordering {
        other.key.cmp(&self.key)
    }
}

/// Writes the texts of all parts, in the order of the keys.
pub fn write_outputs<W: Write>(
    alloc: Global,
    outputs: &[Output],
    writer: &mut Watched<W>,
) -> Result<(), RunError>
    requires sound { has_failed writer.old ≡ false }
    requires texts { CanWrite outputs.now }
    ensures whole { OnOk result ((entries : List Entry) → AreMerged outputs.now entries → Appends (W.contents (wrapped writer.old)) (W.contents (wrapped writer.new)) (flat_map entry_bytes entries)) }
    ensures front { (entries : List Entry) → AreMerged outputs.now entries → AppendsFront (W.contents (wrapped writer.old)) (W.contents (wrapped writer.new)) (flat_map entry_bytes entries) }
    ensures writer { has_failed writer.new ≡ is_write result }
    ensures only { IfErr result (λ e. (e ≡ RunError.Memory) ⊎ (e ≡ RunError.Write)) }
{
    let mut heads = heads_of(alloc, outputs)?;
    while let Some(head) = heads.pop() {
        let output = &outputs[head.part];
        let marks = output.marks.as_slice();
        let after = run_end(marks, head.place, first_key(&heads));
        let end = marks[after - 1].end;
        let text = output.text.as_slice();
        write_text(&text[head.start..end], writer)?;
        if let Some(next) = head_at(marks, head.part, after, end) {
            heads.push(next)?;
        }
    }
    Ok(())
}

/// The heads of the parts that have events.
fn heads_of(alloc: Global, outputs: &[Output]) -> Result<BinaryHeap<Head>, Memory>
    ensures ordered { IfOk result (λ heads. IsHeap head_cmp (heap_items heads)) }
    ensures heads { IfOk result (λ heads. (lists : List (List Entry)) → AreTexts lists outputs.now → AllByRecursion (IsHead lists) (heap_items heads)) }
    ensures same { IfOk result (λ heads. (lists : List (List Entry)) → AreTexts lists outputs.now → IsPermutation (with_entries lists) (map (ahead lists) (heap_items heads))) }
{
    let mut heads = BinaryHeap::with_capacity(alloc, outputs.len())?;
    for part in 0..outputs.len() {
        let marks = outputs[part].marks.as_slice();
        if let Some(head) = head_at(marks, part, 0, 0) {
            heads.push(head)?;
        }
    }
    Ok(heads)
}

/// The head of a part at a place among its marks, if there is a mark. Its text starts at `start`.
fn head_at(marks: &[Mark], part: usize, place: usize, start: usize) -> Option<Head>
    ensures { result ≡ head_at marks.now part place start }
{
    match marks.get(place) {
        Some(mark) => Some(Head {
            key: mark.key,
            part,
            place,
            start,
        }),
        None => None,
    }
}

/// The least key of the heads, if there are any.
fn first_key(heads: &BinaryHeap<Head>) -> Option<Key>
    ensures first { result ≡ option_map head_key (slice_get (heap_items heads.now) 0) }
    ensures least { IsHeap head_cmp (heap_items heads.now) → IsLimit result (heap_items heads.now) }
{
    match heads.peek() {
        Some(head) => Some(head.key),
        None => None,
    }
}

/// Where the run ends that begins at a place: at the next mark that does not come before the limit.
fn run_end(marks: &[Mark], place: usize, limit: Option<Key>) -> usize
    requires { place < length marks.now }
    ensures more { place < result }
    ensures within { result ≤ length marks.now }
    ensures below { (k : ℕ) (m : AMark) → place < k → k < result → IsBelow (slice_index_or marks.now k m).key limit }
    ensures longest { (m : AMark) → result < length marks.now → IsBelow (slice_index_or marks.now result m).key limit → ⊥ }
{
    let Some(limit) = limit else {
        return marks.len();
    };
    let mut after = place + 1;
    while after < marks.len() && marks[after].key.is_before(&limit) {
        after += 1;
    }
    after
}
