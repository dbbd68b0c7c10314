//! The nodes that best successors lead back to themselves.
ghost use Rattle.std.specs.Prelude.{◌≡◌, ℕ, ◌<◌, ◌≤◌, ◌^◌, ◌↔◌, Some, IfOk, length, true, map, option_and_then};
ghost use Rattle.std.specs.List.{list_any};
ghost use Rattle.chord_audit.specs.Audit.{after, is_at};
ghost use Rattle.chord_audit.specs.Tables.{is_marked, node_at, AreLed, IsLedTo, LeadBelow};

use chord_event::Memory;
use std::alloc::Global;

/// Which nodes come back to themselves when each node leads to the one that `best` names. These are
/// the nodes to which more steps lead than there are nodes. Fewer steps lead to the same nodes once
/// each of these is led to by one of them.
pub(crate) fn ring_of(alloc: Global, best: &[Option<u32>]) -> Result<Vec<bool>, Memory>
    requires few { length best.now < 2 ^ 32 }
    requires lead { LeadBelow (length best.now) best.now }
    ensures length { IfOk result (λ ring. length ring.items ≡ length best.now) }
    ensures back { IfOk result (λ ring. (n : ℕ) → n < length best.now → (is_marked ring.items n ≡ true) ↔ ((steps : ℕ) × (1 ≤ steps) × (after (node_at best.now) steps n ≡ Some n))) }
{
    let mut far = Vec::from_slice(alloc, best)?;
    let mut ring = landed(alloc, &far)?;
    let mut steps: usize = 1;
    // Few nodes are off a ring, and these lead to it in a few steps.
    while steps <= best.len() && !are_led(alloc, best, &ring)? {
        far = twice(alloc, &far)?;
        ring = landed(alloc, &far)?;
        steps *= 2;
    }
    Ok(ring)
}

/// Whether some marked node leads to each marked node.
fn are_led(alloc: Global, best: &[Option<u32>], marks: &[bool]) -> Result<bool, Memory>
    requires lead { LeadBelow (length best.now) best.now }
    requires marks { length marks.now ≡ length best.now }
    ensures { IfOk result (λ led. (led ≡ true) ↔ AreLed best.now marks.now) }
{
    let led = led_from(alloc, best, marks)?;
    for node in 0..marks.len() {
        if marks[node] && !led[node] {
            return Ok(false);
        }
    }
    Ok(true)
}

/// Which nodes a marked node leads to.
fn led_from(alloc: Global, best: &[Option<u32>], marks: &[bool]) -> Result<Vec<bool>, Memory>
    requires lead { LeadBelow (length best.now) best.now }
    requires marks { length marks.now ≡ length best.now }
    ensures length { IfOk result (λ led. length led.items ≡ length best.now) }
    ensures led { IfOk result (λ led. (n : ℕ) → (is_marked led.items n ≡ true) ↔ IsLedTo best.now marks.now n) }
{
    let mut led = vec![in alloc; false; best.len()]?;
    for node in 0..best.len() {
        if marks[node] {
            if let Some(next) = best[node] {
                led[next as usize] = true;
            }
        }
    }
    Ok(led)
}

/// Where each node leads in twice as many steps.
fn twice(alloc: Global, steps: &[Option<u32>]) -> Result<Vec<Option<u32>>, Memory>
    requires { LeadBelow (length steps.now) steps.now }
    ensures { IfOk result (λ twice. twice.items ≡ map (option_and_then (node_at steps.now)) steps.now) }
{
    let mut twice = Vec::new(alloc);
    for way in steps {
        let on = match way {
            Some(node) => steps[*node as usize],
            None => None,
        };
        twice.push(on)?;
    }
    Ok(twice)
}

/// Which nodes some way leads to.
fn landed(alloc: Global, ways: &[Option<u32>]) -> Result<Vec<bool>, Memory>
    requires { LeadBelow (length ways.now) ways.now }
    ensures length { IfOk result (λ marks. length marks.items ≡ length ways.now) }
    ensures marks { IfOk result (λ marks. (n : ℕ) → n < length ways.now → is_marked marks.items n ≡ list_any (λ way. is_at way n) ways.now) }
{
    let mut marks = Vec::new(alloc);
    marks.resize(ways.len(), false)?;
    for way in ways {
        if let Some(node) = way {
            marks[*node as usize] = true;
        }
    }
    Ok(marks)
}
