//! The median time of many lookups, of times that have 32 bits and of longer ones.
ghost use Rattle.std.specs.Prelude.{◌≡◌, ◌^◌, ◌<◌, IfOk, List, length};
ghost use Rattle.chord_trace.specs.Tally.{IsTallyOf};
ghost use Rattle.chord_trace.specs.declared.piece.Piece.{Piece as APiece};

use chord_circle::{Circle, Ident};
use chord_event::{Block, Key, Line, Listed, Memory};
use chord_trace::Tally;
use std::alloc::Global;

/// The block of an event by which a lookup is found that took so many microseconds.
fn found_after(alloc: Global, key: Ident, us: u64) -> Result<Block, Memory>
    ensures { IfOk result (λ block. length block.lines ≡ 1) }
{
    let mut lines = Listed::new(alloc);
    lines.push(Line::Found {
        key,
        owner: 0,
        hops: 1,
        timeouts: 0,
        us,
    })?;
    Ok(Block {
        key: Key {
            time: us,
            origin: 0,
            number: 0,
        },
        target: 0,
        lines,
    })
}

/// A tally of 3,000 lookups, which took 1,500 times from this one on. Two took each time.
fn tally_from(alloc: Global, key: Ident, first: u64) -> Result<Tally, Memory>
    requires { first < 2 ^ 40 }
    ensures { IfOk result (λ tally. (pieces : List APiece) × IsTallyOf 4 pieces tally × (length pieces ≡ 3000)) }
{
    let mut tally = Tally::new(alloc, 4);
    for number in 0..3_000u64 {
        let us = first + number * 7 % 1_500;
        tally.add(&found_after(alloc, key, us)?)?;
    }
    Ok(tally)
}

#[test]
fn median_of_short_and_long_times(rt: HostRuntime) -> Result<(), Memory> {
    let Some(key) = Circle::new(3).and_then(|circle| circle.ident(5)) else {
        panic!(&rt; "5 has three bits");
    };
    let short = tally_from(rt.alloc(), key, 5_000_000)?;
    assert!(&rt; short.report().us_median == 5_000_749);
    let long = tally_from(rt.alloc(), key, 8_589_934_592)?;
    assert!(&rt; long.report().us_median == 8_589_935_341);
    // The last of the short times is the lower of the two in the middle.
    assert!(&rt; short.join(long)?.report().us_median == 5_001_499);
    Ok(())
}
