//! Places on a circle: what lies between others, and the widest circle.
use chord_circle::{Circle, Raw};

/// Between equal ends are all other places, and the ends of a half-open interval differ.
#[test]
fn between_at_the_ends(rt: HostRuntime) {
    let Some(circle) = Circle::new(3) else {
        assert!(rt; false, "no circle");
        return;
    };
    let five = circle.low_bits(5);
    for x in 0..8u32 {
        assert!(rt;
            circle.between(five, circle.low_bits(Raw::from(x)), five) == (x != 5),
            "{x}"
        );
    }
    let (six, one, two) = (circle.low_bits(6), circle.low_bits(1), circle.low_bits(2));
    assert!(rt; circle.between(six, one, two) && !circle.between(six, two, two));
    assert!(rt; circle.in_half_open(six, two, two));
    assert!(rt; Circle::new(2).is_none() && Circle::new(129).is_none());
}

/// On the widest circle the last place is next to the first.
#[test]
fn the_widest_circle(rt: HostRuntime) {
    let Some(circle) = Circle::new(128) else {
        assert!(rt; false, "no circle");
        return;
    };
    let (last, zero, one) = (
        circle.low_bits(Raw::MAX),
        circle.low_bits(0),
        circle.low_bits(1),
    );
    assert!(rt; last.raw() == Raw::MAX && circle.ident(Raw::MAX) == Some(last));
    assert!(rt; circle.between(last, zero, one));
    assert!(rt; circle.distance(one, zero) == Raw::MAX);
    let half = circle.low_bits(1 << 127);
    assert!(rt; circle.add_power(half, 128) == zero);
    let named = circle.ident_of_name(b"a");
    assert!(rt; named.raw() == 0x86f7_e437_faa5_a7fc_e15d_1ddc_b9ea_eaea);
}

/// The leading bits of a number of places, on wide circles and on one with fewer than 32 bits.
#[test]
fn leading_bits(rt: HostRuntime) {
    let (Some(wide), Some(least), Some(narrow)) = (
        Circle::new(64),
        Circle::new(32),
        Circle::new(31),
    ) else {
        assert!(rt; false, "no circle");
        return;
    };
    assert!(rt; wide.leading(5 << 32 | 7) == 5);
    assert!(rt; least.leading(4294967295) == 4294967295);
    assert!(rt; narrow.leading(7) == 0);
}
