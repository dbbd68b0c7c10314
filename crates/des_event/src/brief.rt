//! Bodies that are no more than a number.

/// The short form of a body: a number, and the kind of body that has it.
#[derive(Clone, Copy, Drop)]
pub struct Short {
    pub kind: u32,
    pub number: u64,
}

/// Bodies of events, some of which have a short form, such as timers. A queue keeps an event that a
/// node makes for itself in less memory if its body has one.
pub trait Brief: Sized {
    ghost use Rattle.std.specs.Prelude.{◌≡◌, IfSome};
    ghost use Rattle.des_event.specs.declared.brief.Short.{Short as AShort};

    // The body of each short form.
    ghost long: { AShort → Self };

    /// The short form of a body, if it has one.
    fn shorten(&self) -> Option<Short>
        ensures { IfSome result (λ short. long short ≡ self.now) };

    /// The body of a short form.
    fn lengthen(short: Short) -> Self
        ensures { result ≡ long short };
}
