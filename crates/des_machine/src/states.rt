//! The states of all nodes, as an audit sees them.

/// The states of all nodes, wherever an engine keeps them.
pub trait States<S> {
    ghost use Rattle.std.specs.Prelude.{◌≡◌, ◌<◌, List, Some, length, slice_get};

    // The states by node.
    ghost list: { Self → List S };

    /// The state of a node.
    fn of(&self, node: u32) -> &S
        requires { node < length (list self.now) }
        ensures { slice_get (list self.now) node ≡ Some result.now };
}

impl<'a, S> States<S> for &'a [S] {
    ghost list = { λ states. states.now };

    fn of(&self, node: u32) -> &S {
        &self[node as usize]
    }
}
