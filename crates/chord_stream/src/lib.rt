//! The random words of the nodes: the streams of the kernel.
#![tactic(auto)]

pub use des_stream::{Stream, streams_are_apart};
