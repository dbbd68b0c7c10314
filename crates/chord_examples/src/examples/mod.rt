//! The examples, and what runs them.
pub(crate) mod engines;
pub(crate) mod own_window;
pub(crate) mod play;
pub(crate) mod table;
