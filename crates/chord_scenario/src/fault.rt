//! Why a scenario is refused.
ghost use Rattle.std.specs.Prelude.{◌≡◌};

use crate::key::{FileKey, Place};
use crate::name::Name;
use std::alloc::AllocError;
use std::fmt;

/// Why a scenario is refused. Nodes are counted from 1, since the numbers go into a text. Other
/// node numbers are `u32` from 0. `SameId` and `LatencyBelowWindow` have names, since the scenario
/// is gone when their text is printed.
#[derive(Drop)]
pub enum ScenarioFault {
    /// The scenario text is not UTF-8, or not a TOML document.
    NotToml,
    /// A table has a key that it may not have.
    UnknownKey(Place),
    /// A table lacks a key that it has to have.
    MissingKey(Place, FileKey),
    /// A key has a value of another type.
    WrongType(Place, FileKey),
    /// A key has a value that is not allowed.
    OutOfRange(Place, FileKey),
    /// A node has a name that is not allowed.
    BadName(Place),
    /// Two nodes have one name.
    SameName(usize, usize),
    /// Two nodes have one identifier.
    SameId(Name, Name),
    /// A command or a row names a node that is not there.
    UnknownNode(Place),
    /// Fewer nodes are members at the start than a successor list has entries, and its owner.
    TooFewInitial,
    /// A command is given at the end of the run, or later.
    TimeAfterEnd(Place),
    /// A row does not have three fields, or its third is no latency.
    BadLatencyRow(Place),
    /// A node joins through itself, or a row names one node twice.
    SelfLink(Place),
    /// A row names the two nodes of an earlier one.
    SameLinkTwice(Place),
    /// The latency between two nodes is less than a window.
    LatencyBelowWindow(Name, Name),
    /// The nodes have coordinates, and the latency file has a row.
    RowsAndCoordinates,
    /// An allocation failed.
    Memory,
}

impl From<AllocError> for ScenarioFault {
    ghost use Rattle.chord_scenario.specs.declared.fault.ScenarioFault.TheVariants.{Memory};

    ghost from_gives = { λ _ fault. fault ≡ Memory };

    fn from(_error: AllocError) -> ScenarioFault {
        ScenarioFault::Memory
    }
}

impl ScenarioFault {
    /// The number and the name of the fault, with which its text begins.
    fn heading(&self) -> &'static str {
        match self {
            ScenarioFault::NotToml => "S1 NotToml",
            ScenarioFault::UnknownKey(_) => "S2 UnknownKey",
            ScenarioFault::MissingKey(_, _) => "S3 MissingKey",
            ScenarioFault::WrongType(_, _) => "S4 WrongType",
            ScenarioFault::OutOfRange(_, _) => "S5 OutOfRange",
            ScenarioFault::BadName(_) => "S6 BadName",
            ScenarioFault::SameName(_, _) => "S7 SameName",
            ScenarioFault::SameId(_, _) => "S8 SameId",
            ScenarioFault::UnknownNode(_) => "S9 UnknownNode",
            ScenarioFault::TooFewInitial => "S10 TooFewInitial",
            ScenarioFault::TimeAfterEnd(_) => "S11 TimeAfterEnd",
            ScenarioFault::BadLatencyRow(_) => "S12 BadLatencyRow",
            ScenarioFault::SelfLink(_) => "S13 SelfLink",
            ScenarioFault::SameLinkTwice(_) => "S14 SameLinkTwice",
            ScenarioFault::LatencyBelowWindow(_, _) => "S15 LatencyBelowWindow",
            ScenarioFault::RowsAndCoordinates => "S16 RowsAndCoordinates",
            ScenarioFault::Memory => "Memory",
        }
    }
}

impl fmt::Display for ScenarioFault {
    fn fmt<W: fmt::Write>(&self, f: &mut fmt::Formatter<W>) -> fmt::Result {
        f.write_str(self.heading())?;
        match self {
            ScenarioFault::UnknownKey(at)
            | ScenarioFault::BadName(at)
            | ScenarioFault::UnknownNode(at)
            | ScenarioFault::TimeAfterEnd(at)
            | ScenarioFault::BadLatencyRow(at)
            | ScenarioFault::SelfLink(at)
            | ScenarioFault::SameLinkTwice(at) => write!(f, " {at}"),
            ScenarioFault::MissingKey(at, key)
            | ScenarioFault::WrongType(at, key)
            | ScenarioFault::OutOfRange(at, key) => write!(f, " {at} {}", key.name()),
            ScenarioFault::SameName(i, j) => write!(f, " node {i} node {j}"),
            ScenarioFault::SameId(a, b) | ScenarioFault::LatencyBelowWindow(a, b) => {
                write!(f, " {} {}", a.as_str(), b.as_str())
            }
            ScenarioFault::NotToml
            | ScenarioFault::TooFewInitial
            | ScenarioFault::RowsAndCoordinates
            | ScenarioFault::Memory => Ok(()),
        }
    }
}
