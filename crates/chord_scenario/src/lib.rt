//! Scenarios: what is simulated, read from a scenario file and a latency file.
#![tactic(auto)]

mod command;
mod coordinates;
mod document;
mod draw;
mod fault;
mod key;
mod keys_check;
mod latency;
mod link_check;
mod name;
mod names;
mod node;
mod node_check;
mod operation;
mod order;
mod reader;
mod row;
mod scenario;
mod section;
mod setting;
mod start;
mod value;
mod window_check;

pub use draw::{Drawer, KEY_PURPOSE};
pub use fault::ScenarioFault;
pub use key::{FileKey, Place};
pub use name::Name;
pub use order::Order;
pub use reader::read_scenario;
pub use scenario::{EXTENDED_PROFILE, Scenario};
pub use setting::{Action, Churn, Command, Coordinates, Jitters, Node, Rules, Span};
