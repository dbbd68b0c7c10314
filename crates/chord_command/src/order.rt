//! Orders: what the arguments of the program ask for.
ghost use Rattle.std.specs.Prelude.{◌≡◌};
ghost use Rattle.chord_command.specs.Files.{files_of, name_of};

use chord_plan::{Plan, Text};

/// What the arguments of the program ask for.
#[derive(Drop)]
pub enum Order {
    /// Check the files, and print how many nodes and commands the scenario has.
    Check(Files),
    /// Print the identifier of each node.
    Ids(Files),
    /// Judge the lookups of a trace of the scenario.
    Judge {
        files: Files,
        judging: Judging,
    },
    /// Run the scenario. The trace goes to the file of this name, or to standard output.
    Run {
        files: Files,
        plan: Plan,
        trace: Option<String>,
    },
}

impl Order {
    /// The files that the scenario is read from.
    pub fn files(&self) -> &Files
        ensures { result.now ≡ files_of self.now }
    {
        match self {
            Order::Check(files) => files,
            Order::Ids(files) => files,
            Order::Judge { files, .. } => files,
            Order::Run { files, .. } => files,
        }
    }
}

/// What a judge reads and writes beside the files of the scenario.
#[derive(Drop)]
pub struct Judging {
    /// The file of the trace, which comes from standard input if there is none.
    pub trace: Option<String>,
    /// The file for the digest of the trace.
    pub digest: Option<String>,
    /// The times at which the counts of the digest begin anew, as the option gives them.
    pub edges: Option<String>,
}

/// The names of the files that a scenario is read from.
#[derive(Drop)]
pub struct Files {
    pub scenario: String,
    pub latency: Option<String>,
}

impl Files {
    /// The name of the file of a text, which is empty if the order names none.
    pub fn name(&self, text: Text) -> &str
        ensures { result.now ≡ name_of text self.now }
    {
        match (text, &self.latency) {
            (Text::Scenario, _) => self.scenario.as_str(),
            (Text::Latency, Some(name)) => name.as_str(),
            (Text::Latency, None) => "",
        }
    }
}
