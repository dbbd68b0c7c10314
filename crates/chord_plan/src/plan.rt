//! Plans: how a run is carried out.
ghost use Rattle.std.specs.Prelude.{◌≤◌};

/// How nodes are dealt to parts.
#[derive(Clone, Copy, Debug, Drop)]
pub enum Split {
    /// One node to each part in turn, and so on.
    RoundRobin,
    /// Blocks of neighbours in file order, as even as possible.
    Blocks,
}

/// What carries out a run.
#[derive(Clone, Copy, Debug, Drop)]
pub enum Engine {
    /// One event at a time, on one thread.
    Serial,
    /// Workers that start anew in each window and draw its parts.
    Crew,
    /// Workers whose threads stand for the whole run, and run the parts that they are sent.
    Team,
}

/// How a run is carried out: by which engine, and by workers, 1 to 64 of them, with the nodes in 1
/// to 512 parts. The serial engine has neither workers nor parts.
#[derive(Clone, Copy, Debug, Drop)]
pub struct Plan {
    pub engine: Engine,
    pub workers: u32,
    pub parts: u32,
    pub split: Split,
    ghost some_workers: { 1 ≤ workers },
    ghost few_workers: { workers ≤ 64 },
    ghost some_parts: { 1 ≤ parts },
    ghost few_parts: { parts ≤ 512 },
}
