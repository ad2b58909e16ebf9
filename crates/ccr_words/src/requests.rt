//! What can be asked for.

/// What is done with an input. A run has 0 to 16 workers.
#[derive(Clone, Copy, PartialEq, Eq)]
pub enum Command {
    /// A wiring is written as canonical text.
    Check,
    /// A wiring is run. Where it is scheduled, the input ends with turn lines, which say who acts when.
    Run { workers: u32, schedule: bool },
    /// The output of a run is judged.
    Verify,
    /// A wiring is run, and who acted when is written down.
    Record { workers: u32 },
    /// The run of a record is made again.
    Replay,
    /// The steps of the run of a record are written.
    Steps,
    /// A wiring is asked whether its counts depend on who acts when.
    Steady,
    /// The wiring that a service stands for is run, and what became of each request is written.
    Service { workers: u32 },
    /// The wiring that a service stands for is written as canonical text.
    Expand,
}

/// What the words ask for. A load reads nothing: it runs a generated wiring of so many posts, 1 to 10,000, with
/// 0 to 16 workers.
#[derive(Clone, Copy, PartialEq, Eq)]
pub enum Request {
    Read { command: Command, json: bool },
    Load { size: u32, workers: u32, json: bool },
}
