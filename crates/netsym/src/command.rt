//! What is done for a command line.

/// A command over the network of a file.
#[derive(Clone, Copy, Debug, PartialEq, Eq)]
pub enum Command {
    /// All scenarios of the network, by copying it whole at every branch.
    Explore,
    /// The run of the network on the inputs that its file gives.
    Replay,
}

/// A command over the network that the generator makes of a number.
#[derive(Clone, Copy, Debug, PartialEq, Eq)]
pub enum Making {
    /// The first and the last line of the report on all its scenarios.
    Explore,
    /// The network as a file.
    Print,
}
