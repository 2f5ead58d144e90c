//! What a command line asks for.

/// What a command line asks for.
#[derive(Clone, Copy, Debug, PartialEq, Eq)]
pub enum Line {
    /// All scenarios of the network of a file.
    Explore,
    /// All scenarios of the network that the generator makes of this number, 0 to 35.
    ExploreMade(u8),
    /// The run of a file's network on its inputs.
    Replay,
    /// The network file that the generator makes of this number, 0 to 35.
    Make(u8),
}
