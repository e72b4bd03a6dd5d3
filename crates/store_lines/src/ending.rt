//! How the answers of a script end.

/// How the answers of a script end.
#[derive(Clone, Copy, Debug, PartialEq, Eq)]
pub enum Ending {
    /// No line was refused, and each line was a command.
    Good,
    /// Some answer is `refused` or `bad`, and none is `refused S14`.
    Refused,
    /// Some answer is `refused S14`.
    OutOfMemory,
}
