//! What lines are written to.

/// What lines are written to.
#[derive(Clone, Copy, Debug, PartialEq, Eq)]
pub struct Screen {
    /// Standard output is a terminal.
    pub is_terminal: bool,
    /// How many characters a line of help has.
    pub width: usize,
}
