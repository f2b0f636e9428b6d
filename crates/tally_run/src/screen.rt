//! What results are written to, and errors.

/// What results are written to, and errors.
#[derive(Clone, Copy, Debug, PartialEq, Eq)]
pub struct Screen {
    /// Standard output is a terminal.
    pub is_terminal: bool,
    /// Standard error is a terminal.
    pub shows_errors: bool,
    /// How many characters a line has, of a table and of help.
    pub width: usize,
}
