//! What paths are printed to.
ghost use Rattle.std.specs.Prelude.{◌≡◌};
ghost use Rattle.seek_words.specs.Screen.{is_colored};

use crate::color::Color;

/// What paths are printed to.
#[derive(Clone, Copy, Debug, PartialEq, Eq)]
pub struct Screen<'s> {
    /// It is a terminal.
    pub is_terminal: bool,
    /// Colors aren't wanted: the variable `NO_COLOR` is set, and isn't empty.
    pub no_color: bool,
    /// The value of the variable `LS_COLORS`, or the empty text if it isn't set.
    pub ls_colors: &'s str,
    /// The greatest width of the lines of help, if it is known.
    pub columns: Option<usize>,
}

impl<'s> Screen<'s> {
    /// Returns whether paths are printed in colors.
    pub fn is_colored(self, color: Color) -> bool
        ensures { result ≡ is_colored self.entry color }
    {
        match color {
            Color::Auto => self.is_terminal && !self.no_color,
            Color::Always => true,
            Color::Never => false,
        }
    }
}
