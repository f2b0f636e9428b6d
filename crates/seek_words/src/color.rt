//! When paths are printed in colors.
ghost use Rattle.std.specs.Prelude.{◌≡◌};

/// When paths are printed in colors.
#[derive(Clone, Copy, Debug, PartialEq, Eq)]
pub enum Color {
    /// On a terminal.
    Auto,
    /// Always.
    Always,
    /// Never.
    Never,
}

impl Color {
    ghost use Rattle.seek_words.specs.Color.{color_in};

    /// Reads when paths are printed in colors: `auto`, `always` or `never`. Returns `None` for any other text.
    pub fn read(text: &str) -> Option<Self>
        ensures { result ≡ color_in text.now }
    {
        match text {
            "auto" => Some(Color::Auto),
            "always" => Some(Color::Always),
            "never" => Some(Color::Never),
            _ => None,
        }
    }
}
