//! How lines are written.
ghost use Rattle.std.specs.Prelude.{◌≡◌};
ghost use Rattle.since_run.specs.Run.{separator_of, style_asked};

use crate::screen::Screen;
use program_parts::paths::Style;
use since_words::asked::Asked;

fn separator_of(print0: bool) -> u8
    ensures { result ≡ separator_of print0 }
{
    if print0 { 0 } else { b'\n' }
}

/// Returns how lines are written, as a call asks.
pub(crate) fn style_of(asked: &Asked<'_>, screen: Screen) -> Style
    ensures { result ≡ style_asked asked.now screen }
{
    Style {
        here: false,
        to_terminal: screen.is_terminal,
        separator: separator_of(asked.print0),
    }
}
