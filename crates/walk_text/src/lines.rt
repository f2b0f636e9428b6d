//! The lines of a text of bytes.
ghost use Rattle.std.specs.Prelude.{◌≡◌, ◌+◌, ◌<◌, ◌^◌, length, position};
ghost use Rattle.std.specs.List.{before_first, after_first};
ghost use Rattle.walk_text.specs.TextLines.{is_line_feed};

/// The lines of a text with their numbers, counted from 1. A line ends at a line feed, but the last may have none.
#[derive(Drop)]
pub struct NumberedLines<'a> {
    left: &'a [u8],
    passed: usize,
    ghost fits: { passed + length left.now < 2 ^ 64 },
}

fn line_end(text: &[u8]) -> Option<usize>
    ensures { result ≡ position is_line_feed text.now }
{
    text.iter().position(|b| *b == b'\n')
}

fn split_line(text: &[u8]) -> (&[u8], &[u8])
    ensures line { result.0.now ≡ before_first is_line_feed text.now }
    ensures rest { result.1.now ≡ after_first is_line_feed text.now }
{
    match line_end(text) {
        Some(end) => (&text[..end], &text[end + 1..]),
        None => (text, &[]),
    }
}

impl<'a> NumberedLines<'a> {
    ghost use Rattle.walk_text.specs.NumberedLines.{lines_left};
    ghost use Rattle.walk_text.specs.TextLines.{numbered_from};

    /// Returns the lines of a text.
    pub fn new(text: &'a [u8]) -> Self
        ensures { lines_left result ≡ numbered_from 1 text.now }
    {
        NumberedLines {
            left: text,
            passed: 0,
        }
    }
}

impl<'a> Iterator for NumberedLines<'a> {
    type Item = (usize, &'a [u8]);

    ghost use Rattle.std.specs.Iterator.{YieldsFirstBy, item_count};
    ghost use Rattle.walk_text.specs.NumberedLines.{lines_left, numbered};

    ghost next_gives = { YieldsFirstBy numbered lines_left };

    ghost remaining = { item_count lines_left };

    fn next(&mut self) -> Option<(usize, &'a [u8])> {
        if self.left.is_empty() {
            return None;
        }
        let (line, left) = split_line(self.left);
        let number = self.passed + 1;
        *self = NumberedLines {
            left,
            passed: number,
        };
        Some((number, line))
    }
}
