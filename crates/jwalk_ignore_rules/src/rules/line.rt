//! The lines of an ignore file.
ghost use Rattle.std.specs.Prelude.{◌≡◌, ◌==◌, ◌&&◌, ◌||◌, false, not};
ghost use Rattle.jwalk_ignore_rules.specs.Rules.Line.{is_space, text_of, trimmed, without_mark, without_return};

use crate::pattern::pieces::split_piece;

/// Returns a file's bytes without the byte order mark that they begin with.
pub fn without_mark(bytes: &[u8]) -> &[u8]
    ensures { result.now ≡ without_mark bytes.now }
{
    match bytes {
        [239, 187, 191, behind @ ..] => behind,
        _ => bytes,
    }
}

fn without_return(line: &[u8]) -> &[u8]
    ensures { result.now ≡ without_return line.now }
{
    if !line.is_empty() && line[line.len() - 1] == b'\r' {
        &line[..line.len() - 1]
    } else {
        line
    }
}

fn is_kept(escaped: bool, byte: u8) -> bool
    ensures { result ≡ (escaped || not (is_space byte)) }
{
    escaped || byte != b' '
}

fn is_escape(escaped: bool, byte: u8) -> bool
    ensures { result ≡ (not escaped && byte == 92) }
{
    !escaped && byte == b'\\'
}

/// Returns a text without the spaces at its end. One behind a backslash is kept.
fn trimmed(text: &[u8]) -> &[u8]
    ensures { result.now ≡ trimmed false text.now }
{
    let mut end = 0;
    let mut escaped = false;
    for (place, byte) in text.iter().enumerate() {
        let escapes = is_escape(escaped, *byte);
        if is_kept(escaped, *byte) {
            end = place + 1;
        }
        escaped = escapes;
    }
    &text[..end]
}

/// Returns the text of a line: what is in front of a zero byte, without the spaces at its end.
pub(crate) fn text_of(line: &[u8]) -> &[u8]
    ensures { result.now ≡ text_of line.now }
{
    let (before_zero, _) = split_piece(without_return(line), 0);
    trimmed(before_zero)
}
