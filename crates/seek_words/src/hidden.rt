//! Patterns for hidden names.
ghost use Rattle.std.specs.Prelude.{◌≡◌};
ghost use Rattle.jwalk_model.specs.Entry.{is_hidden};
ghost use Rattle.seek_words.specs.Hidden.{begins_as_name, begins_escaped_dot, finds_none_shown, is_repeat, may_mean_hidden};

use crate::asked::Asked;

fn begins_escaped_dot(text: &[u8]) -> bool
    ensures { result ≡ begins_escaped_dot text.now }
{
    matches!(text, [b'^', b'\\', b'.', ..])
}

fn begins_dot(text: &[u8]) -> bool
    ensures { result ≡ is_hidden text.now }
{
    matches!(text, [b'.', ..])
}

/// Returns whether hidden names don't come, but a pattern can find no others: a regular expression that begins with
/// `^\.`, or a glob that begins with a dot. A pattern that is compared with paths may find others.
pub fn finds_none_shown(asked: &Asked<'_>) -> bool
    ensures { result ≡ finds_none_shown asked.now }
{
    if asked.hidden || asked.full_path || asked.fixed {
        return false;
    }
    let pattern = asked.pattern.as_bytes();
    if asked.glob {
        begins_dot(pattern)
    } else {
        begins_escaped_dot(pattern)
    }
}

fn is_repeat(byte: u8) -> bool
    ensures { result ≡ is_repeat byte }
{
    matches!(byte, b'*' | b'+' | b'?' | b'{')
}

fn begins_as_name(text: &[u8]) -> bool
    ensures { result ≡ begins_as_name text.now }
{
    match text {
        [b'.', next, ..] => !is_repeat(*next),
        _ => false,
    }
}

/// Returns whether hidden names don't come, and a pattern for names that isn't a glob begins as they do: with a dot, and
/// then more. In a regular expression that dot is any character.
pub fn may_mean_hidden(asked: &Asked<'_>) -> bool
    ensures { result ≡ may_mean_hidden asked.now }
{
    if asked.hidden || asked.full_path || asked.glob {
        return false;
    }
    begins_as_name(asked.pattern.as_bytes())
}
