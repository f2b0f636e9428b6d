//! The names of a path of bytes.
ghost use Rattle.std.specs.Prelude.{◌≡◌, ◌<◌, ◌∷◌, ◌++◌, [], length, MatchOption};
ghost use Rattle.std.specs.List.{filter};
ghost use Rattle.jwalk_ignore_rules.specs.Pattern.Names.{is_name, names_of};

use crate::pattern::pieces::split_piece;

pub(crate) fn split_name(path: &[u8]) -> Option<(&[u8], &[u8])>
    ensures names { MatchOption result (names_of path.now ≡ []) (λ r. names_of path.now ≡ r.0.now ∷ names_of r.1.now) }
    ensures shorter { MatchOption result (names_of path.now ≡ []) (λ r. length r.1.now < length path.now) }
{
    let mut rest = path;
    while !rest.is_empty() {
        let (name, behind) = split_piece(rest, b'/');
        if !name.is_empty() {
            return Some((name, behind));
        }
        rest = behind;
    }
    None
}

/// Returns what is in front of the last slash of a path, and what is behind it. Without a slash it is nothing, and the
/// whole path.
fn split_end(path: &[u8]) -> (&[u8], &[u8])
    ensures names { names_of path.now ≡ names_of result.0.now ++ filter is_name (result.1.now ∷ []) }
    ensures shorter { 0 < length path.now → length result.0.now < length path.now }
{
    match path.iter().rposition(|byte| *byte == b'/') {
        Some(end) => (&path[..end], &path[end + 1..]),
        None => (&[], path),
    }
}

pub(crate) fn split_last_name(path: &[u8]) -> Option<(&[u8], &[u8])>
    ensures { MatchOption result (names_of path.now ≡ [])
        (λ r. names_of path.now ≡ names_of r.0.now ++ r.1.now ∷ []) }
{
    let mut rest = path;
    while !rest.is_empty() {
        let (before, name) = split_end(rest);
        if !name.is_empty() {
            return Some((before, name));
        }
        rest = before;
    }
    None
}
