//! Paths, and their order by components.
ghost use Rattle.std.specs.Prelude.{◌≡◌, ◌++◌, ℕ, List, length, slice_get, option_map, IfSome};
ghost use Rattle.jwalk_changes.specs.AtPath.{names, path_cmp, is_below, rank, between, whole, text_cmp};

use std::cmp::Ordering;

/// What has a path, such as an entry of a walk behind its root.
///
/// A path here is a list of names, as they come between its slashes. No name is special: `.` and `..` are compared like
/// others, and so is an empty one.
pub trait AtPath: Drop {
    // The names of the path, the first one first. That of the root has none.
    ghost path: { Self → List (List ℕ) };

    /// Returns the path in two parts, between which a slash is left out where neither is empty. So `("a/b", "c")` is
    /// `a/b/c`, and so is `("", "a/b/c")`. The path of the root is `("", "")`.
    fn path_parts(&self) -> (&str, &str)
        ensures { names result.0.now ++ names result.1.now ≡ path self.now };
}

impl<'p> AtPath for &'p str {
    ghost path = { λ text. names text.now };

    fn path_parts(&self) -> (&str, &str) {
        ("", self)
    }
}

// A slash comes before all other bytes.
fn rank(byte: u8) -> u16
    ensures { result ≡ rank byte }
{
    if byte == b'/' { 0 } else { byte as u16 + 1 }
}

/// Returns what is between the parts of a path.
fn between(front: &str, back: &str) -> &'static str
    ensures { result.now ≡ between front.now back.now }
{
    if front.is_empty() || back.is_empty() {
        ""
    } else {
        "/"
    }
}

/// Compares two texts byte by byte, of which a slash is the least.
fn compare_texts(a: &str, b: &str) -> Ordering
    ensures { result ≡ text_cmp a.now b.now }
{
    a.bytes().map(rank).cmp(b.bytes().map(rank))
}

/// Returns the length of the text of a path in two parts.
fn whole_len(path: (&str, &str)) -> usize
    ensures { result ≡ length (whole path.entry.0.now path.entry.1.now) }
{
    path.0.len() + between(path.0, path.1).len() + path.1.len()
}

/// Returns a byte of that text, if it is as long.
fn byte_at(path: (&str, &str), at: usize) -> Option<u8>
    ensures { result ≡ slice_get (whole path.entry.0.now path.entry.1.now) at }
{
    let front = path.0.as_bytes();
    if at < front.len() {
        return Some(front[at]);
    }
    let at = at - front.len();
    let slash = between(path.0, path.1).as_bytes();
    if at < slash.len() {
        return Some(slash[at]);
    }
    path.1.as_bytes().get(at - slash.len()).copied()
}

fn rank_at(path: (&str, &str), at: usize) -> Option<u16>
    ensures { result ≡ option_map rank (slice_get (whole path.entry.0.now path.entry.1.now) at) }
{
    byte_at(path, at).map(rank)
}

fn compare_whole(a: (&str, &str), b: (&str, &str)) -> Ordering
    ensures { result ≡ text_cmp (whole a.entry.0.now a.entry.1.now) (whole b.entry.0.now b.entry.1.now) }
{
    let len = whole_len(a);
    for at in 0..len {
        let order = rank_at(a, at).cmp(&rank_at(b, at));
        if order.is_ne() {
            return order;
        }
    }
    if len < whole_len(b) {
        Ordering::Less
    } else {
        Ordering::Equal
    }
}

/// Returns what is behind a directory in the text of a path below it.
fn rest_below<'p>(folder: &str, path: &'p str) -> Option<&'p str>
    ensures { IfSome result (λ rest. names path.now ≡ names folder.now ++ names rest.now) }
{
    let rest = path.strip_prefix(folder)?;
    match rest.strip_prefix("/") {
        Some(names) if !folder.is_empty() && !names.is_empty() => Some(names),
        _ => None,
    }
}

/// Returns what is behind a directory in a path below it, if one part of the path has that.
fn behind<'p>(folder: &str, path: (&'p str, &'p str)) -> Option<&'p str>
    ensures { IfSome result (λ rest. names path.entry.0.now ++ names path.entry.1.now ≡ names folder.now ++ names rest.now) }
{
    if path.0 == folder {
        Some(path.1)
    } else if path.0.is_empty() {
        rest_below(folder, path.1)
    } else {
        None
    }
}

/// Compares two paths by their names, one after another, each by its bytes. A path comes before all that is below it: of
/// `a.b`, `a/b` and `a`, `a` is the first, and `a.b` the last.
pub fn compare<P: AtPath, Q: AtPath>(a: &P, b: &Q) -> Ordering
    ensures { result ≡ path_cmp (P.path a.now) (Q.path b.now) }
{
    let a = a.path_parts();
    let b = b.path_parts();
    // Most often both lie in one directory.
    if let Some(rest) = behind(a.0, b) {
        return compare_texts(a.1, rest);
    }
    match behind(b.0, a) {
        Some(rest) => compare_texts(rest, b.1),
        None => compare_whole(a, b),
    }
}

/// Returns whether a path is below a place: whether its path has all names of the place's, and then at least one more.
/// All paths but the root's are below the root.
pub fn is_below<P: AtPath, Q: AtPath>(place: &P, found: &Q) -> bool
    ensures { result ≡ is_below (P.path place.now) (Q.path found.now) }
{
    let place = place.path_parts();
    let found = found.path_parts();
    let len = whole_len(place);
    if len == 0 {
        return whole_len(found) > 0;
    }
    for at in 0..len {
        if byte_at(place, at) != byte_at(found, at) {
            return false;
        }
    }
    byte_at(found, len) == Some(b'/')
}
