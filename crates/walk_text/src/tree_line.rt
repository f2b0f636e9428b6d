//! The lines that a tree is built from.
ghost use Rattle.std.specs.Prelude.{◌≡◌, ◌≢◌, ℕ, List, [], ◌++◌, codes, IfSome, IfNone, MatchOption};
ghost use Rattle.walk_text.specs.TreeLine.{Says, HasSizedPath, HasLinkedPath, IsTreeLine};

use crate::number::parse_number;

/// What a line adds to a tree.
pub enum TreeLine<'a> {
    /// An empty directory at a path.
    Dir(&'a str),
    /// A file of a length in bytes at a path.
    File(u64, &'a str),
    /// A link to a target, which may be empty, at a path.
    Link(&'a str, &'a str),
    /// The directory at a path can't be read: permission is denied.
    Deny(&'a str),
}

fn rest_after<'a>(text: &'a str, beginning: &str) -> Option<&'a str>
    ensures { MatchOption result ((rest : List ℕ) → text.now ≢ beginning.now ++ rest)
        (λ rest. text.now ≡ beginning.now ++ rest.now) }
{
    text.strip_prefix(beginning)
}

fn path_in(text: &str) -> Option<&str>
    ensures { MatchOption result (text.now ≡ []) (λ path. (path.now ≡ text.now) × (path.now ≢ [])) }
{
    if text.is_empty() { None } else { Some(text) }
}

fn parse_file(text: &str) -> Option<TreeLine<'_>>
    ensures some { IfSome result (Says (codes "f " ++ text.now)) }
    ensures none { IfNone result (¬ (HasSizedPath text.now)) }
{
    let (len, path) = text.split_once(' ')?;
    let len = parse_number(len)?;
    Some(TreeLine::File(len, path_in(path)?))
}

/// The first tab parts target and path.
fn parse_link(text: &str) -> Option<TreeLine<'_>>
    ensures some { IfSome result (Says (codes "l " ++ text.now)) }
    ensures none { IfNone result (¬ (HasLinkedPath text.now)) }
{
    let (target, path) = text.split_once('\t')?;
    Some(TreeLine::Link(target, path_in(path)?))
}

/// Reads a line: `d PATH`, `f LEN PATH`, `l TARGET<tab>PATH` or `x PATH`. One space comes after the letter and after
/// the length. The path is all that is left, at least one byte. None for any other text.
pub fn parse_tree_line(text: &str) -> Option<TreeLine<'_>>
    ensures some { IfSome result (Says text.now) }
    ensures none { IfNone result (¬ (IsTreeLine text.now)) }
{
    if let Some(path) = rest_after(text, "d ") {
        return Some(TreeLine::Dir(path_in(path)?));
    }
    if let Some(path) = rest_after(text, "x ") {
        return Some(TreeLine::Deny(path_in(path)?));
    }
    if let Some(link) = rest_after(text, "l ") {
        return parse_link(link);
    }
    parse_file(rest_after(text, "f ")?)
}
