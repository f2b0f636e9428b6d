//! The line of a difference.
ghost use Rattle.std.specs.Prelude.{◌≡◌, ◌++◌, ◌∷◌, [], OnOk};
ghost use Rattle.program_parts.specs.Paths.{shown_text};
ghost use Rattle.since_parts.specs.Line.{front, line_of, path_in, path_text, sign, told_of, which_text, word_if};

use crate::held::Held;
use jwalk_changes::{Change, Kept, Which};
use program_parts::paths::Style;
use std::alloc::{AllocError, Global};

fn sign(change: &Change<Held<'_, '_>, &Kept>) -> u8
    ensures { result ≡ sign change.now }
{
    match change {
        Change::Added(_) => b'+',
        Change::Removed(_) => b'-',
        Change::Changed(_, _, _) => b'~',
    }
}

/// Returns what a path that looks like an option begins with in lines that end with a zero byte.
fn front(style: Style, path: &str) -> &'static str
    ensures { result.now ≡ front style path.now }
{
    match path.as_bytes() {
        [b'-', ..] if style.separator == 0 => "./",
        _ => "",
    }
}

fn push_shown(style: Style, path: &str, out: &mut Vec<u8>) -> Result<(), AllocError>
    ensures { OnOk result (out.new.items ≡ out.old.items ++ shown_text style path.now) }
{
    if style.to_terminal {
        let shown = style.shown_text(*out.allocator(), path)?;
        out.extend_from_slice(shown.as_bytes())
    } else {
        out.extend_from_slice(path.as_bytes())
    }
}

/// Adds a path as it is written.
pub(crate) fn push_path(style: Style, path: &str, out: &mut Vec<u8>) -> Result<(), AllocError>
    ensures { OnOk result (out.new.items ≡ out.old.items ++ path_text style path.now) }
{
    out.extend_from_slice(front(style, path).as_bytes())?;
    push_shown(style, path, out)
}

/// Adds the path that a change is about.
fn push_path_in(
    style: Style,
    change: &Change<Held<'_, '_>, &Kept>,
    out: &mut Vec<u8>,
) -> Result<(), AllocError>
    ensures { OnOk result (out.new.items ≡ out.old.items ++ path_text style (path_in change.now)) }
{
    match change {
        Change::Added(found) | Change::Changed(_, found, _) => {
            push_path(style, found.path.as_str(), out)
        }
        Change::Removed(old) => {
            let path = old.path(*out.allocator())?;
            push_path(style, path.as_str(), out)
        }
    }
}

fn push_word(differs: bool, word: &str, out: &mut Vec<u8>) -> Result<(), AllocError>
    ensures { OnOk result (out.new.items ≡ out.old.items ++ word_if differs word.now) }
{
    if differs {
        out.push(b'\t')?;
        out.extend_from_slice(word.as_bytes())?;
    }
    Ok(())
}

fn push_which(which: Which, out: &mut Vec<u8>) -> Result<(), AllocError>
    ensures { OnOk result (out.new.items ≡ out.old.items ++ which_text which) }
{
    push_word(which.file_type, "type", out)?;
    push_word(which.len, "length", out)?;
    push_word(which.modified, "time", out)?;
    push_word(which.inode, "number", out)
}

/// Adds what differs of a change, if that is asked for.
fn push_told(
    long: bool,
    change: &Change<Held<'_, '_>, &Kept>,
    out: &mut Vec<u8>,
) -> Result<(), AllocError>
    ensures { OnOk result (out.new.items ≡ out.old.items ++ told_of long change.now) }
{
    match change {
        Change::Changed(_, _, which) if long => push_which(*which, out),
        _ => Ok(()),
    }
}

/// Adds the line of a difference: `+` for what was added, `-` for what was removed, and `~` for what changed, then a
/// space and the path. With `long` the words for what differs follow: `type`, `length`, `time` and `number`, with a tab
/// in front of each.
///
/// # Errors
///
/// If memory runs out.
pub fn push_line(
    style: Style,
    long: bool,
    change: &Change<Held<'_, '_>, &Kept>,
    out: &mut Vec<u8>,
) -> Result<(), AllocError>
    ensures { OnOk result (out.new.items ≡ out.old.items ++ line_of style long change.now) }
{
    out.push(sign(change))?;
    out.push(b' ')?;
    push_path_in(style, change, out)?;
    push_told(long, change, out)?;
    out.push(style.separator)?;
    Ok(())
}
