//! Errors, reported on standard error.
ghost use Rattle.std.specs.Prelude.{◌≡◌, not, is_some, option_and_then, IfOk};
ghost use Rattle.jwalk.specs.jwalk_job.Entry.{entry};

use crate::progress::Report;
use jwalk::{ClientState, DirEntry, Error};
use program_parts::masked::masked;
use std::alloc::{AllocError, Allocator, Global};
use std::fmt::Display;

/// Returns what is said on standard error. If that is a terminal, a question mark is in place of each control character.
fn shown(alloc: Global, to_terminal: bool, what: String) -> Result<String, AllocError> {
    if to_terminal {
        masked(alloc, what.as_str())
    } else {
        Ok(what)
    }
}

/// Returns what is said of an error at a path that the disk didn't give.
fn loop_text<A: Allocator + Copy>(
    alloc: Global,
    path: &str,
    error: &Error<A>,
) -> Result<String, AllocError> {
    match error.loop_ancestor() {
        Some(above) => format!(in alloc; "{path}: a link that leads back to {above}"),
        None => format!(in alloc; "{path}: {error}"),
    }
}

/// Returns what is said of an error of a walk: with its path, or else with that of the directory that it came in. The text
/// of an error of a name that isn't UTF-8 has the directory and the name.
fn text_of<A: Allocator + Copy>(alloc: Global, error: &Error<A>) -> Result<String, AllocError> {
    match (error.path(), error.parent_path(), error.io_error()) {
        (Some(path), _, Some(io)) => format!(in alloc; "{path}: {io}"),
        (Some(path), _, None) => loop_text(alloc, path, error),
        (None, Some(folder), Some(io)) if error.name_bytes().is_none() => {
            format!(in alloc; "{folder}: {io}")
        }
        _ => format!(in alloc; "{error}"),
    }
}

/// Returns what is said of an error of a walk on standard error.
pub(crate) fn error_text<A: Allocator + Copy>(
    alloc: Global,
    to_terminal: bool,
    error: &Error<A>,
) -> Result<String, AllocError> {
    shown(alloc, to_terminal, text_of(alloc, error)?)
}

/// Returns whether there is no error.
pub(crate) fn report_entry<C: ClientState, A: Allocator + Copy, E: Report>(
    alloc: Global,
    to_terminal: bool,
    found: &DirEntry<C, A>,
    err: &mut E,
) -> Result<bool, AllocError>
    ensures { IfOk result (λ clean.
        clean ≡ not (is_some (option_and_then (λ children. children.error) (entry found.now).read_children))) }
{
    match found.read_children_error() {
        Some(error) => {
            err.error(error_text(alloc, to_terminal, error)?.as_str());
            Ok(false)
        }
        None => Ok(true),
    }
}

/// Reports that a root is left out, which is no error.
pub(crate) fn report_root<E: Report>(
    alloc: Global,
    to_terminal: bool,
    root: &str,
    err: &mut E,
) -> Result<(), AllocError> {
    let what = format!(in alloc; "{root}: left out, below an earlier root")?;
    let what = shown(alloc, to_terminal, what)?;
    let _ = writeln!(err, "tally: {what}");
    Ok(())
}

/// Returns what is said on standard error of a file of excludes that can't be used.
pub(crate) fn file_text<D: Display>(
    alloc: Global,
    to_terminal: bool,
    path: &str,
    why: &D,
) -> Result<String, AllocError> {
    shown(alloc, to_terminal, format!(in alloc; "{path}: {why}")?)
}
