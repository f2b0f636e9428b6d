//! Errors, reported on standard error.
ghost use Rattle.std.specs.Prelude.{◌≡◌, codes, Ok};
ghost use Rattle.jwalk_job.specs.Entry.{entry};
ghost use Rattle.program_parts.specs.Errors.{IsTold};
ghost use Rattle.seek_found.specs.Found.{is_clean, is_flat_root};

use jwalk_fs::path_text::join_parts;
use jwalk_job::client_state::ClientState;
use jwalk_job::dir_entry::DirEntry;
use jwalk_job::error::Error;
use program_parts::errors::Errors;
use program_parts::halt::Halt;
use seek_words::asked::Asked;
use seek_words::hidden::{finds_none_shown, may_mean_hidden};
use std::alloc::{AllocError, Allocator, Global};
use std::io::Write;

/// Tells an error by this text, or if memory ran out for it, tells that.
pub fn tell_text<E: Write>(alloc: Global, text: Result<String, AllocError>, err: &mut Errors<E>)
    ensures told { IsTold E.contents (codes "seek") err.new }
{
    match text {
        Ok(text) => err.tell("seek", text.as_str()),
        Err(refused) => err.tell_halt(alloc, "seek", Halt::from(refused)),
    }
}

/// The path of an item, in parts: its folder, the text between, and its name. All are empty if the path isn't known.
type Place<'p> = (&'p str, &'static str, &'p str);

/// Returns the path of an error, or else that of the directory in which the error was met.
fn path_of<A: Allocator + Copy>(error: &Error<A>) -> Option<&str> {
    match error.path() {
        Some(path) => Some(path),
        None => error.parent_path(),
    }
}

fn place_of<C: ClientState, A: Allocator + Copy>(found: &DirEntry<C, A>) -> Place<'_> {
    join_parts(found.parent_path(), found.file_name())
}

/// Reports an error on a line, with its path, or else with `own`. One of a name that isn't UTF-8 has no path but its text,
/// which has the folder and the name. A failed write is ignored.
fn report_at<A: Allocator + Copy, E: Write>(error: &Error<A>, own: Place<'_>, err: &mut E) {
    let (folder, slash, name) = match path_of(error) {
        Some(path) => (path, "", ""),
        None => own,
    };
    let is_known = error.name_bytes().is_none() && (!folder.is_empty() || !name.is_empty());
    let _ = match (error.io_error(), error.loop_ancestor()) {
        (Some(io), _) if is_known => writeln!(err, "seek: {folder}{slash}{name}: {io}"),
        (_, Some(above)) => writeln!(err, "seek: {folder}: a link that leads back to {above}"),
        _ if is_known => writeln!(err, "seek: {folder}{slash}{name}: {error}"),
        _ => writeln!(err, "seek: {error}"),
    };
}

/// Reports an error of a walk on a line, with its path, or else with that of the directory in which the error was met.
/// A failed write is ignored.
pub fn report_error<A: Allocator + Copy, E: Write>(error: &Error<A>, err: &mut E) {
    report_at(error, ("", "", ""), err);
}

/// Returns whether an entry is a root that is neither a directory nor a link to one.
fn is_flat_root<C: ClientState, A: Allocator + Copy>(found: &DirEntry<C, A>) -> bool
    ensures { result ≡ is_flat_root (entry found.now) }
{
    found.depth() == 0 && found.read_children.is_none()
}

/// Reports that an entry is a root without a directory, or the error of its directory's reading. Returns whether there
/// is nothing to report.
pub fn report_entry<C: ClientState, A: Allocator + Copy, E: Write>(
    found: &DirEntry<C, A>,
    err: &mut E,
) -> bool
    ensures { result ≡ is_clean (Ok (entry found.now)) }
{
    if is_flat_root(found) {
        let (folder, slash, name) = place_of(found);
        let _ = writeln!(err, "seek: {folder}{slash}{name}: Not a directory");
        return false;
    }
    match found.read_children_error() {
        Some(error) => {
            report_at(error, place_of(found), err);
            false
        }
        None => true,
    }
}

/// Reports that hidden names don't come, where nothing was found and the pattern finds these alone, or begins as they do.
pub fn report_none<E: Write>(asked: &Asked<'_>, err: &mut E) {
    let pattern = asked.pattern;
    if finds_none_shown(asked) {
        let _ = writeln!(
            err,
            "seek: the pattern '{pattern}' finds hidden names alone: add -H to have these"
        );
    } else if may_mean_hidden(asked) {
        let _ = writeln!(
            err,
            "seek: names with a dot in front are left out: add -H to have these"
        );
    }
}
