//! Answers as lines.
ghost use Rattle.std.specs.Prelude.{◌≡◌, None, decimal, OnOk, option_map};
ghost use Rattle.std.specs.Io.KnownBytes.{Appends};
ghost use Rattle.jwalk_model.specs.Error.{looped};
ghost use Rattle.jwalk_model.specs.Paths.{join};
ghost use Rattle.jwalk_job.specs.Entry.{children, entry, item};
ghost use Rattle.jwalk_job.specs.Error.{failure, ancestor_of, kind_of};
ghost use Rattle.jwalk_model.specs.Lines.{kind_name, letter_of, failure_name, reading_part, entry_line, failure_line, line_of};

use itoa::Buffer;
use jwalk_fs::path_text::join_parts;
use jwalk_job::client_state::ClientState;
use jwalk_job::dir_entry::DirEntry;
use jwalk_job::error::{Error, Result};
use jwalk_job::read_children::ReadChildren;
use jwalk_model::file_type::FileType;
use std::alloc::Allocator;
use std::io;
use std::io::{ErrorKind, Write};

fn kind_name(kind: ErrorKind) -> &'static str
    ensures { result.now ≡ kind_name kind }
{
    match kind {
        ErrorKind::NotFound => "NotFound",
        ErrorKind::PermissionDenied => "PermissionDenied",
        ErrorKind::AlreadyExists => "AlreadyExists",
        ErrorKind::InvalidInput => "InvalidInput",
        ErrorKind::InvalidData => "InvalidData",
        ErrorKind::Interrupted => "Interrupted",
        ErrorKind::Unsupported => "Unsupported",
        _ => "Other",
    }
}

/// Returns the letter of an entry's type: a capital if the path is that of a link, followed or not.
fn letter<C: ClientState, A: Allocator + Copy>(found: &DirEntry<C, A>) -> &'static str
    ensures { result.now ≡ letter_of (entry found.now).through_link (entry found.now).file_type }
{
    if found.path_is_symlink() {
        return match found.file_type() {
            FileType::Dir => "D",
            FileType::File => "F",
            FileType::Symlink => "L",
            FileType::Other => "O",
        };
    }
    match found.file_type() {
        FileType::Dir => "d",
        FileType::File => "f",
        FileType::Symlink => "l",
        FileType::Other => "o",
    }
}

fn write_number<W: Write>(out: &mut W, n: usize) -> io::Result<()>
    ensures { OnOk result (Appends (W.contents out.old) (W.contents out.new) (decimal n)) }
{
    out.write_all(Buffer::new().format(n).as_bytes())
}

fn write_path<W: Write>(out: &mut W, parent: &str, name: &str) -> io::Result<()>
    ensures { OnOk result (Appends (W.contents out.old) (W.contents out.new) (join parent.now name.now)) }
{
    let (front, slash, name) = join_parts(parent, name);
    out.write_all(front.as_bytes())?;
    out.write_all(slash.as_bytes())?;
    out.write_all(name.as_bytes())
}

/// Returns the kind of an error, and `Other` if it has none.
fn kind_of<A: Allocator + Copy>(error: &Error<A>) -> ErrorKind
    ensures { kind_name result ≡ failure_name (failure error.now) }
{
    match error.io_error() {
        Some(err) => err.kind(),
        None => ErrorKind::Other,
    }
}

/// Writes the kind of the error that the reading of a directory ended in, if it did.
fn write_reading<W: Write, C: ClientState, A: Allocator + Copy>(
    out: &mut W,
    below: &Option<ReadChildren<C, A>>,
) -> io::Result<()>
    ensures { OnOk result (Appends (W.contents out.old) (W.contents out.new)
        (reading_part (option_map children below.now))) }
{
    let Some(children) = below else {
        return Ok(());
    };
    let Some(error) = children.error() else {
        return Ok(());
    };
    out.write_all(b" ! ")?;
    out.write_all(kind_name(kind_of(error)).as_bytes())
}

fn print_entry<W: Write, C: ClientState, A: Allocator + Copy>(
    out: &mut W,
    found: &DirEntry<C, A>,
) -> io::Result<()>
    ensures { OnOk result (Appends (W.contents out.old) (W.contents out.new) (entry_line (entry found.now))) }
{
    write_number(out, found.depth())?;
    out.write_all(b" ")?;
    out.write_all(letter(found).as_bytes())?;
    out.write_all(b" ")?;
    write_path(out, found.parent_path(), found.file_name())?;
    write_reading(out, &found.read_children)?;
    out.write_all(b"\n")
}

fn print_loop<W: Write>(out: &mut W, depth: usize, ancestor: &str, child: &str) -> io::Result<()>
    ensures { OnOk result (Appends (W.contents out.old) (W.contents out.new)
        (failure_line (looped depth ancestor.now child.now))) }
{
    out.write_all(b"! ")?;
    write_number(out, depth)?;
    out.write_all(b" ")?;
    out.write_all(child.as_bytes())?;
    out.write_all(b" loop ")?;
    out.write_all(ancestor.as_bytes())?;
    out.write_all(b"\n")
}

fn bare_line<A: Allocator + Copy>(error: &Error<A>) -> &'static str
    requires no_kind { kind_of (failure error.now) ≡ None }
    requires no_loop { ancestor_of (failure error.now) ≡ None }
    ensures { result.now ≡ failure_line (failure error.now) }
{
    if error.is_busy() {
        "! 0 - busy\n"
    } else if error.is_lost() {
        "! 0 - lost\n"
    } else {
        "! 0 - memory\n"
    }
}

fn print_error<W: Write, A: Allocator + Copy>(out: &mut W, error: &Error<A>) -> io::Result<()>
    ensures { OnOk result (Appends (W.contents out.old) (W.contents out.new) (failure_line (failure error.now))) }
{
    if let Some(ancestor) = error.loop_ancestor() {
        let child = error.path().unwrap_or("-");
        return print_loop(out, error.depth(), ancestor, child);
    }
    let Some(err) = error.io_error() else {
        return out.write_all(bare_line(error).as_bytes());
    };
    out.write_all(b"! ")?;
    write_number(out, error.depth())?;
    out.write_all(b" ")?;
    out.write_all(error.path().unwrap_or("-").as_bytes())?;
    out.write_all(b" ")?;
    out.write_all(kind_name(err.kind()).as_bytes())?;
    out.write_all(b"\n")
}

/// Writes the line of an answer.
pub fn print_answer<W: Write, C: ClientState, A: Allocator + Copy>(
    out: &mut W,
    answer: &Result<DirEntry<C, A>, A>,
) -> io::Result<()>
    ensures { OnOk result (Appends (W.contents out.old) (W.contents out.new) (line_of (item answer.now))) }
{
    match answer {
        Ok(entry) => print_entry(out, entry),
        Err(error) => print_error(out, error),
    }
}
