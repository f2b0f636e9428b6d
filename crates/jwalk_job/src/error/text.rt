//! The texts of errors.
ghost use Rattle.std.specs.Prelude.{◌≡◌, ℕ, List, Some, IfOk, string_bytes};
ghost use Rattle.std.specs.Fmt.{DisplaysOnOk, WritesOnOk};
ghost use Rattle.std.specs.Option.{option_copied};
ghost use Rattle.jwalk_job.specs.Error.{escaped, failure, item_text, kind_or_other, loop_text, name_of, text_with, text_of};

use super::{Error, ErrorInner};
use std::alloc::{AllocError, Allocator};
use std::fmt::InlineText;
use std::{error, fmt, io};

/// No `io::Error` has a text that long in bytes: its message takes 256 at most, and its number is that of an `i32`.
const OWN_ROOM: usize = 300;

/// An error, and the own text of its `io::Error` if it has one: all that is reported of it.
#[derive(Drop)]
struct Told<'a, A: Allocator + Copy> {
    error: &'a Error<A>,
    own: &'a str,
}

fn write_loop<W: fmt::Write>(f: &mut fmt::Formatter<W>, child: &str, ancestor: &str) -> fmt::Result
    ensures { WritesOnOk W.write_str_gives f.old result (loop_text child.now ancestor.now) f.new }
{
    write!(
        f,
        "File system loop found: {child} points to an ancestor {ancestor}"
    )
}

fn write_escaped<W: fmt::Write>(f: &mut fmt::Formatter<W>, name: &[u8]) -> fmt::Result
    ensures { WritesOnOk W.write_str_gives f.old result (escaped name.now) f.new }
{
    for byte in name.escape_ascii() {
        f.write_char(char::from(byte))?;
    }
    Ok(())
}

fn write_item<W: fmt::Write>(
    f: &mut fmt::Formatter<W>,
    own: &str,
    folder: &str,
    name: Option<&[u8]>,
) -> fmt::Result
    ensures { WritesOnOk W.write_str_gives f.old result
        (item_text own.now folder.now (option_copied name.entry)) f.new }
{
    write!(f, "{own} in {folder}")?;
    if let Some(name) = name {
        f.write_str(": ")?;
        write_escaped(f, name)?;
    }
    Ok(())
}

impl<A: Allocator + Copy> fmt::Display for Told<'_, A> {
    ghost output = { λ told. Some (text_with told.own.now (name_of told.error.now) (failure told.error.now)) };

    fn fmt<W: fmt::Write>(&self, f: &mut fmt::Formatter<W>) -> fmt::Result {
        match &self.error.inner {
            ErrorInner::Io {
                path: Some(path),
                ..
            } => write!(
                f,
                "IO error for operation on {}: {}",
                path.as_str(),
                self.own
            ),
            ErrorInner::Io { path: None, .. } => f.write_str(self.own),
            ErrorInner::Unnamed { parent, .. } => {
                write_item(f, self.own, parent.as_str(), self.error.name_bytes())
            }
            ErrorInner::Loop { ancestor, child } => {
                write_loop(f, child.as_str(), ancestor.as_str())
            }
            ErrorInner::Busy => f.write_str(
                "rayon thread-pool too busy or dependency loop detected - aborting before possibility of deadlock",
            ),
            ErrorInner::Memory => f.write_str("memory refused for the walk"),
            ErrorInner::Lost => f.write_str("a reading of the crew is lost"),
        }
    }
}

/// The text of the error. That of an `io::Error` with a path begins with the path and ends in its own text. If it has none,
/// but came in a directory, its own text is first: `invalid filename in odd: bad\xff\xfename`. The bytes of such a name are
/// as `<[u8]>::escape_ascii` has them.
impl<A: Allocator + Copy> fmt::Display for Error<A> {
    ghost output = { λ e. text_of (failure e) };

    fn fmt<W: fmt::Write>(&self, f: &mut fmt::Formatter<W>) -> fmt::Result
        ensures writes { DisplaysOnOk W.write_str_gives f.old result (text_of (failure self.now)) f.new }
        ensures text { (own : List ℕ)
            × WritesOnOk W.write_str_gives f.old result (text_with own (name_of self.now) (failure self.now)) f.new }
    {
        let own = self.own_text();
        let own = own.as_str();
        write!(f, "{}", Told { error: self, own })
    }
}

impl<A: Allocator + Copy> error::Error for Error<A> {}

impl<A: Allocator + Copy> Error<A> {
    /// Returns the own text of the `io::Error`, if it is one.
    fn own_text(&self) -> InlineText<{ OWN_ROOM }> {
        match self.io_error() {
            Some(err) => InlineText::of(err),
            None => InlineText::new(),
        }
    }

    /// Returns the kind of the `io::Error`, or `Other` if it is none, and the text that the error is printed as.
    ///
    /// # Errors
    ///
    /// If memory runs out.
    pub fn kind_and_text(&self, alloc: A) -> Result<(io::ErrorKind, String<A>), AllocError>
        ensures kind { IfOk result (λ r. r.0 ≡ kind_or_other (failure self.now)) }
        ensures text { IfOk result (λ r. (own : List ℕ)
            × (string_bytes r.1 ≡ text_with own (name_of self.now) (failure self.now))) }
    {
        let own = self.own_text();
        let own = own.as_str();
        let text = Told { error: self, own }.to_string(alloc)?;
        match self.io_error() {
            Some(err) => Ok((err.kind(), text)),
            None => Ok((io::ErrorKind::Other, text)),
        }
    }
}
