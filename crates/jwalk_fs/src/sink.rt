//! What takes the items of a listing.
ghost use Rattle.std.specs.Prelude.{List, [], ◌∷◌, ◌++◌, Ok, Err, OnOk};
ghost use Rattle.std.specs.IoError.{error_kind};
ghost use Rattle.jwalk_model.specs.FileSystem as value;
ghost use Rattle.jwalk_fs.specs.Views.{named_as, typed_as};

use crate::listed::Listed;
use jwalk_model::file_type::FileType;
use jwalk_model::seen::Seen;
use std::alloc::{AllocError, Allocator, Global};
use std::io;
use std::io::ErrorKind;

/// Takes the items of a listing one after another, so that no list of them need be kept. A walk makes its entries in
/// one.
pub trait Sink {
    /// With these items, taken one after another, the first became the last.
    ghost Took: { Self → List value.Listed → Self → Type 0 };

    /// Takes a name with what is known of it, or with the error that came when it was asked for. A walk that keeps
    /// metadata keeps that of an item that has it.
    ///
    /// # Errors
    ///
    /// If memory runs out.
    fn take_seen(&mut self, name: &str, seen: io::Result<Seen>) -> Result<(), AllocError>
        ensures { (first : _) (before : List value.Listed) → Took first before self.old
            → OnOk result (Took first (before ++ Ok (named_as name.now seen) ∷ []) self.new) };

    /// Takes a name with its type alone, or with the error that came when it was asked for.
    ///
    /// # Errors
    ///
    /// If memory runs out.
    fn take(&mut self, name: &str, file_type: io::Result<FileType>) -> Result<(), AllocError>
        ensures { (first : _) (before : List value.Listed) → Took first before self.old
            → OnOk result (Took first (before ++ Ok (typed_as name.now file_type) ∷ []) self.new) }
    {
        match file_type {
            Ok(file_type) => self.take_seen(name, Ok(Seen::TypeAlone(file_type))),
            Err(error) => self.take_seen(name, Err(error)),
        }
    }

    /// Takes an item that could not be read.
    ///
    /// # Errors
    ///
    /// If memory runs out.
    fn take_error(&mut self, error: io::Error) -> Result<(), AllocError>
        ensures { (first : _) (before : List value.Listed) → Took first before self.old
            → OnOk result (Took first (before ++ Err (error_kind error) ∷ []) self.new) };

    /// Takes the bytes of a name that isn't UTF-8: an item that is an error of the kind `InvalidFilename`. The error that a
    /// walk makes of it keeps the bytes. A sink without a body of its own for this takes the error alone.
    ///
    /// # Errors
    ///
    /// If memory runs out.
    fn take_bad_name(&mut self, _name: &[u8]) -> Result<(), AllocError>
        ensures { (first : _) (before : List value.Listed) → Took first before self.old
            → OnOk result (Took first (before ++ Err ErrorKind.InvalidFilename ∷ []) self.new) }
    {
        self.take_error(io::Error::from(ErrorKind::InvalidFilename))
    }
}

/// A sink that keeps the items in a vector, as `read_dir` returns them.
#[derive(Drop)]
pub struct Kept<A: Allocator + Copy = Global> {
    /// The items so far.
    pub items: Vec<io::Result<Listed<A>>, A>,
}

impl<A: Allocator + Copy> Kept<A> {
    ghost use Rattle.std.specs.Prelude.{◌≡◌};

    /// Returns a sink without items.
    pub fn new(alloc: A) -> Self
        ensures { result.items.items ≡ [] }
    {
        Kept {
            items: Vec::new(alloc),
        }
    }
}

impl<A: Allocator + Copy> Sink for Kept<A> {
    ghost use Rattle.std.specs.Prelude.{◌≡◌, map};
    ghost use Rattle.jwalk_fs.specs.Views.{listed};

    ghost Took = { λ first items last. map listed last.items.items ≡ map listed first.items.items ++ items };

    fn take_seen(&mut self, name: &str, seen: io::Result<Seen>) -> Result<(), AllocError> {
        let name = String::from_str(*self.items.allocator(), name)?;
        self.items.push(Ok(Listed { name, seen }))?;
        Ok(())
    }

    fn take_error(&mut self, error: io::Error) -> Result<(), AllocError> {
        self.items.push(Err(error))?;
        Ok(())
    }
}
