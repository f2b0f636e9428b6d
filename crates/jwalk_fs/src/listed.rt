//! An item of a listing.
ghost use Rattle.std.specs.Prelude.{◌≡◌, string_bytes};
ghost use Rattle.jwalk_fs.specs.Views.{named, typed_as, by_kind};
ghost use Rattle.jwalk_model.specs.Seen.{type_seen};

use jwalk_model::file_type::FileType;
use jwalk_model::seen::Seen;
use std::alloc::{Allocator, Global};
use std::io;

/// A name in a directory, with what is seen of it or the error met when it was asked for.
#[derive(Drop)]
pub struct Listed<A: Allocator + Copy = Global> {
    /// The name alone, without the directory's path.
    pub name: String<A>,
    /// The type of what is there, or all that is known of it: of a link itself and not of what it leads to; or the error
    /// that came instead.
    pub seen: io::Result<Seen>,
}

impl<A: Allocator + Copy> Listed<A> {
    /// Returns a name with its type alone, or with the error that came when it was asked for.
    pub fn of_type(name: String<A>, file_type: io::Result<FileType>) -> Self
        ensures { named result ≡ typed_as (string_bytes name) file_type }
    {
        match file_type {
            Ok(file_type) => Listed {
                name,
                seen: Ok(Seen::TypeAlone(file_type)),
            },
            Err(error) => Listed {
                name,
                seen: Err(error),
            },
        }
    }
}
