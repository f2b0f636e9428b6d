//! Empty entries.
ghost use Rattle.std.specs.Prelude.{◌≡◌, IfOk};
ghost use Rattle.std.specs.Option.{option_copied};
ghost use Rattle.jwalk_model.specs.Paths.{join};
ghost use Rattle.seek_words.specs.Empty.{bare_in, has_no_bytes, is_empty};

use crate::shown::Shown;
use jwalk_fs::fault::Fault;
use jwalk_fs::file_system::FileSystem;
use jwalk_fs::path_text::join;
use jwalk_fs::sink::Sink;
use jwalk_model::file_type::FileType;
use jwalk_model::metadata::Metadata;
use jwalk_model::seen::Seen;
use std::alloc::{AllocError, Global};
use std::io;

/// Notes whether a listing has items.
#[derive(Drop)]
struct Noted {
    has_items: bool,
}

impl Sink for Noted {
    ghost use Rattle.std.specs.Prelude.{◌==◌, ◌||◌, length, not};

    ghost Took = { λ first items last. last.has_items ≡ (first.has_items || not (length items == 0)) };

    fn take_seen(&mut self, _name: &str, _seen: io::Result<Seen>) -> Result<(), AllocError> {
        self.has_items = true;
        Ok(())
    }

    fn take_error(&mut self, _error: io::Error) -> Result<(), AllocError> {
        self.has_items = true;
        Ok(())
    }
}

/// Returns whether a directory has no entries. Of one that can't be read this isn't known.
fn is_bare<S: FileSystem>(alloc: Global, disk: &S, path: &str) -> Result<bool, AllocError>
    ensures { IfOk result (λ yes. S.IsFixed disk.now → yes ≡ bare_in (S.functions disk.now) path.now) }
{
    let mut noted = Noted { has_items: false };
    match disk.read_dir_into(alloc, path, &mut noted) {
        Ok(()) => Ok(!noted.has_items),
        Err(Fault::Io(_)) => Ok(false),
        Err(Fault::Memory) => Err(AllocError),
    }
}

fn has_no_bytes(seen: Option<&Metadata>) -> bool
    ensures { result ≡ has_no_bytes (option_copied seen.entry) }
{
    match seen {
        Some(metadata) => metadata.len() == 0,
        None => false,
    }
}

/// Returns whether an entry is a file without bytes or a directory without entries. The disk is asked only about a
/// directory.
pub(crate) fn is_empty<S: FileSystem>(
    alloc: Global,
    disk: &S,
    shown: Shown<'_>,
) -> Result<bool, AllocError>
    ensures { IfOk result (λ yes. S.IsFixed disk.now → yes ≡ is_empty shown.entry.file_type
        (option_copied shown.entry.seen) (bare_in (S.functions disk.now) (join shown.entry.folder.now shown.entry.name.now))) }
{
    match shown.file_type {
        FileType::File => Ok(has_no_bytes(shown.seen)),
        FileType::Dir => {
            let path = join(alloc, shown.folder, shown.name)?;
            is_bare(alloc, disk, path.as_str())
        }
        FileType::Symlink | FileType::Other => Ok(false),
    }
}
