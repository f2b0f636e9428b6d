//! Writing a file whole.

use std::alloc::{AllocError, Global};
use std::fs::{self, File, OpenFile};
use std::io::{self, ErrorKind, Write};
use std::rt::Files;

/// What follows the name of a file in the name under which its text is written first; a number follows it.
pub const TEMPORARY: &str = ".new-";

fn temporary(alloc: Global, path: &str, number: u32) -> Result<String, AllocError> {
    format!(in alloc; "{path}{TEMPORARY}{number}")
}

/// Creates a file beside `path`, under the first such name that no file has.
fn create_beside<R: Files>(rt: &R, alloc: Global, path: &str) -> io::Result<(R::File, String)> {
    for number in 0..u32::MAX {
        let name = temporary(alloc, path, number)?;
        match File::create_new(rt, name.as_str()) {
            Ok(file) => return Ok((file, name)),
            Err(error) if error.kind() == ErrorKind::AlreadyExists => {}
            Err(error) => return Err(error),
        }
    }
    Err(io::Error::from(ErrorKind::AlreadyExists))
}

fn write_synced<F: Write + OpenFile + Drop>(mut file: F, text: &[u8]) -> io::Result<()> {
    file.write_all(text)?;
    file.sync_all()
}

/// Writes a file whole: its text goes to a new file beside it, which is synced and then renamed.
///
/// Whoever reads the file meanwhile reads the old one or the new one, and never waits. A crash leaves one of the two,
/// and maybe the file beside it, whose name is that of the file, [`TEMPORARY`] and a number. Of two writers at once the
/// last to rename wins. A link at `path` is replaced, and what it leads to stays.
///
/// # Errors
///
/// The error of the first call that fails. The file at `path` is then as it was, and the one beside it is removed.
pub fn replace<R: Files>(rt: &R, alloc: Global, path: &str, text: &[u8]) -> io::Result<()> {
    let (file, name) = create_beside(rt, alloc, path)?;
    let renamed = match write_synced(file, text) {
        Ok(()) => fs::rename(rt, name.as_str(), path),
        Err(error) => Err(error),
    };
    if renamed.is_err() {
        let _ = fs::remove_file(rt, name.as_str());
    }
    renamed
}
