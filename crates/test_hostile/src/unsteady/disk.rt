//! A file system whose answers are drawn anew at each call.
ghost use Rattle.jwalk.specs.jwalk_model.Tree.{functions_of, only_root};

use jwalk::file_system::{Fault, FileSystem, FileType, Listed, Metadata};
use jwalk::path_text::parent;
use std::alloc::{AllocError, Allocator};
use std::io;
use std::io::ErrorKind;
use std::sync::atomic::{AtomicUsize, Ordering};
use test_fixtures::dice::Dice;

/// The file system of a seed.
#[derive(Drop)]
pub struct Unsteady {
    seed: usize,
    /// Whether memory runs out now and then.
    runs_out: bool,
    calls: AtomicUsize,
    /// How often a listing was asked for.
    pub lists: AtomicUsize,
}

/// Names of every form. Some aren't names of files.
const NAMES: &[&str] = &[
    "a",
    "b",
    "c",
    "d",
    "A",
    "a b",
    ".h",
    ".",
    "..",
    "",
    "/",
    "/x",
    "a/b",
    "a//",
    "../a",
    "é",
    "\n",
    "a name that is as long as names of files seldom are, and that has some commas, too",
];

const KINDS: &[ErrorKind] = &[
    ErrorKind::NotFound,
    ErrorKind::PermissionDenied,
    ErrorKind::AlreadyExists,
    ErrorKind::NotADirectory,
    ErrorKind::InvalidInput,
    ErrorKind::InvalidData,
    ErrorKind::Interrupted,
    ErrorKind::Unsupported,
    ErrorKind::UnexpectedEof,
    ErrorKind::OutOfMemory,
    ErrorKind::Other,
];

fn name(dice: &mut Dice) -> &'static str {
    match NAMES.get(dice.below(NAMES.len())) {
        Some(name) => *name,
        None => "",
    }
}

fn error(dice: &mut Dice) -> io::Error {
    match KINDS.get(dice.below(KINDS.len())) {
        Some(kind) => io::Error::from(*kind),
        None => io::Error::from(ErrorKind::Other),
    }
}

/// Most often a directory.
fn file_type(dice: &mut Dice) -> FileType {
    match dice.below(8) {
        0..=3 => FileType::Dir,
        4 | 5 => FileType::Symlink,
        6 => FileType::File,
        _ => FileType::Other,
    }
}

/// Most often the path of a directory above.
fn target<'p>(dice: &mut Dice, path: &'p str) -> &'p str {
    match dice.below(8) {
        0 => "..",
        1 => ".",
        2 => "/",
        3 => name(dice),
        _ => {
            let mut above = path;
            for _ in 0..dice.below(4) {
                above = parent(above).unwrap_or(above);
            }
            above
        }
    }
}

fn item<A: Allocator + Copy>(
    alloc: A,
    dice: &mut Dice,
) -> Result<io::Result<Listed<A>>, AllocError> {
    if dice.below(12) == 0 {
        return Ok(Err(error(dice)));
    }
    let file_type = if dice.below(10) == 0 {
        Err(error(dice))
    } else {
        Ok(file_type(dice))
    };
    let name = String::from_str(alloc, name(dice))?;
    Ok(Ok(Listed::of_type(name, file_type)))
}

impl Unsteady {
    /// Returns the file system of a seed. With `runs_out`, memory runs out now and then.
    pub fn new(seed: usize, runs_out: bool) -> Self {
        Unsteady {
            seed,
            runs_out,
            calls: AtomicUsize::new(0),
            lists: AtomicUsize::new(0),
        }
    }

    /// Returns the dice of the next call. Some calls fail.
    fn call(&self) -> Result<Dice, Fault> {
        let number = self.calls.fetch_add(1, Ordering::SeqCst);
        let seed = self.seed.wrapping_mul(1_000_003).wrapping_add(number);
        let mut dice = Dice::new(seed);
        if self.runs_out && dice.below(60) == 0 {
            return Err(Fault::Memory);
        }
        if dice.below(9) == 0 {
            return Err(Fault::Io(error(&mut dice)));
        }
        Ok(dice)
    }
}

impl FileSystem for Unsteady {
    ghost IsFixed = { λ _. ⊥ };

    ghost functions = { λ _. functions_of only_root };

    /// Draws up to six items.
    fn read_dir<A: Allocator + Copy>(
        &self,
        alloc: A,
        _path: &str,
    ) -> Result<Vec<io::Result<Listed<A>>, A>, Fault> {
        self.lists.fetch_add(1, Ordering::SeqCst);
        let mut dice = self.call()?;
        let mut items = Vec::new(alloc);
        for _ in 0..dice.below(7) {
            items.push(item(alloc, &mut dice)?)?;
        }
        Ok(items)
    }

    fn metadata(&self, path: &str) -> Result<Metadata, Fault> {
        self.symlink_metadata(path)
    }

    fn symlink_metadata(&self, _path: &str) -> Result<Metadata, Fault> {
        let mut dice = self.call()?;
        Ok(Metadata::new(file_type(&mut dice), 1))
    }

    fn read_link<A: Allocator + Copy>(&self, alloc: A, path: &str) -> Result<String<A>, Fault> {
        let mut dice = self.call()?;
        Ok(String::from_str(alloc, target(&mut dice, path))?)
    }
}
