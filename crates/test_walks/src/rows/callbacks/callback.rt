//! The library's callbacks, each as a table names it.
ghost use Rattle.std.specs.Prelude.{◌<◌, ◌^◌, OnOk, map};
ghost use Rattle.jwalk.specs.jwalk_model.Entry.{AtDepth};
ghost use Rattle.jwalk.specs.jwalk_model.ReadDir.{list_depth};
ghost use Rattle.jwalk.specs.jwalk_job.Entry.{item};

use jwalk::Error;
use jwalk::read_dir::{ByFn, FilterEntry, ProcessReadDir, SkipNames};
use std::alloc::{AllocError, Global};
use test_fixtures::answers::Answer;
use test_fixtures::moving::move_directory;
use test_fixtures::texts::texts;

/// A callback of the library.
#[derive(Clone, Copy)]
pub enum Callback {
    /// `SkipNames` of these names.
    Skips(&'static [&'static str]),
    /// `FilterEntry` with a test.
    Keeps(Kept),
    /// `ByFn` with a closure that makes a change.
    Makes(Change),
}

/// A test of an entry.
#[derive(Clone, Copy)]
pub enum Kept {
    /// It has another name than this.
    NotNamed(&'static str),
    /// It isn't a directory of this name.
    NoDirNamed(&'static str),
    /// It is a file at depth 1, and has another name than this.
    FileAtOneNotNamed(&'static str),
}

/// A closure's change to each list.
#[derive(Clone, Copy)]
pub enum Change {
    /// Takes the directories away from the groups.
    ClearGroups,
    /// Drops the groups.
    DropGroups,
    /// Moves the directory of a group to a file.
    MoveGroup,
    /// Keeps the root alone.
    KeepRoot,
    /// Reverses the list.
    Turn,
    /// Cuts the list after this many items.
    Cut(usize),
    /// Adds an error to the list of a root in `/`. Runs out of memory for any other list.
    NoteRoot,
    /// Runs out of memory for the list of the root, or for the lists of directories at a depth.
    RefuseAt(Option<usize>),
}

fn is_group(found: &Answer) -> bool {
    matches!(found, Ok(entry) if entry.file_name.as_str().starts_with("group"))
}

impl Change {
    /// The depth and the path are those of the list's directory. The root's list has no depth.
    fn make(
        self,
        depth: Option<usize>,
        path: &str,
        list: &mut Vec<Answer>,
    ) -> Result<(), AllocError> {
        match self {
            Change::ClearGroups => {
                for found in list.iter_mut() {
                    if is_group(found)
                        && let Ok(entry) = found
                    {
                        entry.read_children = None;
                    }
                }
            }
            Change::DropGroups => list.retain(|found| !is_group(found)),
            Change::MoveGroup if path == "/t" => move_directory(list, "group 1", "c.txt"),
            Change::KeepRoot if depth.is_some() => list.clear(),
            Change::Turn => list.reverse(),
            Change::Cut(len) => list.truncate(len),
            Change::NoteRoot if depth.is_none() && path == "/" => list.push(Err(Error::busy()))?,
            Change::NoteRoot => return Err(AllocError),
            Change::RefuseAt(at) if depth == at => return Err(AllocError),
            Change::MoveGroup | Change::KeepRoot | Change::RefuseAt(_) => {}
        }
        Ok(())
    }
}

/// Calls a callback with a list. Nothing more is known of it than of every callback.
pub fn called<P: ProcessReadDir<((), ()), Global>>(
    callback: &P,
    depth: Option<usize>,
    path: &str,
    state: &mut (),
    list: &mut Vec<Answer>,
) -> Result<(), AllocError>
    requires lawful { P.IsLawful callback.now }
    requires fits { list_depth depth < 2 ^ 64 }
    requires depths { AtDepth (list_depth depth) (map item list.old.items) }
    ensures { OnOk result (AtDepth (list_depth depth) (map item list.new.items)) }
{
    callback.process(depth, path, state, list)
}

impl ProcessReadDir<((), ()), Global> for Callback {
    ghost IsLawful = { λ _. Unit {0} };

    ghost Makes = { λ _ _. ⊥ };

    fn process(
        &self,
        depth: Option<usize>,
        path: &str,
        state: &mut (),
        list: &mut Vec<Answer>,
    ) -> Result<(), AllocError> {
        match *self {
            Callback::Skips(names) => {
                let names = texts(*list.allocator(), &[], names)?;
                called(&SkipNames::new(names), depth, path, state, list)
            }
            Callback::Keeps(kept) => {
                let filter = FilterEntry::new(|depth, name, file_type| match kept {
                    Kept::NotNamed(other) => name != other,
                    Kept::NoDirNamed(other) => name != other || !file_type.is_dir(),
                    Kept::FileAtOneNotNamed(other) => {
                        depth == 1 && name != other && file_type.is_file()
                    }
                });
                called(&filter, depth, path, state, list)
            }
            Callback::Makes(change) => {
                // The closure has the types of its arguments written out.
                let by = ByFn::new(|depth: Option<
                    usize,
                >, path: &str, _state: &mut (), list: &mut Vec<Answer>| change.make(
                    depth, path, list,
                ));
                called(&by, depth, path, state, list)
            }
        }
    }
}
