//! The entries that are looked for.
ghost use Rattle.std.specs.Prelude.{◌≡◌, IfOk, option_map};
ghost use Rattle.std.specs.Option.{option_copied};
ghost use Rattle.jwalk_model.specs.FileType.{is_dir};
ghost use Rattle.seek_words.specs.Subject.{front_of};
ghost use Rattle.seek_words.specs.Sought.{is_found, is_met, subject, IfEmpties};

use crate::empty::is_empty;
use crate::name_test::NameTest;
use crate::shown::Shown;
use crate::subject::AbsolutePath;
use crate::wanted::Wanted;
use jwalk_fs::file_system::FileSystem;
use std::alloc::{AllocError, Global};

/// The entries that are looked for.
#[derive(Drop)]
pub struct Filter<'w, T: NameTest> {
    /// What is looked for, apart from the pattern.
    pub wanted: Wanted<'w>,
    /// The test of a name.
    pub test: T,
    /// The absolute path of an entry, if the test is of it and not of the name.
    pub path: Option<AbsolutePath>,
    /// Nothing below an entry that passes is looked for.
    pub prunes: bool,
    /// Where memory is from.
    pub alloc: Global,
}

fn passes_test<T: NameTest>(
    test: &mut T,
    path: &mut Option<AbsolutePath>,
    folder: &str,
    name: &str,
    is_dir: bool,
) -> Result<bool, AllocError>
    ensures answer { IfOk result (λ yes. yes ≡ T.takes test.old (subject (option_map front_of path.old) folder.now name.now) is_dir) }
    ensures test { T.takes test.new ≡ T.takes test.old }
    ensures path { option_map front_of path.new ≡ option_map front_of path.old }
{
    match path {
        Some(path) => {
            path.set(folder, name)?;
            test.passes(path.as_str(), is_dir)
        }
        None => test.passes(name, is_dir),
    }
}

impl<'w, T: NameTest> Filter<'w, T> {
    ghost use Rattle.seek_words.specs.Filter.{sought_of};

    fn meets<S: FileSystem>(
        &mut self,
        disk: &S,
        depth: usize,
        shown: Shown<'_>,
    ) -> Result<bool, AllocError>
        ensures answer { IfOk result (λ yes. yes ≡ is_met (sought_of T.takes (S.functions disk.now) self.old) depth
            shown.entry.file_type shown.entry.folder.now shown.entry.name.now (option_copied shown.entry.seen)) }
        ensures same { sought_of T.takes (S.functions disk.now) self.new ≡ sought_of T.takes (S.functions disk.now) self.old }
    {
        let Shown {
            file_type,
            seen,
            folder,
            name,
        } = shown;
        if !self.wanted.has(depth, file_type, name, seen) {
            return Ok(false);
        }
        passes_test(
            &mut self.test,
            &mut self.path,
            folder,
            name,
            file_type.is_dir(),
        )
    }

    /// Returns whether an entry of this depth is looked for. If only empty entries are, the disk is asked about a
    /// directory that passes all else.
    ///
    /// # Errors
    ///
    /// If memory runs out.
    pub fn passes<S: FileSystem>(
        &mut self,
        disk: &S,
        depth: usize,
        shown: Shown<'_>,
    ) -> Result<bool, AllocError>
        ensures answer { IfOk result (λ yes. IfEmpties (S.IsFixed disk.now) (sought_of T.takes (S.functions disk.now) self.old)
            → yes ≡ is_found (sought_of T.takes (S.functions disk.now) self.old) depth
            shown.entry.file_type shown.entry.folder.now shown.entry.name.now (option_copied shown.entry.seen)) }
        ensures same { sought_of T.takes (S.functions disk.now) self.new ≡ sought_of T.takes (S.functions disk.now) self.old }
    {
        if !self.meets(disk, depth, shown)? {
            return Ok(false);
        }
        if !self.wanted.kinds.empty {
            return Ok(true);
        }
        is_empty(self.alloc, disk, shown)
    }
}
