//! Entries that are kept if a test of them is true.
ghost use Rattle.std.specs.Prelude.{map};
ghost use Rattle.jwalk_job.specs.Entry.{item};
ghost use Rattle.jwalk_callbacks.specs.FilterEntry.{IsAnswered, IsFilteredBy};

use jwalk_job::client_state::ClientState;
use jwalk_job::item::{Item, List};
use jwalk_job::process_read_dir::ProcessReadDir;
use jwalk_model::file_type::FileType;
use std::alloc::{AllocError, Allocator};

/// A callback that keeps the entries for which a test of their depth, name and type is true, and drops the others with
/// all that is below them.
///
/// ```text
/// let walk = walk.process_read_dir(FilterEntry::new(|_depth, name, file_type| {
///     name != "target" || !file_type.is_dir()
/// }));
/// ```
///
/// The test is called once for each entry of each directory, in order, after hidden names were left out and links were
/// followed. A name is the last part of a path. An entry that doesn't pass isn't yielded, and if it is a directory, it
/// isn't read. Errors stay. The root is yielded and read without a test. (walkdir's `filter_entry` tests the root too,
/// that of the crate `ignore` doesn't.)
///
/// The filter takes no memory and never fails. If the test's results are those of one function of the depth, the name
/// and the type, the walk's lists are those that the function filters.
#[derive(Drop)]
pub struct FilterEntry<F> {
    test: F,
}

impl<F> FilterEntry<F> {
    ghost use Rattle.std.specs.Prelude.{◌≡◌};
    ghost use Rattle.jwalk_callbacks.specs.FilterEntry.{test_of};

    /// Returns the callback that keeps what passes this test. Its user must ensure that the test may be called; a
    /// closure that can't go wrong needs nothing more.
    pub fn new(test: F) -> Self
    where
        F: Fn(usize, &str, FileType) -> bool,
        ensures { test_of result ≡ test }
    {
        FilterEntry { test }
    }
}

/// Returns whether an item is an error, or an entry that passes.
fn passes<C: ClientState, A: Allocator + Copy, F: Fn(usize, &str, FileType) -> bool>(
    test: &F,
    found: &Item<C, A>,
) -> bool
    requires { F.IsAlwaysCallable test.now }
    ensures { IsAnswered (F.post test.now) (item found.now) result }
{
    match found {
        Ok(entry) => test(entry.depth, entry.file_name.as_str(), entry.file_type),
        Err(_) => true,
    }
}

fn keep<C: ClientState, A: Allocator + Copy, F: Fn(usize, &str, FileType) -> bool>(
    test: &F,
    list: &mut List<C, A>,
)
    requires { F.IsAlwaysCallable test.now }
    ensures { IsFilteredBy (F.post test.now) (map item list.old.items) (map item list.new.items) }
{
    list.retain(|found| passes(test, found));
}

impl<
    C: ClientState,
    A: Allocator + Copy,
    F: Fn(usize, &str, FileType) -> bool + Drop,
> ProcessReadDir<C, A> for FilterEntry<F> {
    ghost use Rattle.std.specs.Prelude.{◌≡◌, IsOk};
    ghost use Rattle.jwalk_callbacks.specs.FilterEntry.{FiltersAs, IsLeft, test_of};

    ghost IsLawful = { λ s. F.IsAlwaysCallable (test_of s) };

    ghost Makes = { λ s g. FiltersAs (F.post (test_of s)) g };

    ghost KeepsRoot = { λ _. Unit {0} };

    fn process(
        &self,
        depth: Option<usize>,
        _path: &str,
        _state: &mut C::ReadDirState,
        list: &mut List<C, A>,
    ) -> Result<(), AllocError>
        requires { F.IsAlwaysCallable (test_of self.now) }
        ensures never_refuses { IsOk result }
        ensures state { _state.new ≡ _state.old }
        ensures list { IsLeft (F.post (test_of self.now)) depth (map item list.old.items) (map item list.new.items) }
    {
        if depth.is_some() {
            keep(&self.test, list);
        }
        Ok(())
    }
}
