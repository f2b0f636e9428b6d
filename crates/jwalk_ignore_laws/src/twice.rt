//! Walks that honour ignore files, from a root and from a directory below it. They yield the same below that directory.
ghost use Rattle.std.specs.Prelude.{◌≡◌, IfOk, string_bytes};
ghost use Rattle.jwalk_model.specs.Tree.{functions_of};
ghost use Rattle.jwalk.specs.jwalk_memory_fs.MemoryFs.{tree_of};
ghost use Rattle.jwalk.specs.jwalk_job.Given.{counted_list};
ghost use Rattle.jwalk.specs.DirEntryIter.{NoneRefused};
ghost use Rattle.jwalk_ignore.specs.Callback.Given.{first_settings, ignoring_alone};
ghost use Rattle.jwalk_ignore.specs.Callback.States.{rules_held};
ghost use Rattle.jwalk_ignore.specs.Rules.MemoryTexts.{texts_of};
ghost use Rattle.jwalk_ignore_laws.specs.Twice.{SameBelow, first_options};
ghost use Rattle.jwalk_ignore_laws.specs.Walks.{AreStarts, walk_ignoring};

use jwalk::error::Result as Answer;
use jwalk::file_system::MemoryFs;
use jwalk::{DirEntry, WalkDirGeneric};
use jwalk_ignore::builder::with_ignore_files;
use jwalk_ignore::ignore_files::IgnoreFiles;
use jwalk_ignore::memory_texts::MemoryTexts;
use jwalk_ignore::states::OnlyRules;
use std::alloc::{AllocError, Global};

/// What a walk yields that honours ignore files.
type Found = Answer<DirEntry<OnlyRules>>;

fn walk_tree(
    alloc: Global,
    fs: &MemoryFs,
    texts: &MemoryTexts,
    root: String,
) -> Result<Vec<Found>, AllocError>
    ensures { IfOk result (λ found. NoneRefused found.items
        → counted_list (ignoring_alone rules_held first_settings (texts_of texts.now)) found.items
        ≡ walk_ignoring first_settings (texts_of texts.now) (functions_of (tree_of fs.now)) first_options
        (string_bytes root)) }
{
    let walk = WalkDirGeneric::<OnlyRules, _, _, _>::new(fs, root);
    let mut found = Vec::new(alloc);
    with_ignore_files(walk, IgnoreFiles::new(texts))
        .into_iter()
        .fill(usize::MAX, &mut found)?;
    Ok(found)
}

/// Returns all that two walks yield that honour ignore files, over one tree and texts in memory: one from a root, and
/// one from a directory. If they agree and both paths are absolute, the walk from the root yields below the directory
/// what the other yields below its root, at greater depths, unless one of them reports that memory ran out.
///
/// # Errors
///
/// If memory runs out for a list.
pub fn walk_twice(
    alloc: Global,
    fs: &MemoryFs,
    texts: &MemoryTexts,
    root: String,
    directory: String,
) -> Result<(Vec<Found>, Vec<Found>), AllocError>
    ensures { IfOk result (λ both. NoneRefused both.0.items → NoneRefused both.1.items
        → AreStarts first_settings (texts_of texts.now) (functions_of (tree_of fs.now)) first_options (string_bytes root)
        (string_bytes directory) → SameBelow (string_bytes directory)
        (counted_list (ignoring_alone rules_held first_settings (texts_of texts.now)) both.0.items)
        (counted_list (ignoring_alone rules_held first_settings (texts_of texts.now)) both.1.items)) }
{
    let above = walk_tree(alloc, fs, texts, root)?;
    let below = walk_tree(alloc, fs, texts, directory)?;
    Ok((above, below))
}
