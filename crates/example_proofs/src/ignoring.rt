//! A walk that honours ignore files.
ghost use Rattle.std.specs.Prelude.{◌≡◌, false, IfOk};
ghost use Rattle.jwalk.specs.jwalk_model.Options.{with_skip_hidden};
ghost use Rattle.jwalk.specs.jwalk_model.Walk.{whole_walk};
ghost use Rattle.jwalk.specs.jwalk_job.Given.{counted_list};
ghost use Rattle.jwalk.specs.WalkDir.{file_system_of, options_of, root_of, state_of};
ghost use Rattle.jwalk.specs.DirEntryIter.{NoneRefused};
ghost use Rattle.jwalk_ignore.specs.Callback.Given.{ignoring_alone, job_ignoring, rules_alone};
ghost use Rattle.jwalk_ignore.specs.Callback.IgnoreViews.{settings_of, texts_of};
ghost use Rattle.jwalk_ignore.specs.Callback.States.{rules_held};

use jwalk::error::Result as Answer;
use jwalk::file_system::FileSystem;
use jwalk::read_dir::NoProcess;
use jwalk::{DirEntry, WalkDirGeneric};
use jwalk_ignore::builder::with_ignore_files;
use jwalk_ignore::ignore_files::IgnoreFiles;
use jwalk_ignore::states::OnlyRules;
use jwalk_ignore::texts::Texts;
use std::alloc::{AllocError, Global};

/// Returns all that a walk yields which honours these rules, with the rules in force as the states of its directories.
/// It is the whole walk of the definition, whose lists lose what is ignored and get the errors of rules that can't be
/// read, unless one of the answers reports that memory ran out. This holds over a file system and texts that always
/// answer the same, as a `MemoryFs` and `MemoryTexts`.
///
/// # Errors
///
/// If memory runs out for the list.
pub fn walk_ignoring<S: FileSystem, X: Texts>(
    alloc: Global,
    walk: WalkDirGeneric<OnlyRules, S, NoProcess>,
    rules: IgnoreFiles<X>,
) -> Result<Vec<Answer<DirEntry<OnlyRules>>>, AllocError>
    ensures { IfOk result (λ found. S.IsFixed (file_system_of walk) → X.IsFixed (texts_of rules)
        → NoneRefused found.items
        → counted_list (ignoring_alone rules_held (settings_of rules) (X.functions (texts_of rules))) found.items
        ≡ whole_walk (job_ignoring (settings_of rules) (X.functions (texts_of rules))
        (S.functions (file_system_of walk)) (with_skip_hidden false (options_of walk)))
        (root_of walk) (rules_alone rules_held (state_of walk))) }
{
    let mut found = Vec::new(alloc);
    with_ignore_files(walk, rules)
        .into_iter()
        .fill(usize::MAX, &mut found)?;
    Ok(found)
}
