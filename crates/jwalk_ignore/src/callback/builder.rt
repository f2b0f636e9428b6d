//! Walks that honour ignore files.
ghost use Rattle.std.specs.Prelude.{false};
ghost use Rattle.jwalk.specs.jwalk_model.Options.{with_skip_hidden};
ghost use Rattle.jwalk.specs.WalkDir.{options_of, described, with_callback, Sets};

use crate::callback::ignore_files::IgnoreFiles;
use crate::rules::texts::Texts;
use jwalk::file_system::FileSystem;
use jwalk::read_dir::ProcessReadDir;
use jwalk::{ClientState, WalkDirGeneric};
use std::alloc::Allocator;

/// Returns the same walk with this callback, which is also shown hidden names.
pub fn with_hidden_shown<
    C: ClientState,
    S: FileSystem,
    O: ProcessReadDir<C, A>,
    A: Allocator + Copy,
    W: Drop,
    P: ProcessReadDir<C, A>,
>(walk: WalkDirGeneric<C, S, O, A, W>, process: P) -> WalkDirGeneric<C, S, P, A, W>
    ensures { Sets (record (with_callback process (described walk)) {
      options = with_skip_hidden false (options_of walk);
    }) result }
{
    walk.skip_hidden(false).process_read_dir(process)
}

/// Returns the same walk with these rules as its callback, which are also shown hidden names: those that the callback
/// isn't told to keep it drops itself. `WalkDir::at(&rt, root)?.states::<RulesState, ()>()` is a walk with states that fit.
pub fn with_ignore_files<
    C: ClientState,
    S: FileSystem,
    O: ProcessReadDir<C, A>,
    A: Allocator + Copy,
    W: Drop,
    X: Texts,
    P: Drop,
>(
    walk: WalkDirGeneric<C, S, O, A, W>,
    rules: IgnoreFiles<X, P>,
) -> WalkDirGeneric<C, S, IgnoreFiles<X, P>, A, W>
where
    IgnoreFiles<X, P>: ProcessReadDir<C, A>,
    ensures { Sets (record (with_callback rules (described walk)) {
      options = with_skip_hidden false (options_of walk);
    }) result }
{
    with_hidden_shown(walk, rules)
}
