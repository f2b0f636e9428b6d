//! Walks whose directories have rules and states of another callback.
ghost use Rattle.jwalk.specs.jwalk_job.Job.{IsSteady};
ghost use Rattle.jwalk_ignore.specs.Callback.IgnoreViews.{settings_of};
ghost use Rattle.jwalk_ignore.specs.Callback.IgnoreViews.{texts_of as asked_of};
ghost use Rattle.jwalk_ignore.specs.Rules.MemoryTexts.{texts_of};
ghost use Rattle.jwalk_ignore_laws.specs.States.{rules_and_marks};

use jwalk::file_system::{FileSystem, MemoryFs};
use jwalk::read_dir::ProcessReadDir;
use jwalk_ignore::chain::Chain;
use jwalk_ignore::ignore_files::IgnoreFiles;
use jwalk_ignore::memory_texts::MemoryTexts;
use std::alloc::Global;

/// The rules in force in a directory and a mark beside them, and a mark of each entry.
pub type Marks = ((Chain<Global>, bool), bool);

/// What a promise on values takes as given holds of a walk over a tree and texts in memory with such states.
pub fn marks_are_steady(_fs: &MemoryFs, _rules: &IgnoreFiles<MemoryTexts>)
    ensures { IsSteady ⟦<MemoryFs as FileSystem>⟧ ⟦<IgnoreFiles<MemoryTexts> as ProcessReadDir<Marks, Global>>⟧
        ⟦<(Chain<Global>, bool) as Clone>⟧ ⟦<bool as Default>⟧ _fs.now _rules.now
        (rules_and_marks (settings_of _rules.now) (texts_of (asked_of _rules.now))) }
{}
