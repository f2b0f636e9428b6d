//! Numbers and texts as states.
ghost use Rattle.jwalk.specs.jwalk_job.Job.{IsSteady};
ghost use Rattle.jwalk_laws.specs.States.{numbers, texts};

use jwalk::file_system::{FileSystem, MemoryFs};
use jwalk::read_dir::{NoProcess, ProcessReadDir};
use std::alloc::Global;

/// A number for each directory, and two for each entry.
pub type Numbers = (usize, (usize, usize));

/// A text, or none, for each directory and each entry.
pub type Texts = (Option<String>, Option<String>);

/// What a promise on values takes as given holds of a walk over a tree in memory whose states are numbers. A clone of a
/// number counts as the number does, and an entry begins with two zeros.
pub fn numbers_are_steady(_fs: &MemoryFs, _process: NoProcess)
    ensures { IsSteady ⟦<MemoryFs as FileSystem>⟧ ⟦<NoProcess as ProcessReadDir<Numbers, Global>>⟧
        ⟦<usize as Clone>⟧ ⟦<(usize, usize) as Default>⟧ _fs.now _process numbers }
{}

/// The same of states that are texts. A clone of a text counts as the text does, and no entry begins with one.
pub fn texts_are_steady(_fs: &MemoryFs, _process: NoProcess)
    ensures { IsSteady ⟦<MemoryFs as FileSystem>⟧ ⟦<NoProcess as ProcessReadDir<Texts, Global>>⟧
        ⟦<Option<String> as Clone>⟧ ⟦<Option<String> as Default>⟧ _fs.now _process texts }
{}
