//! Which results are written.
ghost use Rattle.std.specs.Prelude.{◌≡◌};
ghost use Rattle.jwalk.specs.jwalk_job.Entry.{entry};
ghost use Rattle.tally_run.specs.Shown.{any_depth, shown_asked, is_shown};

use jwalk::{ClientState, DirEntry};
use std::alloc::Allocator;
use tally_words::asked::Asked;
use tally_words::form::Form;

/// Which results are written.
#[derive(Clone, Copy, Debug, PartialEq, Eq)]
pub(crate) struct Shown {
    /// Those of all entries, and not of directories and roots alone.
    pub(crate) all: bool,
    /// The greatest depth.
    pub(crate) greatest: usize,
}

/// Returns up to which depth results are written where none is named: what is in the roots in a table, and all else.
fn any_depth(form: Form) -> usize
    ensures { result ≡ any_depth form }
{
    match form {
        Form::Table => 1,
        Form::Lines | Form::ZeroLines | Form::Json => usize::MAX,
    }
}

impl Shown {
    pub(crate) fn of(asked: &Asked<'_>) -> Self
        ensures { result ≡ shown_asked asked.now }
    {
        Shown {
            all: asked.all,
            greatest: asked.depth.unwrap_or(any_depth(asked.form)),
        }
    }

    pub(crate) fn has<C: ClientState, A: Allocator + Copy>(self, found: &DirEntry<C, A>) -> bool
        ensures { result ≡ is_shown self (entry found.now) }
    {
        let depth = found.depth();
        depth <= self.greatest && (self.all || depth == 0 || found.file_type().is_dir())
    }
}
