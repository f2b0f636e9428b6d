//! The paths of errors, by which they may be dropped.
ghost use Rattle.std.specs.Prelude.{◌≡◌};
ghost use Rattle.std.specs.Option.{option_copied};
ghost use Rattle.jwalk.specs.jwalk_job.Error.{failure};
ghost use Rattle.jwalk_ignore.specs.Callback.Failed.{behind, failed_path, is_hidden_path};

use crate::pattern::without_first_slash;
use jwalk::{Error, path_text};
use std::alloc::Allocator;

/// Returns what is behind this many bytes of a path, without a slash in front.
pub(crate) fn behind(path: &[u8], len: usize) -> &[u8]
    ensures { result.now ≡ behind len path.now }
{
    if len <= path.len() {
        without_first_slash(&path[len..])
    } else {
        &[]
    }
}

/// Returns the path of an error, if it has one and what is there isn't known: a link that leads back is known to lead to
/// a directory.
pub(crate) fn failed_path<A: Allocator + Copy>(error: &Error<A>) -> Option<&str>
    ensures { option_copied result ≡ failed_path (failure error.now) }
{
    match error.loop_ancestor() {
        Some(_) => None,
        None => error.path(),
    }
}

/// Returns whether the last part of a path is a hidden name.
pub(crate) fn is_hidden_path(path: &str) -> bool
    ensures { result ≡ is_hidden_path path.now }
{
    match path_text::file_name(path) {
        Some(name) => matches!(name.as_bytes(), [b'.', ..]),
        None => false,
    }
}
