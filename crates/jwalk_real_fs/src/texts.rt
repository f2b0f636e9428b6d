//! The texts of a directory that is read: its path, and the names in it.
ghost use Rattle.std.specs.Prelude.{◌≡◌, IfOk, string_bytes, position};
ghost use Rattle.std.specs.List.{before_first, after_first};
ghost use Rattle.jwalk_real_fs.specs.Texts as texts;
ghost use Rattle.jwalk_real_fs.specs.Texts.{is_nul};

use std::alloc::{AllocError, Allocator};

/// Returns the path of a directory, ended by a slash: then a link at that path is followed.
pub fn slash_ended<A: Allocator + Copy>(alloc: A, path: &str) -> Result<String<A>, AllocError>
    ensures { IfOk result (λ dir. string_bytes dir ≡ texts.slash_ended path.now) }
{
    let mut dir = String::from_str(alloc, path)?;
    if !path.is_empty() && !path.as_bytes().ends_with(b"/") {
        dir.push('/')?;
    }
    Ok(dir)
}

/// Returns whether a name is that of a child: it isn't empty, and neither `.` nor `..`.
pub fn is_child(name: &[u8]) -> bool
    ensures { result ≡ texts.is_child name.now }
{
    !matches!(name, [] | [b'.'] | [b'.', b'.'])
}

fn name_end(names: &[u8]) -> Option<usize>
    ensures { result ≡ position is_nul names.now }
{
    names.iter().position(|byte| *byte == 0)
}

/// Returns the first of names that were read together, each ended by a NUL, and the others.
pub fn split_name(names: &[u8]) -> (&[u8], &[u8])
    ensures name { result.0.now ≡ before_first is_nul names.now }
    ensures rest { result.1.now ≡ after_first is_nul names.now }
{
    match name_end(names) {
        Some(end) => (&names[..end], &names[end + 1..]),
        None => (names, &[]),
    }
}
