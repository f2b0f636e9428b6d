//! Paths as texts, whose components are between their slashes.
ghost use Rattle.std.specs.Prelude.{◌≡◌, ◌++◌, ◌≤◌, IfOk, length, option_copied, string_bytes};
ghost use Rattle.jwalk_model.specs.Paths.{starts_with_slash, with_slash, join, parent, file_name, same_path, same_place};

use crate::place::Place;
use std::alloc::{AllocError, Allocator};
use std::path::Path;

fn is_absolute(path: &str) -> bool
    ensures { result ≡ starts_with_slash path.now }
{
    matches!(path.as_bytes(), [b'/', ..])
}

#[tactic(auto, using(jwalk_model::proofs::PathJoins::with_slash_kept, jwalk_model::proofs::PathJoins::with_slash_added))]
fn separator(path: &str) -> &'static str
    ensures text { path.now ++ result.now ≡ with_slash path.now }
    ensures short { length result.now ≤ 1 }
{
    match path.as_bytes() {
        [] => "",
        [.., b'/'] => "",
        _ => "/",
    }
}

/// Returns what `join` puts together: `a`, what is put between, and `b`. The first two are empty if `b` starts with
/// `/`. The one between is a slash or empty.
///
/// With these a joined path is written without memory. Of `a` and `b` they are `a`, `/` and `b`. Of `a/` and `b` they
/// are `a/`, an empty text and `b`. Of `a` and `/b` they are two empty texts and `/b`.
pub fn join_parts<'p>(a: &'p str, b: &'p str) -> (&'p str, &'static str, &'p str)
    ensures text { result.0.now ++ (result.1.now ++ result.2.now) ≡ join a.now b.now }
    ensures short { length result.1.now ≤ 1 }
{
    if is_absolute(b) {
        ("", "", b)
    } else {
        (a, separator(a), b)
    }
}

/// Returns the path `b` as seen from `a`, in one string of exactly its length. It is `b` alone if `b` starts with `/`,
/// and else `a` and `b` with one `/` between them. No `/` is added if `a` is empty or ends with one.
///
/// `a` and `b` give `a/b`, as do `a/` and `b`; an empty path and `b` give `b`; `a` and `/b` give `/b`; `a` and an empty
/// path give `a/`. The rule is that of `std::path::Path::join` on Unix.
///
/// # Errors
///
/// If memory runs out.
pub fn join<A: Allocator + Copy>(alloc: A, a: &str, b: &str) -> Result<String<A>, AllocError>
    ensures { IfOk result (λ path. string_bytes path ≡ join a.now b.now) }
{
    let (front, slash, name) = join_parts(a, b);
    let mut path = String::with_capacity(alloc, front.len() + slash.len() + name.len())?;
    path.push_str(front)?;
    path.push_str(slash)?;
    path.push_str(name)?;
    Ok(path)
}

/// Returns the shortest beginning of a path that has all its components but the last, or `None` if the last is the root
/// or there is none.
///
/// Of `a/b/` it is `a`, of `a` the empty path, of `/a` it is `/`, and of `./a` it is `.`; `/` and the empty path have
/// none. Slashes and `.` at its end are left out. The rule is that of `std::path::Path::parent` on Unix.
#[tactic(auto, using(jwalk_model::proofs::PathParents::path_parent_is))]
pub fn parent(path: &str) -> Option<&str>
    ensures { option_copied result ≡ parent path.now }
{
    Path::new(path).parent().map(|above| above.as_str())
}

/// Returns the last component of a path if it is a plain name, and `None` if it is the root, `.` or `..`, or there is
/// none.
///
/// Of `a/b/`, `a/b/.` and `b` it is `b`; of `a/..`, `/` and the empty path there is none. The rule is that of
/// `std::path::Path::file_name` on Unix.
#[tactic(auto, using(jwalk_model::proofs::PathNames::path_file_name_is))]
pub fn file_name(path: &str) -> Option<&str>
    ensures { option_copied result ≡ file_name path.now }
{
    Path::new(path).file_name()
}

/// Returns whether two paths have the same components, in the same order.
///
/// `a//b/` and `a/b` are the same path, and so are `/a/./b` and `/a/b`; `./a` and `a` aren't, nor `a/../b` and `b`, nor
/// the empty path and `.`. The rule is that of `==` on `std::path::Path` on Unix. `same_place` compares paths without
/// their `.` and `..`.
pub fn same_path(a: &str, b: &str) -> bool
    ensures { result ≡ same_path a.now b.now }
{
    Path::new(a).starts_with(b) && Path::new(b).starts_with(a)
}

/// Returns whether two paths name the same place by their texts: whether they have the same components once `.` and
/// `..` are gone. A `..` takes away the name before it, is dropped after the root, and stays where there is no name
/// before it.
///
/// `/r/a/b/c/../..` and `/r/a` are the same place, and so are `/..` and `/`, `./a` and `a`, `a/..` and the empty path;
/// `../a` and `a` aren't. Text alone decides: if `/r/k` is a link to `/s/t`, then `/r/k/..` is `/s` for a file system,
/// and `/r` here.
///
/// # Errors
///
/// If memory runs out. It is needed for the components of `a`.
pub fn same_place<A: Allocator + Copy>(alloc: A, a: &str, b: &str) -> Result<bool, AllocError>
    ensures { IfOk result (λ same. same ≡ same_place a.now b.now) }
{
    Ok(Place::new(alloc, a)?.is_at(b))
}
