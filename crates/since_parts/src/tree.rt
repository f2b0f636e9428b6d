//! Which tree is compared, and what of it is left out.
ghost use Rattle.std.specs.Prelude.{◌≡◌, ◌++◌, Ok, [], option_map, option_copied, string_bytes, IfOk};
ghost use Rattle.jwalk_model.specs.Paths.{join};
ghost use Rattle.since_parts.specs.Tree.{behind, folder_in, front_of, holds, is_temporary, is_own, own_below, own_texts, strip, IsOwnOf, IsTree};

use crate::choice::Choice;
use crate::failure::Failure;
use jwalk_fs::fault::Fault;
use jwalk_fs::path_text::{file_name, join, parent};
use jwalk_ignore_rules::texts::Texts;
use jwalk_model::metadata::Moment;
use jwalk_snapshot::file::TEMPORARY;
use program_parts::halt::Halt;
use std::alloc::{AllocError, Global};

/// A tree that is compared with a snapshot.
#[derive(Drop)]
pub struct Tree {
    /// The root, as walks have it.
    pub root: String,
    /// The same, made absolute.
    pub absolute: String,
    /// What of it is compared.
    pub choice: Choice,
    /// A time before that of the walk.
    pub start: Moment,
    // The root with a slash behind it.
    front: String,
    // The path of the file with the snapshot behind the root, if it lies below that.
    own: Option<String>,
}

fn absolute<X: Texts>(alloc: Global, texts: &X, path: &str) -> Result<String, Failure>
    ensures { X.IsFixed texts.now → IfOk result (λ it. (X.functions texts.now).absolute_of path.now ≡ Ok (string_bytes it)) }
{
    match texts.absolute(alloc, path) {
        Ok(absolute) => Ok(absolute),
        Err(Fault::Memory) => Err(Failure::Halt(Halt::Memory)),
        Err(Fault::Io(error)) => Err(Failure::at(alloc, path, &error)),
    }
}

/// Returns the folder that a path lies in.
fn folder_in(path: &str) -> &str
    ensures { result.now ≡ folder_in path.now }
{
    match parent(path) {
        Some("") | None => ".",
        Some(folder) => folder,
    }
}

/// Returns what is behind the front, if the path begins with it.
pub(crate) fn strip<'p>(front: &str, path: &'p str) -> Option<&'p str>
    ensures { option_copied result ≡ strip front.now path.now }
{
    path.strip_prefix(front)
}

/// Returns what is behind the front of a path, and the whole path if that begins otherwise.
fn behind<'p>(front: &str, path: &'p str) -> &'p str
    ensures { result.now ≡ behind front.now path.now }
{
    match strip(front, path) {
        Some(rest) => rest,
        None => path,
    }
}

/// Returns the path of a name in a folder behind a root, if it lies below that.
fn own_below(
    alloc: Global,
    folder: &str,
    name: &str,
    absolute: &str,
) -> Result<Option<String>, AllocError>
    ensures { IfOk result (λ own. own_texts own ≡ own_below folder.now name.now absolute.now) }
{
    let path = join(alloc, folder, name)?;
    let front = join(alloc, absolute, "")?;
    match strip(front.as_str(), path.as_str()) {
        Some(rest) => Ok(Some(String::from_str(alloc, rest)?)),
        None => Ok(None),
    }
}

/// Returns the path of a file behind a root, if it lies below that.
fn own_of<X: Texts>(
    alloc: Global,
    texts: &X,
    file: &str,
    root: &str,
) -> Result<Option<String>, Failure>
    ensures { X.IsFixed texts.now → IfOk result (λ own. IsOwnOf (X.functions texts.now) file.now root.now (own_texts own)) }
{
    match file_name(file) {
        Some(name) => {
            let folder = absolute(alloc, texts, folder_in(file))?;
            let own = own_below(alloc, folder.as_str(), name, root)?;
            Ok(own)
        }
        None => Ok(None),
    }
}

/// Returns whether this follows the name of a file in that file's name, or in a temporary one of it.
fn is_temporary(rest: &str) -> bool
    ensures { result ≡ is_temporary rest.now }
{
    rest.is_empty() || rest.as_bytes().starts_with(TEMPORARY.as_bytes())
}

/// Returns whether a path is that of a file, or of its temporary names.
fn is_own(own: &str, path: &str) -> bool
    ensures { result ≡ is_own own.now path.now }
{
    match strip(own, path) {
        Some(rest) => is_temporary(rest),
        None => false,
    }
}

/// Returns whether a file lies in the directory with this path.
fn holds(own: &str, path: &str) -> bool
    ensures { result ≡ holds own.now path.now }
{
    parent(own) == Some(path)
}

impl Tree {
    ghost use Rattle.since_parts.specs.Tree.{counts, front_in, keeps_all, own_in};

    /// Returns what is chosen of the tree below a root, of which a file and its temporary names are left out. The walk
    /// begins after `start`.
    pub fn new<X: Texts>(
        alloc: Global,
        texts: &X,
        file: &str,
        root: &str,
        choice: Choice,
        start: Moment,
    ) -> Result<Self, Failure>
        ensures choice { IfOk result (λ tree. tree.choice ≡ choice) }
        ensures start { IfOk result (λ tree. tree.start ≡ start) }
        ensures root { IfOk result (λ tree. string_bytes tree.root ≡ root.now) }
        ensures front { IfOk result (λ tree. front_in tree ≡ front_of root.now) }
        ensures own { X.IsFixed texts.now → IfOk result (IsTree (X.functions texts.now) file.now root.now) }
    {
        let absolute = absolute(alloc, texts, root)?;
        let own = own_of(alloc, texts, file, absolute.as_str())?;
        Ok(Tree {
            root: String::from_str(alloc, root)?,
            front: join(alloc, root, "")?,
            absolute,
            choice,
            start,
            own,
        })
    }

    /// Returns what is behind the root in a path.
    pub fn behind<'p>(&self, path: &'p str) -> &'p str
        ensures { result.now ≡ behind (front_in self.now) path.now }
    {
        behind(&self.front, path)
    }

    /// Returns whether a path behind the root isn't that of the file with the snapshot.
    pub fn counts(&self, path: &str) -> bool
        ensures { result ≡ counts (own_in self.now) path.now }
    {
        match &self.own {
            Some(own) => !is_own(own, path),
            None => true,
        }
    }

    /// Returns whether no name is left out of the directory with this path behind the root.
    pub fn keeps_all(&self, path: &str) -> bool
        ensures { result ≡ keeps_all self.now path.now }
    {
        if !self.choice.keeps_names() {
            return false;
        }
        match &self.own {
            Some(own) => !holds(own, path),
            None => true,
        }
    }
}
