//! The text that a pattern is compared with.
ghost use Rattle.std.specs.Prelude.{◌≡◌, [], IfOk, OnOk};
ghost use Rattle.jwalk_model.specs.Paths.{join, starts_with_slash};
ghost use Rattle.seek_words.specs.Absolute.{front_before};

use jwalk_fs::path_text::{self, join_parts};
use program_parts::paths::without_here;
use std::alloc::{AllocError, Global};

/// The absolute path of an entry. The paths of many entries use the same memory, one after another.
#[derive(Drop)]
pub struct AbsolutePath {
    /// The folder that relative paths begin at, ended by a slash.
    front: String,
    text: String,
}

fn is_absolute(path: &str) -> bool
    ensures { result ≡ starts_with_slash path.now }
{
    matches!(path.as_bytes(), [b'/', ..])
}

#[tactic(auto, using(crate::proofs::PathFacts::slashes))]
/// Returns `front` for a relative path, and nothing for an absolute one. The path is given by its folder and its name.
fn front_before<'f>(front: &'f str, folder: &str, name: &str) -> &'f str
    ensures { result.now ≡ front_before front.entry.now (join folder.now name.now) }
{
    if is_absolute(folder) || is_absolute(name) {
        ""
    } else {
        front
    }
}

impl AbsolutePath {
    ghost use Rattle.seek_words.specs.Absolute.{absolute_path};
    ghost use Rattle.seek_words.specs.Subject.{front_of, text_of};

    /// Returns an empty path, below a folder with this absolute path.
    ///
    /// # Errors
    ///
    /// If memory runs out.
    pub fn below(alloc: Global, folder: &str) -> Result<Self, AllocError>
        ensures { IfOk result (λ it. front_of it ≡ join folder.now []) }
    {
        Ok(AbsolutePath {
            front: path_text::join(alloc, folder, "")?,
            text: String::new(alloc),
        })
    }

    /// Sets the path to that of a name in a folder.
    ///
    /// # Errors
    ///
    /// If memory runs out.
    pub fn set(&mut self, folder: &str, name: &str) -> Result<(), AllocError>
        ensures path { OnOk result (text_of self.new ≡ absolute_path (front_of self.old) folder.now name.now) }
        ensures front { front_of self.new ≡ front_of self.old }
    {
        let folder = without_here(folder);
        let (path, slash, end) = join_parts(folder, name);
        self.text.clear();
        self.text
            .push_str(front_before(self.front.as_str(), folder, name))?;
        self.text.push_str(path)?;
        self.text.push_str(slash)?;
        self.text.push_str(end)?;
        Ok(())
    }

    /// Returns the path.
    pub fn as_str(&self) -> &str
        ensures { result.now ≡ text_of self.now }
    {
        self.text.as_str()
    }
}
