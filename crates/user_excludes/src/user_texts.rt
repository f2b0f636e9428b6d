//! Texts in which repositories have the user's excludes.
ghost use Rattle.std.specs.Prelude.{◌≡◌, ℕ, List, Result, option_map};
ghost use Rattle.jwalk_fs.specs.Views.{AnswersValue, FailsAs};
ghost use Rattle.jwalk_ignore_rules.specs.Rules.WithExcludes.{is_exclude};
ghost use Rattle.jwalk_ignore_rules.specs.Rules.Texts.{Texts as Functions};
ghost use Rattle.user_excludes.specs.Named.{Failure};
ghost use Rattle.user_excludes.specs.NamedViews.{FailsWith};
ghost use Rattle.user_excludes.specs.UserTexts.{bytes_behind, git_of};

use crate::excludes::user_excludes;
use crate::home::OwnHome;
use crate::repository::{config_path, folder_of};
use crate::unread::Unread;
use jwalk_fs::fault::Fault;
use jwalk_ignore_rules::texts::Texts;
use jwalk_ignore_rules::with_excludes::WithExcludes;
use jwalk_model::file_type::FileType;
use std::alloc::{Allocator, Global};
use std::io;

/// Texts in which each `.git/info/exclude` begins with the user's excludes. They are read where such a file is, so only
/// in a repository, whose own configuration may name others. If they can't be, that file can't be read.
#[derive(Drop)]
pub struct UserTexts<T: Texts> {
    texts: T,
    alloc: Global,
    /// Where the user's own files are, if their excludes count.
    home: Option<OwnHome>,
}

fn is_exclude(path: &str) -> bool
    ensures { result ≡ is_exclude path.now }
{
    path.as_bytes().ends_with(b"/.git/info/exclude")
}

/// Returns the `.git` that has a file of excludes.
fn git_of(path: &str) -> &str
    ensures { result.now ≡ git_of path.now }
{
    folder_of(folder_of(path))
}

fn fault_of(alloc: Global, unread: Unread) -> Fault
    ensures { (is : Result (List ℕ) Failure) → (texts : Functions) → (path : List ℕ) → FailsWith unread is → FailsAs result (bytes_behind is texts path) }
{
    let words = match &unread {
        Unread::Memory => return Fault::Memory,
        _ => format!(in alloc; "{unread}"),
    };
    match words {
        Ok(words) => Fault::Io(io::Error::other(words.as_str())),
        Err(_) => Fault::Memory,
    }
}

impl<T: Texts> UserTexts<T> {
    ghost use Rattle.user_excludes.specs.UserTexts.{excludes_at, home_of, texts_behind};
    ghost use Rattle.user_excludes.specs.OwnHome.{own_home_value};
    ghost use Rattle.user_excludes.specs.NamedViews.{Tells};

    /// Returns texts with the excludes of the user whose files are there, if there is one. Without a user they are those
    /// behind.
    pub fn new(alloc: Global, texts: T, home: Option<OwnHome>) -> Self
        ensures texts { texts_behind result ≡ texts }
        ensures home { home_of result ≡ option_map own_home_value home }
    {
        UserTexts { texts, alloc, home }
    }

    /// Returns the user's excludes in the repository that has this file of excludes.
    fn excludes_at(&self, home: &OwnHome, path: &str) -> Result<Vec<u8>, Unread>
        ensures { T.IsFixed (texts_behind self.now) → Tells (λ bytes. bytes.items)
            (excludes_at (own_home_value home.now) (T.functions (texts_behind self.now)) path.now) result }
    {
        let config = config_path(&self.texts, self.alloc, git_of(path))?;
        user_excludes(&self.texts, self.alloc, home.lent(), &Some(config))
    }

    /// Returns the bytes of a file of excludes, behind the user's.
    fn read_exclude<A: Allocator + Copy>(
        &self,
        alloc: A,
        home: &OwnHome,
        path: &str,
    ) -> Result<Vec<u8, A>, Fault>
        ensures { T.IsFixed (texts_behind self.now) → AnswersValue (λ bytes. bytes.items) result
            (bytes_behind (excludes_at (own_home_value home.now) (T.functions (texts_behind self.now)) path.now) (T.functions (texts_behind self.now)) path.now) }
    {
        match self.excludes_at(home, path) {
            Ok(mut lines) => {
                lines.push(b'\n')?;
                WithExcludes::new(&self.texts, lines).read(alloc, path)
            }
            Err(unread) => Err(fault_of(self.alloc, unread)),
        }
    }
}

impl<T: Texts> Texts for UserTexts<T> {
    ghost use Rattle.user_excludes.specs.UserTexts.{home_of, texts_behind, with_user};

    ghost IsFixed = { λ it. T.IsFixed (texts_behind it) };

    ghost functions = { λ it. with_user (home_of it) (T.functions (texts_behind it)) };

    fn read<A: Allocator + Copy>(&self, alloc: A, path: &str) -> Result<Vec<u8, A>, Fault> {
        match &self.home {
            Some(home) if is_exclude(path) => self.read_exclude(alloc, home, path),
            _ => self.texts.read(alloc, path),
        }
    }

    fn file_type(&self, path: &str) -> Result<FileType, Fault> {
        self.texts.file_type(path)
    }

    fn target_type(&self, path: &str) -> Result<FileType, Fault> {
        if self.home.is_none() || !is_exclude(path) {
            return self.texts.target_type(path);
        }
        let mut line = Vec::new(self.alloc);
        line.push(b'\n')?;
        WithExcludes::new(&self.texts, line).target_type(path)
    }

    fn absolute<A: Allocator + Copy>(&self, alloc: A, path: &str) -> Result<String<A>, Fault> {
        self.texts.absolute(alloc, path)
    }
}
