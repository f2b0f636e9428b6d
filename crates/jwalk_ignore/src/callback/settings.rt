//! What may be set of ignore files.
ghost use Rattle.std.specs.Prelude.{◌≡◌};
ghost use Rattle.jwalk_ignore.specs.Callback.IgnoreFiles.{goes_on};

use crate::rules::Rules;
use crate::rules::folder::Folder;
use crate::rules::git::is_repository;
use crate::rules::rules_kind::RulesKind;
use jwalk::file_system::FileType;

/// How rules are used.
#[derive(Drop)]
pub(crate) struct Settings {
    /// Hidden names stay.
    pub(crate) keeps_hidden: bool,
    /// `.gitignore` counts outside repositories too.
    pub(crate) anywhere: bool,
    /// `.gitignore` and `.git/info/exclude` count.
    pub(crate) version_control: bool,
    /// Files of rules in folders above the root count.
    pub(crate) above_the_root: bool,
    /// `.fdignore` counts.
    pub(crate) fdignore: bool,
    /// Errors of names that are dropped, whatever has the name, are dropped too.
    pub(crate) drops_errors: bool,
    /// The rules that decide where those in force say nothing, if there are some.
    pub(crate) given: Option<Rules>,
}

/// Returns whether rules of a kind go on in a repository inside another.
fn goes_on(kind: RulesKind) -> bool
    ensures { result ≡ goes_on kind }
{
    match kind {
        RulesKind::Fdignore | RulesKind::Ignore => true,
        RulesKind::Gitignore | RulesKind::Exclude => false,
    }
}

impl Settings {
    ghost use Rattle.jwalk_ignore.specs.Rules.Folder.{folder_value};
    ghost use Rattle.jwalk_ignore.specs.Callback.IgnoreFiles.{is_read, is_read_above};
    ghost use Rattle.jwalk_ignore.specs.Callback.Settings.{settings_value};

    /// Returns whether files of a kind are read in a directory that is in a repository or not, and whose `.git` leads
    /// to this.
    pub(crate) fn is_read(
        &self,
        in_repository: bool,
        git: Option<FileType>,
        kind: RulesKind,
    ) -> bool
        ensures { result ≡ is_read (settings_value self.now) in_repository git kind }
    {
        match kind {
            RulesKind::Fdignore => self.fdignore,
            RulesKind::Ignore => true,
            RulesKind::Gitignore => self.version_control && (self.anywhere || in_repository),
            RulesKind::Exclude => self.version_control && is_repository(git),
        }
    }

    /// Returns whether files of a kind are read in a folder above the root that is in a repository or not.
    pub(crate) fn is_read_above(
        &self,
        folder: Folder<'_>,
        in_repository: bool,
        kind: RulesKind,
    ) -> bool
        ensures { result ≡ is_read_above (settings_value self.now) (folder_value folder.entry) in_repository kind }
    {
        self.above_the_root
            && (goes_on(kind) || !folder.is_outer)
            && self.is_read(in_repository, folder.git, kind)
    }
}
