//! Where a user's own files are.
ghost use Rattle.std.specs.Prelude.{◌≡◌, IfOk, string_bytes};
ghost use Rattle.std.specs.Option.{option_map};

use jwalk_fs::path_text::join;
use std::alloc::{AllocError, Global};

/// Where a user's own files are, by the environment.
#[derive(Clone, Copy, Debug, PartialEq, Eq)]
pub struct Home<'h> {
    /// The value of the variable `HOME`, or the empty text if it isn't set.
    pub home: &'h str,
    /// The value of `XDG_CONFIG_HOME`, or the empty text if it isn't set.
    pub config: &'h str,
}

/// The same, kept as long as it is needed.
#[derive(Drop)]
pub struct OwnHome {
    home: String,
    config: String,
}

impl OwnHome {
    ghost use Rattle.user_excludes.specs.Home.{home_value};
    ghost use Rattle.user_excludes.specs.OwnHome.{own_home_value};

    /// Returns a copy.
    pub fn of(alloc: Global, home: Home<'_>) -> Result<Self, AllocError>
        ensures { IfOk result (λ own. own_home_value own ≡ home_value home.entry) }
    {
        Ok(OwnHome {
            home: String::from_str(alloc, home.home)?,
            config: String::from_str(alloc, home.config)?,
        })
    }

    pub(crate) fn lent(&self) -> Home<'_>
        ensures { home_value result ≡ own_home_value self.now }
    {
        Home {
            home: self.home.as_str(),
            config: self.config.as_str(),
        }
    }
}

impl<'h> Home<'h> {
    ghost use Rattle.user_excludes.specs.Home.{below_home, expanded, home_value, in_config};

    /// Returns the path of a name below the user's folder, if that is known.
    pub(crate) fn below(self, alloc: Global, name: &str) -> Result<Option<String>, AllocError>
        ensures { IfOk result (λ path. option_map string_bytes path ≡ below_home (home_value self.entry) name.now) }
    {
        if self.home.is_empty() {
            return Ok(None);
        }
        Ok(Some(join(alloc, self.home, name)?))
    }

    /// Returns the path of a name in the folder of configurations, if that is known.
    pub(crate) fn in_config(self, alloc: Global, name: &str) -> Result<Option<String>, AllocError>
        ensures { IfOk result (λ path. option_map string_bytes path ≡ in_config (home_value self.entry) name.now) }
    {
        if !self.config.is_empty() {
            return Ok(Some(join(alloc, self.config, name)?));
        }
        match self.below(alloc, ".config")? {
            Some(folder) => Ok(Some(join(alloc, folder.as_str(), name)?)),
            None => Ok(None),
        }
    }

    /// Returns a path with the user's folder in place of a `~` in front.
    pub(crate) fn expanded(self, alloc: Global, path: &str) -> Result<String, AllocError>
        ensures { IfOk result (λ it. string_bytes it ≡ expanded (home_value self.entry) path.now) }
    {
        match path.strip_prefix("~/") {
            Some(below) => join(alloc, self.home, below),
            None => String::from_str(alloc, path),
        }
    }
}
