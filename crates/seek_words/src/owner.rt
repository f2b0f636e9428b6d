//! Owners of files.
ghost use Rattle.std.specs.Prelude.{◌≡◌};
ghost use Rattle.std.specs.Option.{option_copied};
ghost use Rattle.seek_words.specs.Owner.{passes_any};

use crate::seen::details_seen;
use jwalk_model::metadata::Metadata;

/// A test of the number of a user or a group.
#[derive(Clone, Copy, Debug, PartialEq, Eq)]
pub enum IdTest {
    /// This number.
    Is(u32),
    /// Any number but this.
    IsNot(u32),
}

impl IdTest {
    ghost use Rattle.seek_words.specs.Owner.{passes};

    fn passes(self, id: u32) -> bool
        ensures { result ≡ passes self id }
    {
        match self {
            IdTest::Is(wanted) => id == wanted,
            IdTest::IsNot(unwanted) => id != unwanted,
        }
    }
}

/// The owner of what is looked for. A part that isn't named makes no difference.
#[derive(Clone, Copy, Debug, PartialEq, Eq)]
pub struct Owner {
    /// The test of the user.
    pub user: Option<IdTest>,
    /// The test of the group.
    pub group: Option<IdTest>,
}

fn passes_any(test: Option<IdTest>, id: u32) -> bool
    ensures { result ≡ passes_any test id }
{
    match test {
        Some(test) => test.passes(id),
        None => true,
    }
}

impl Owner {
    ghost use Rattle.seek_words.specs.Owner.{is_owned};

    /// Returns whether an entry with this metadata is looked for. If the metadata isn't known, the entry isn't.
    pub fn has(&self, seen: Option<&Metadata>) -> bool
        ensures { result ≡ is_owned self.now (option_copied seen.entry) }
    {
        match details_seen(seen) {
            Some(details) => {
                passes_any(self.user, details.uid) && passes_any(self.group, details.gid)
            }
            None => false,
        }
    }
}
