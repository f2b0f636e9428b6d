//! What the options of a call ask for.
ghost use Rattle.std.specs.Prelude.{◌≡◌};

use crate::read_by::ReadBy;

/// One option of a call.
#[derive(Clone, Copy)]
pub enum Choice {
    /// The walk runs over a tree that standard input describes.
    Tree,
    /// The entries of a directory are sorted by name.
    Sort,
    /// Hidden names come too.
    Hidden,
    /// Links are followed.
    Follow,
    /// Totals are printed in place of the answers.
    Usage,
    /// The least depth of the entries.
    Min(usize),
    /// The greatest depth.
    Max(usize),
    /// What directories are read by.
    Read(ReadBy),
}

/// What options ask for together.
#[derive(Clone, Copy)]
pub struct Asked {
    /// Whether the walk runs over a tree that standard input describes.
    pub tree: bool,
    /// Whether the entries of a directory are sorted by name.
    pub sort: bool,
    /// Whether hidden names come too.
    pub hidden: bool,
    /// Whether links are followed.
    pub follow: bool,
    /// Whether totals are printed in place of the answers.
    pub usage: bool,
    /// The least depth of the entries, if one was named.
    pub min: Option<usize>,
    /// The greatest depth, if one was named.
    pub max: Option<usize>,
    /// What directories are read by, if that was named.
    pub read_by: Option<ReadBy>,
}

impl Asked {
    ghost use Rattle.walk_text.specs.Asked.{nothing, also};

    /// Returns what no option asks for.
    pub fn nothing() -> Self
        ensures { result ≡ nothing }
    {
        Asked {
            tree: false,
            sort: false,
            hidden: false,
            follow: false,
            usage: false,
            min: None,
            max: None,
            read_by: None,
        }
    }

    /// Returns the same with one more option, or none if that was asked for already.
    pub fn also(self, choice: Choice) -> Option<Self>
        ensures { result ≡ also choice self }
    {
        match choice {
            Choice::Tree if !self.tree => Some(Asked { tree: true, ..self }),
            Choice::Sort if !self.sort => Some(Asked { sort: true, ..self }),
            Choice::Hidden if !self.hidden => Some(Asked {
                hidden: true,
                ..self
            }),
            Choice::Follow if !self.follow => Some(Asked {
                follow: true,
                ..self
            }),
            Choice::Usage if !self.usage => Some(Asked {
                usage: true,
                ..self
            }),
            Choice::Min(depth) if self.min.is_none() => Some(Asked {
                min: Some(depth),
                ..self
            }),
            Choice::Max(depth) if self.max.is_none() => Some(Asked {
                max: Some(depth),
                ..self
            }),
            Choice::Read(by) if self.read_by.is_none() => Some(Asked {
                read_by: Some(by),
                ..self
            }),
            _ => None,
        }
    }
}
