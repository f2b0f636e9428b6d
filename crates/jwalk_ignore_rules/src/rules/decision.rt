//! What the rules say of a path.
ghost use Rattle.std.specs.Prelude.{◌≡◌};
ghost use Rattle.jwalk_ignore_rules.specs.Rules.Chain.{is_ignored, is_said};

/// What the rules of an ignore file say of a path.
#[derive(Clone, Copy, Debug, PartialEq, Eq)]
pub enum Decision {
    /// The last pattern that matches is an ordinary one: the path is ignored.
    Ignored,
    /// The last pattern that matches begins with `!`: the path is kept.
    Kept,
    /// No pattern matches.
    Unsaid,
}

impl Decision {
    /// Returns whether any rule matches.
    pub fn is_said(self) -> bool
        ensures { result ≡ is_said self }
    {
        match self {
            Decision::Ignored | Decision::Kept => true,
            Decision::Unsaid => false,
        }
    }

    /// Returns whether the path is ignored.
    pub fn is_ignored(self) -> bool
        ensures { result ≡ is_ignored self }
    {
        match self {
            Decision::Ignored => true,
            Decision::Kept | Decision::Unsaid => false,
        }
    }
}
