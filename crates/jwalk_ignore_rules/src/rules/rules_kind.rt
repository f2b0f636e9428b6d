//! The kinds of rules.
ghost use Rattle.std.specs.Prelude.{◌≡◌};
ghost use Rattle.jwalk_ignore_rules.specs.Rules.Chain.{may_miss};

/// Which file rules are from. All of one kind decide before those of the next.
#[derive(Clone, Copy, Debug, PartialEq, Eq)]
pub enum RulesKind {
    /// `.fdignore`.
    Fdignore,
    /// `.ignore`.
    Ignore,
    /// `.gitignore`.
    Gitignore,
    /// `.git/info/exclude`.
    Exclude,
}

impl RulesKind {
    /// Returns whether the file of rules may be missing that a directory's own list leads to.
    pub fn may_miss(self) -> bool
        ensures { result ≡ may_miss self }
    {
        match self {
            RulesKind::Fdignore | RulesKind::Ignore | RulesKind::Gitignore => false,
            RulesKind::Exclude => true,
        }
    }
}
