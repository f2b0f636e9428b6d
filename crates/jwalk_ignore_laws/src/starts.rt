//! The laws on where a walk starts, each as the contract of a function that does nothing.
ghost use Rattle.jwalk_ignore_laws.specs.Starts.{FoldersAreAbove, RulesAreTheSame, RulesComeFromAbove, WalksBeginSo};

/// The folders above a path are its parent, and those above that.
pub fn folders_are_above()
    ensures { FoldersAreAbove }
{}

/// A walk begins with the rules of the folders above its root.
pub fn walks_begin_so()
    ensures { WalksBeginSo }
{}

/// A walk begins with the rules that one from the parent begins with, and the parent's own.
pub fn rules_come_from_above()
    ensures { RulesComeFromAbove }
{}

/// Where rules above the root count and lists agree with the texts, the rules with which a walk comes to a directory are those with which a walk begins
/// that starts there: the same patterns of each kind in the same order, which say the same of every path below.
pub fn rules_are_the_same()
    ensures { RulesAreTheSame }
{}
