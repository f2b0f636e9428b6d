//! The laws on trees in memory, each as the contract of a function that does nothing.
ghost use Rattle.jwalk_usage_laws.specs.Trees.{BuiltTreesHavePlainNames, KeptTotalsOverTrees, TreesAgree};

/// A tree in memory whose names are plain agrees with itself, its listings say all of files, and any root is asked alike.
pub fn trees_agree()
    ensures { TreesAgree }
{}

/// Every tree that is built has such names: the empty one has, and each step of building keeps them.
pub fn built_trees_have_plain_names()
    ensures { BuiltTreesHavePlainNames }
{}

/// Over such a tree, a walk that keeps metadata comes to the same by what its entries keep as the walk that keeps none
/// does by asking.
pub fn kept_totals_over_trees()
    ensures { KeptTotalsOverTrees }
{}
