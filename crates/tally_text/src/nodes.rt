//! Trees of results, made of lines in which children come before their parents.
ghost use Rattle.std.specs.Prelude.{◌≡◌, [], string_bytes, take, drop, OnOk};
ghost use Rattle.tally_text.specs.Nodes.{trees_of, largest_of, kept_of, rest_of, AreBySize, IsFirstDeeper, IsLeftOut, IsPushed};

use crate::node::Node;
use crate::numbers::Numbers;
use crate::rest::Rest;
use std::alloc::{AllocError, Global};
use std::cmp::Reverse;

/// Trees of results, made of lines in which children come before their parents. The entries of a directory are in the
/// order of their sizes, the largest first. Entries of equal size keep their order.
#[derive(Drop)]
pub struct Nodes {
    trees: Vec<Node, Global>,
    largest: Option<usize>,
}

fn first_deeper(trees: &[Node], depth: usize) -> usize
    ensures { IsFirstDeeper trees.now depth result }
{
    let mut first = trees.len();
    while first > 0 && trees[first - 1].depth > depth {
        first -= 1;
    }
    first
}

fn sort_by_size(nodes: &mut Vec<Node, Global>) -> Result<(), AllocError>
    ensures { OnOk result (AreBySize nodes.old.items nodes.new.items) }
{
    nodes.sort_by_key(|node| Reverse(node.numbers.bytes))
}

#[tactic(auto, using(crate::proofs::NodesFacts::rest_known))]
fn rest_of(nodes: &[Node]) -> Rest
    ensures { result ≡ rest_of nodes.now }
{
    let mut bytes: u128 = 0;
    for node in nodes {
        bytes = bytes.saturating_add(node.numbers.bytes);
    }
    Rest {
        count: nodes.len(),
        bytes,
    }
}

fn cut(nodes: &mut Vec<Node, Global>, largest: Option<usize>) -> Rest
    ensures kept { nodes.new.items ≡ take (kept_of largest nodes.old.items) nodes.old.items }
    ensures rest { result ≡ rest_of (drop (kept_of largest nodes.old.items) nodes.old.items) }
{
    let kept = match largest {
        Some(largest) => largest.min(nodes.len()),
        None => nodes.len(),
    };
    let rest = rest_of(&nodes[kept..]);
    nodes.truncate(kept);
    rest
}

impl Nodes {
    /// Returns no trees. `largest` is the greatest number of entries of a directory, which keeps its largest ones.
    pub fn new(alloc: Global, largest: Option<usize>) -> Self
        ensures trees { trees_of result ≡ [] }
        ensures largest { largest_of result ≡ largest }
    {
        Nodes {
            trees: Vec::new(alloc),
            largest,
        }
    }

    /// Appends a node to the trees. The deeper trees at their end become its children.
    ///
    /// # Errors
    ///
    /// If memory runs out. Then some trees may be gone.
    pub fn push(
        &mut self,
        depth: usize,
        name: String<Global>,
        numbers: Numbers,
    ) -> Result<(), AllocError>
        ensures pushed { OnOk result (IsPushed (largest_of self.old) depth (string_bytes name) numbers (trees_of self.old) (trees_of self.new)) }
        ensures largest { largest_of self.new ≡ largest_of self.old }
    {
        let first = first_deeper(self.trees.as_slice(), depth);
        let mut children = self.trees.split_off(first)?;
        sort_by_size(&mut children)?;
        let rest = cut(&mut children, self.largest);
        self.trees.push(Node {
            depth,
            name,
            numbers,
            children,
            rest,
        })?;
        Ok(())
    }

    /// Leaves out an entry of this depth, and what is in it: the deeper trees at the end.
    pub fn leave_out(&mut self, depth: usize)
        ensures left_out { IsLeftOut depth (trees_of self.old) (trees_of self.new) }
        ensures largest { largest_of self.new ≡ largest_of self.old }
    {
        let first = first_deeper(self.trees.as_slice(), depth);
        self.trees.truncate(first);
    }

    /// Returns the trees.
    pub fn into_trees(self) -> Vec<Node, Global>
        ensures { result.items ≡ trees_of self }
    {
        self.trees
    }
}
