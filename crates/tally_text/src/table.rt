//! Tables: the rows of a tree, and its total.
ghost use Rattle.std.specs.Prelude.{◌≡◌, ◌++◌, length, string_bytes, IfOk, OnOk};
ghost use Rattle.std.specs.Str.{chars};
ghost use Rattle.tally_text.specs.declared.node.Node.TheViews.{out-Node};
ghost use Rattle.tally_text.specs.Table.{own_row, rest_name, rest_row, below_text, columns_in, columns_of, rest_columns, longest_of, column_for, bar_for, layout_for, table_text};

use crate::layout::Layout;
use crate::node::Node;
use crate::rest::Rest;
use crate::scale::Scale;
use std::alloc::{AllocError, Global};

/// Returns what a row says of the entries of a directory beyond its largest ones.
fn rest_name(alloc: Global, rest: Rest) -> Result<String, AllocError>
    ensures { IfOk result (λ name. string_bytes name ≡ rest_name rest) }
{
    format!(in alloc; "({} more)", rest.count)
}

fn push_rest(
    layout: &Layout,
    levels: usize,
    rest: Rest,
    out: &mut Vec<u8, Global>,
) -> Result<(), AllocError>
    ensures { OnOk result (out.new.items ≡ out.old.items ++ rest_row layout.now levels rest) }
{
    if rest.count == 0 {
        return Ok(());
    }
    let name = rest_name(*out.allocator(), rest)?;
    layout.push_row(levels, rest.bytes, name.as_str(), out)
}

fn characters(text: &str) -> usize
    ensures { result ≡ length (chars text.now) }
{
    text.chars().count()
}

/// Counts the spaces before a name, too.
fn columns_in(levels: usize, name: &str) -> usize
    ensures { result ≡ columns_in levels name.now }
{
    characters(name).saturating_add(levels.saturating_mul(2))
}

impl Node {
    fn push_own(&self, layout: &Layout, out: &mut Vec<u8, Global>) -> Result<(), AllocError>
        ensures { OnOk result (out.new.items ≡ out.old.items ++ own_row layout.now self.now) }
    {
        let levels = self.depth.saturating_sub(1);
        layout.push_row(levels, self.numbers.bytes, self.name.as_str(), out)
    }

    #[tactic(auto, using(crate::proofs::TableFacts::one_more))]
    fn push_below(&self, layout: &Layout, out: &mut Vec<u8, Global>) -> Result<(), AllocError>
        ensures { OnOk result (out.new.items ≡ out.old.items ++ below_text layout.now self.now) }
    {
        for child in &self.children {
            child.push_own(layout, out)?;
            child.push_below(layout, out)?;
        }
        push_rest(layout, self.depth, self.rest, out)
    }

    fn columns(&self) -> usize
        ensures { result ≡ columns_of self.now }
    {
        columns_in(self.depth.saturating_sub(1), self.name.as_str())
    }

    fn rest_columns(&self, alloc: Global) -> Result<usize, AllocError>
        ensures { IfOk result (λ columns. columns ≡ rest_columns (out-Node self.now).depth (out-Node self.now).rest) }
    {
        if self.rest.count == 0 {
            return Ok(0);
        }
        let name = rest_name(alloc, self.rest)?;
        Ok(columns_in(self.depth, name.as_str()))
    }

    /// Looks at the rows of the node and of everything below it.
    #[tactic(auto, using(crate::proofs::TableFacts::longest_out))]
    fn longest(&self, alloc: Global) -> Result<usize, AllocError>
        ensures { IfOk result (λ longest. longest ≡ longest_of self.now) }
    {
        let mut longest = self.columns().max(self.rest_columns(alloc)?);
        for child in &self.children {
            longest = longest.max(child.longest(alloc)?);
        }
        Ok(longest)
    }
}

/// Without a width there are no bars.
fn layout_for(
    alloc: Global,
    scale: Scale,
    width: Option<usize>,
    to_terminal: bool,
    root: &Node,
) -> Result<Layout, AllocError>
    ensures { IfOk result (λ layout. layout ≡ layout_for scale width to_terminal root.now) }
{
    let total = root.numbers.bytes;
    let mut size = Vec::new(alloc);
    scale.push(total, &mut size)?;
    let column = size.len().max(8);
    let bar = match width {
        Some(width) => width
            .saturating_sub(root.longest(alloc)?)
            .saturating_sub(column)
            .saturating_sub(4),
        None => 0,
    };
    Ok(Layout {
        scale,
        column,
        bar,
        total,
        to_terminal,
    })
}

/// Appends the table of a tree to `out`: the rows of everything below the root, each directory before its entries, and
/// then the total. If a width is given, the rows have bars that show a size's share of the total.
///
/// # Errors
///
/// If memory runs out.
pub fn push_table(
    scale: Scale,
    width: Option<usize>,
    to_terminal: bool,
    root: &Node,
    out: &mut Vec<u8, Global>,
) -> Result<(), AllocError>
    ensures { OnOk result (out.new.items
        ≡ out.old.items ++ table_text (layout_for scale width to_terminal root.now) root.now) }
{
    let layout = layout_for(*out.allocator(), scale, width, to_terminal, root)?;
    root.push_below(&layout, out)?;
    root.push_own(&layout, out)
}
