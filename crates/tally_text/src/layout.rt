//! The layout of a table.
ghost use Rattle.std.specs.Prelude.{◌≡◌, ◌≤◌, ◌++◌, OnOk};
ghost use Rattle.tally_text.specs.Layout.{repeated, marks_of, bar_text, size_column, shown_name, front_text, label_text, row_text};

use crate::scale::Scale;
use program_parts::masked::masked;
use std::alloc::{AllocError, Global};

/// The layout of a table.
#[derive(Clone, Copy, Debug, PartialEq, Eq)]
pub struct Layout {
    /// The scale of sizes.
    pub scale: Scale,
    /// The least number of columns of a size.
    pub column: usize,
    /// The number of columns of a bar, or 0 for no bars.
    pub bar: usize,
    /// The size of a whole bar.
    pub total: u128,
    /// Whether the table is for a terminal, where each control character in a name is a question mark.
    pub to_terminal: bool,
}

fn push_times(text: &str, times: usize, out: &mut Vec<u8, Global>) -> Result<(), AllocError>
    ensures { OnOk result (out.new.items ≡ out.old.items ++ repeated times text.now) }
{
    let mut done = 0;
    while done < times {
        out.extend_from_slice(text.as_bytes())?;
        done += 1;
    }
    Ok(())
}

impl Layout {
    /// Returns a size's share of the total, rounded down.
    fn marks(&self, bytes: u128) -> usize
        ensures marks { result ≡ marks_of self.now bytes }
        ensures most { result ≤ self.now.bar }
    {
        if self.total == 0 {
            return 0;
        }
        let share = bytes.saturating_mul(self.bar as u128) / self.total;
        share.min(self.bar as u128) as usize
    }

    fn push_bar(&self, bytes: u128, out: &mut Vec<u8, Global>) -> Result<(), AllocError>
        ensures { OnOk result (out.new.items ≡ out.old.items ++ bar_text self.now bytes) }
    {
        if self.bar == 0 {
            return Ok(());
        }
        let marks = self.marks(bytes);
        push_times("#", marks, out)?;
        push_times(".", self.bar - marks, out)?;
        push_times(" ", 2, out)
    }

    fn push_size(&self, bytes: u128, out: &mut Vec<u8, Global>) -> Result<(), AllocError>
        ensures { OnOk result (out.new.items ≡ out.old.items ++ size_column self.now bytes) }
    {
        let mut size = Vec::new(*out.allocator());
        self.scale.push(bytes, &mut size)?;
        push_times(" ", self.column.saturating_sub(size.len()), out)?;
        out.extend_from_slice(size.as_slice())
    }

    fn push_name(&self, name: &str, out: &mut Vec<u8, Global>) -> Result<(), AllocError>
        ensures { OnOk result (out.new.items ≡ out.old.items ++ shown_name self.now name.now) }
    {
        if self.to_terminal {
            let shown = masked(*out.allocator(), name)?;
            out.extend_from_slice(shown.as_bytes())
        } else {
            out.extend_from_slice(name.as_bytes())
        }
    }

    fn push_front(&self, bytes: u128, out: &mut Vec<u8, Global>) -> Result<(), AllocError>
        ensures { OnOk result (out.new.items ≡ out.old.items ++ front_text self.now bytes) }
    {
        self.push_size(bytes, out)?;
        push_times(" ", 2, out)?;
        self.push_bar(bytes, out)
    }

    fn push_label(
        &self,
        levels: usize,
        name: &str,
        out: &mut Vec<u8, Global>,
    ) -> Result<(), AllocError>
        ensures { OnOk result (out.new.items ≡ out.old.items ++ label_text self.now levels name.now) }
    {
        push_times("  ", levels, out)?;
        self.push_name(name, out)?;
        out.push(b'\n')?;
        Ok(())
    }

    /// Appends the row of a size and of a name to `out`. The name follows two spaces for each level.
    ///
    /// # Errors
    ///
    /// If memory runs out.
    pub fn push_row(
        &self,
        levels: usize,
        bytes: u128,
        name: &str,
        out: &mut Vec<u8, Global>,
    ) -> Result<(), AllocError>
        ensures { OnOk result (out.new.items ≡ out.old.items ++ row_text self.now levels bytes name.now) }
    {
        self.push_front(bytes, out)?;
        self.push_label(levels, name, out)
    }
}
