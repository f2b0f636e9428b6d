//! Keys with their colors.
ghost use Rattle.std.specs.Prelude.{◌≡◌, ◌++◌, ◌∷◌, [], OnOk};
ghost use Rattle.std.specs.Option.{option_copied};
ghost use Rattle.seek_colors.specs.Table.{are_folded_same, has_suffix};

use std::alloc::{AllocError, Global};

#[derive(Drop)]
struct Entry {
    key: String,
    color: String,
}

/// Keys with their colors, the newest last.
#[derive(Drop)]
pub(crate) struct Table {
    entries: Vec<Entry>,
}

#[tactic(auto, using(crate::proofs::TableFacts::same_folded))]
fn are_folded_same(text: &[u8], other: &[u8]) -> bool
    ensures { result ≡ are_folded_same text.now other.now }
{
    text.eq_ignore_ascii_case(other)
}

fn has_suffix(name: &[u8], suffix: &[u8]) -> bool
    ensures { result ≡ has_suffix name.now suffix.now }
{
    are_folded_same(&name[name.len().saturating_sub(suffix.len())..], suffix)
}

impl Table {
    ghost use Rattle.seek_colors.specs.Table.{entries_of, key_color, suffix_color};

    pub(crate) fn new(alloc: Global) -> Self
        ensures { entries_of result ≡ [] }
    {
        Table {
            entries: Vec::new(alloc),
        }
    }

    pub(crate) fn push(&mut self, alloc: Global, key: &str, color: &str) -> Result<(), AllocError>
        ensures { OnOk result (entries_of self.new ≡ entries_of self.old ++ (key.now, color.now) ∷ []) }
    {
        let key = String::from_str(alloc, key)?;
        let color = String::from_str(alloc, color)?;
        self.entries.push(Entry { key, color })?;
        Ok(())
    }

    /// Returns the newest color of a key.
    pub(crate) fn key_color(&self, key: &str) -> Option<&str>
        ensures { option_copied result ≡ key_color (entries_of self.now) key.now }
    {
        let entry = self
            .entries
            .iter()
            .rev()
            .find(|entry| entry.key.as_str() == key)?;
        Some(entry.color.as_str())
    }

    /// Returns the newest color whose key a name ends with. The case of ASCII letters doesn't count.
    pub(crate) fn suffix_color(&self, name: &str) -> Option<&str>
        ensures { option_copied result ≡ suffix_color (entries_of self.now) name.now }
    {
        let entry = self
            .entries
            .iter()
            .rev()
            .find(|entry| has_suffix(name.as_bytes(), entry.key.as_bytes()))?;
        Some(entry.color.as_str())
    }
}
