//! Entries that are compared.
ghost use Rattle.std.specs.Prelude.{◌≡◌, string_bytes};
ghost use Rattle.jwalk_changes.specs.AtPath.{names};
ghost use Rattle.jwalk_changes.specs.declared.facts.Facts.{Facts};

use crate::at_path::AtPath;
use crate::facts::Facts;
use std::alloc::{Allocator, Global};

/// What has a path and facts that are compared.
pub trait Entry: AtPath {
    // What is known of it.
    ghost facts: { Self → Facts };

    /// Returns what is known of it.
    fn facts(&self) -> Facts
        ensures { result ≡ facts self.now };
}

/// An entry with its whole path as one text.
#[derive(Drop)]
#[derive_where(Debug)]
pub struct Kept<A: Allocator + Copy = Global> {
    /// The names on the way to it with slashes between them, as `a/b`.
    pub path: String<A>,
    pub facts: Facts,
}

impl<A: Allocator + Copy> AtPath for Kept<A> {
    ghost path = { λ kept. names (string_bytes kept.path) };

    fn path_parts(&self) -> (&str, &str) {
        ("", self.path.as_str())
    }
}

impl<A: Allocator + Copy> Entry for Kept<A> {
    ghost facts = { λ kept. kept.facts };

    fn facts(&self) -> Facts {
        self.facts
    }
}

impl<'k, A: Allocator + Copy> AtPath for &'k Kept<A> {
    ghost path = { λ kept. names (string_bytes kept.now.path) };

    fn path_parts(&self) -> (&str, &str) {
        ("", self.path.as_str())
    }
}

impl<'k, A: Allocator + Copy> Entry for &'k Kept<A> {
    ghost facts = { λ kept. kept.now.facts };

    fn facts(&self) -> Facts {
        self.facts
    }
}
