//! The depths of what is looked for.
ghost use Rattle.std.specs.Prelude.{◌≡◌};

/// The depths of what is looked for. The root has depth 0, and is never looked for.
#[derive(Clone, Copy, Debug, PartialEq, Eq)]
pub struct Depths {
    /// The least depth.
    pub least: usize,
    /// The greatest depth, if there is one.
    pub greatest: Option<usize>,
}

impl Depths {
    ghost use Rattle.seek_words.specs.Depths.{has_depth};

    /// Returns whether an entry of this depth is looked for. One of depth 0 isn't.
    pub fn has(self, depth: usize) -> bool
        ensures { result ≡ has_depth self depth }
    {
        depth > 0 && depth >= self.least && self.greatest.is_none_or(|most| depth <= most)
    }
}
