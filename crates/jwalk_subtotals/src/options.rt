//! What is counted, and which subtotals are yielded.
ghost use Rattle.std.specs.Prelude.{◌≡◌};
ghost use Rattle.jwalk_subtotals.specs.Options.{defaults};

/// What is counted, and of which entries the subtotals are yielded. The defaults are the bytes of blocks, each file once,
/// and of all depths directories and what could not be read.
#[derive(Clone, Copy, Debug, PartialEq, Eq)]
pub struct SubtotalOptions {
    /// Whether `bytes` is made of lengths, and not of blocks.
    pub apparent: bool,
    /// Whether each name of a file counts its size, and not only the first.
    pub each_name: bool,
    /// Whether all entries are yielded, and not only directories, what is at depth 0, and what could not be read.
    pub all: bool,
    /// The greatest depth of the entries that are yielded.
    pub max_depth: usize,
}

impl SubtotalOptions {
    /// Returns the defaults.
    pub fn new() -> Self
        ensures { result ≡ defaults }
    {
        SubtotalOptions {
            apparent: false,
            each_name: false,
            all: false,
            max_depth: usize::MAX,
        }
    }

    /// Sets whether `bytes` is made of lengths, and not of blocks.
    pub fn with_apparent(mut self, apparent: bool) -> Self
        ensures { result ≡ record self { apparent = apparent } }
    {
        self.apparent = apparent;
        self
    }

    /// Sets whether each name of a file counts its size, and not only the first.
    pub fn with_each_name(mut self, each_name: bool) -> Self
        ensures { result ≡ record self { each_name = each_name } }
    {
        self.each_name = each_name;
        self
    }

    /// Sets whether all entries are yielded.
    pub fn with_all(mut self, all: bool) -> Self
        ensures { result ≡ record self { all = all } }
    {
        self.all = all;
        self
    }

    /// Sets the greatest depth of the entries that are yielded.
    pub fn with_max_depth(mut self, depth: usize) -> Self
        ensures { result ≡ record self { max_depth = depth } }
    {
        self.max_depth = depth;
        self
    }
}
