//! Totals over walks.
ghost use Rattle.std.specs.Iterator.{IsFinite};

use jwalk::file_system::{BuildError, FileSystem, MemoryFs};
use jwalk_usage::{Usage, UsageFault, usage, usage_kept};
use std::alloc::{AllocError, Global};
use test_fixtures::answers::Answer;
use test_fixtures::builders::{Builder, builder};
use test_fixtures::trees::{GROUPED, tree};
use test_fixtures::watched::{Failing, Watched};

/// The totals of the grouped tree, which has five files that aren't hidden.
const WHOLE: Usage = Usage {
    files: 5,
    dirs: 3,
    links: 0,
    others: 0,
    errors: 0,
    bytes: 18,
};

/// The totals of what is two levels deep.
const BELOW: Usage = Usage {
    files: 2,
    dirs: 0,
    bytes: 9,
    ..WHOLE
};

/// The totals of one file.
const FILE: Usage = Usage {
    files: 1,
    dirs: 0,
    bytes: 2,
    ..WHOLE
};

/// The totals where no file is there any more when it is asked for its size.
const MISSING: Usage = Usage {
    errors: 5,
    bytes: 0,
    ..WHOLE
};

/// The file system that is asked for the sizes of files when they are counted.
#[derive(Clone, Copy, PartialEq, Eq)]
enum Sizes {
    /// None: what entries keep is added up.
    Kept,
    /// The one that is walked.
    Asked,
    /// An empty one.
    Missing,
}

/// A walk of the grouped tree, and its totals.
struct Row {
    failing: Failing,
    root: &'static str,
    min_depth: usize,
    keep: bool,
    sizes: Sizes,
    totals: Result<Usage, UsageFault>,
}

// The function that counts promises nothing: a function that names the type of a walk carries no contract of a count to
// its end.

/// Asks for the size of each file whose entry keeps no metadata, or for none.
fn count<S: FileSystem, I: Iterator<Item = Answer> + Drop>(
    sizes: &S,
    answers: I,
    ask: bool,
) -> Result<Usage, UsageFault>
    requires can { I.can_next answers }
    requires ends { IsFinite (I.remaining answers) }
{
    if ask {
        usage(sizes, answers)
    } else {
        usage_kept(answers)
    }
}

impl Row {
    fn totals_by<S: FileSystem>(
        &self,
        alloc: Global,
        fs: &S,
        sizes: &S,
    ) -> Result<Result<Usage, UsageFault>, AllocError> {
        let walk: Builder<&S> = builder(alloc, fs, self.root)?;
        let walk = walk.min_depth(self.min_depth).keep_metadata(self.keep);
        Ok(count(sizes, walk.into_iter(), self.sizes != Sizes::Kept))
    }

    fn holds(&self, alloc: Global) -> Result<bool, BuildError> {
        let fs = Watched::new(tree(alloc, GROUPED)?, self.failing);
        let empty = Watched::new(MemoryFs::new(alloc), Failing::Never);
        let sizes = if self.sizes == Sizes::Missing {
            &empty
        } else {
            &fs
        };
        Ok(self.totals_by(alloc, &fs, sizes)? == self.totals)
    }
}

const COUNTED: Row = Row {
    failing: Failing::Never,
    root: "/t",
    min_depth: 0,
    keep: false,
    sizes: Sizes::Asked,
    totals: Ok(WHOLE),
};

const KEPT: Row = Row {
    keep: true,
    sizes: Sizes::Kept,
    ..COUNTED
};

const REFUSED: Row = Row {
    totals: Err(UsageFault::Memory),
    ..COUNTED
};

#[test]
fn totals_of_walks(rt: HostRuntime) {
    const ROWS: &[Row] = &[
        COUNTED,
        KEPT,
        // One walk, counted in both ways.
        Row {
            min_depth: 2,
            totals: Ok(BELOW),
            ..COUNTED
        },
        Row {
            min_depth: 2,
            totals: Ok(BELOW),
            ..KEPT
        },
        Row {
            root: "/t/a.txt",
            totals: Ok(FILE),
            ..COUNTED
        },
        Row {
            root: "/t/a.txt",
            totals: Ok(FILE),
            ..KEPT
        },
        // Memory runs out.
        Row {
            failing: Failing::MetadataForMemory("/t/b.txt"),
            ..REFUSED
        },
        Row {
            failing: Failing::MetadataForMemory("/t"),
            ..REFUSED
        },
        Row {
            failing: Failing::ListForMemory("/t/group 1"),
            ..REFUSED
        },
        // Files without metadata are errors, and files that keep theirs aren't asked.
        Row {
            sizes: Sizes::Missing,
            totals: Ok(MISSING),
            ..COUNTED
        },
        Row {
            sizes: Sizes::Missing,
            ..KEPT
        },
    ];
    for (number, row) in ROWS.iter().enumerate() {
        assert!(rt; row.holds(rt.alloc()) == Ok(true), "row {number}");
    }
}
