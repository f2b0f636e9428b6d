//! A directory that is gone from some moment on.
use crate::by_crew::{ByCrew, Visit, Walk, lend_alone};
use crate::gated::{Gate, Gated};
use jwalk::file_system::{BuildError, Fault, FileSystem};
use jwalk::readings::Readings;
use std::alloc::{AllocError, Global};
use std::io;
use std::io::ErrorKind;
use std::sync::Arc;
use std::sync::atomic::{AtomicBool, Ordering};
use test_fixtures::answers::are_lines;
use test_fixtures::builders::builder;
use test_fixtures::host::Host;
use test_fixtures::trees::{GROUPED, tree};
use test_fixtures::ways::{Setting, with_all};
use test_fixtures::width::Width;

/// A gate that the second group can't pass once it is gone.
#[derive(Drop)]
struct MayVanish {
    is_gone: AtomicBool,
}

impl Gate for MayVanish {
    fn before(&self, listed: Option<&str>) -> Result<(), Fault> {
        if listed == Some("/t/group 2") && self.is_gone.load(Ordering::SeqCst) {
            return Err(Fault::Io(io::Error::from(ErrorKind::NotFound)));
        }
        Ok(())
    }
}

/// The tree of groups behind such a gate.
type Vanishing = Gated<MayVanish>;

fn groups(alloc: Global) -> Result<Arc<Vanishing>, BuildError> {
    let groups = Gated {
        fs: tree(alloc, GROUPED)?,
        gate: MayVanish {
            is_gone: AtomicBool::new(false),
        },
    };
    Ok(Arc::new(alloc, groups).map_err(AllocError::from)?)
}

const WHOLE: &str = "0 d /t; 1 f /t/a.txt; 1 f /t/b.txt; 1 f /t/c.txt; 1 d /t/group 1; \
                     2 f /t/group 1/d.txt; 1 d /t/group 2; 2 f /t/group 2/e.txt";

/// The tree without the items of the second group.
const GONE: &str = "0 d /t; 1 f /t/a.txt; 1 f /t/b.txt; 1 f /t/c.txt; 1 d /t/group 1; \
                    2 f /t/group 1/d.txt; 1 d /t/group 2 ! 1 /t/group 2 NotFound";

/// The second group vanishes after `count` answers. One of the texts must be the walk's.
#[derive(Clone, Copy)]
struct Vanishes<'a> {
    alloc: Global,
    fs: &'a Vanishing,
    count: usize,
    wanted: &'a [&'a str],
}

impl Visit<((), ()), Global> for Vanishes<'_> {
    fn visit<B: Readings<((), ()), Global>>(&mut self, walk: &mut Walk<B>) -> bool {
        let mut found = Vec::new(self.alloc);
        let are_first = walk.fill(self.count, &mut found).is_ok();
        self.fs.gate.is_gone.store(true, Ordering::SeqCst);
        let are_all = are_first && walk.fill(usize::MAX, &mut found).is_ok();
        let mut is_one = false;
        for wanted in self.wanted {
            is_one |= are_lines(self.alloc, found.as_slice(), wanted);
        }
        are_all && is_one
    }
}

fn shows(alloc: Global, width: Width, count: usize, wanted: &str) -> Result<bool, BuildError> {
    let fs = groups(alloc)?;
    let mut vanishes = Vanishes {
        alloc,
        fs: &*fs,
        count,
        wanted: &[wanted],
    };
    let walk = with_all(
        builder(alloc, fs.clone()?, "/t")?,
        &[Setting::Sort, Setting::By(width)],
    );
    Ok(lend_alone(walk, &mut vanishes))
}

#[test]
fn a_group_that_is_gone_before_or_after_it_was_read(rt: HostRuntime) {
    const ROWS: &[(Width, usize, &str)] = &[
        (Width::Serial, 1, GONE),
        (Width::Batches(2), 1, GONE),
        (Width::Serial, 5, GONE),
        (Width::Batches(2), 5, WHOLE),
    ];
    for (width, count, wanted) in ROWS {
        assert!(rt;
            matches!(shows(rt.alloc(), *width, *count, *wanted), Ok(true)),
            "after {}",
            *count
        );
    }
}

/// A crew of two may have read the group ahead. Nothing else may differ.
fn is_gone_or_not<R: Host>(rt: &R, count: usize) -> Result<bool, BuildError> {
    let alloc = rt.alloc();
    let fs = groups(alloc)?;
    let asked = ByCrew {
        fs,
        root: "/t",
        settings: &[Setting::Sort],
    };
    let mut vanishes = Vanishes {
        alloc,
        fs: &*asked.fs,
        count,
        wanted: &[GONE, WHOLE],
    };
    Ok(asked.lend_by(rt, 2, &mut vanishes)?)
}

#[test]
fn a_group_that_is_gone_while_a_crew_reads(rt: HostRuntime) {
    for count in [1, 5] {
        assert!(rt;
            matches!(is_gone_or_not(&rt, count), Ok(true)),
            "after {}",
            count
        );
    }
}
