//! Walks over a disk whose answers are in a table.
use crate::disk::found;
use crate::disk::told::{Call, Counts, Readings, Told, ToldDisk};
use jwalk::file_system::RealFs;
use std::alloc::{AllocError, Global};
use std::cell::Cell;
use std::io::ErrorKind;
use std::rc::Rc;
use test_fixtures::answers::are_lines;
use test_fixtures::ways::Setting;

/// A disk, and what a walk over it yields, in the order of the listing.
#[derive(Clone, Copy)]
struct Row {
    readings: Readings,
    /// How many opens are interrupted, from the first on.
    interrupted: usize,
    /// The calls that fail, each at a path.
    failing: &'static [(Call, &'static str)],
    /// The error of the calls that fail.
    kind: ErrorKind,
    settings: &'static [Setting],
    lines: &'static str,
    /// How often the walk calls the disk, if that is counted.
    counts: Option<Counts>,
}

fn holds(alloc: Global, row: &Row) -> Result<bool, AllocError> {
    let told = Told {
        readings: row.readings,
        interrupted: row.interrupted,
        failing: row.failing,
        kind: row.kind,
    };
    let none: Counts = (0, 0, 0, 0);
    let calls = Rc::new(alloc, Cell::new(none))?;
    let disk = ToldDisk {
        told,
        calls: calls.clone()?,
    };
    let found = found(alloc, RealFs::new(disk), "/t", row.settings, false)?;
    let is_counted = match row.counts {
        Some(counts) => calls.get() == counts,
        None => true,
    };
    Ok(is_counted && are_lines(alloc, found.as_slice(), row.lines))
}

/// A walk that follows no links, over a directory with a file, a link, a directory and a hidden file.
const LISTED: Row = Row {
    readings: Readings::FourNames,
    interrupted: 0,
    failing: &[],
    kind: ErrorKind::NotFound,
    settings: &[],
    lines: "0 d /t; 1 f /t/a; 1 L /t/l; 1 d /t/s",
    counts: None,
};

/// The same, with links followed.
const FOLLOWED: Row = Row {
    settings: &[Setting::Follow],
    lines: "0 d /t; 1 f /t/a; 1 D /t/l; 1 d /t/s",
    ..LISTED
};

/// The same, where memory runs out in the calls that fail.
const NO_MEMORY: Row = Row {
    kind: ErrorKind::OutOfMemory,
    lines: "! 0 - memory",
    ..FOLLOWED
};

/// A look at the root and at each name, and more for followed links.
const COUNTED: &[Row] = &[
    Row {
        counts: Some((2, 5, 0, 0)),
        ..LISTED
    },
    Row {
        counts: Some((3, 5, 1, 1)),
        ..FOLLOWED
    },
];

/// Readings of the directory.
const READINGS: &[Row] = &[
    // A name that is no text is an error among the others. The directory itself and the one above it are none.
    Row {
        readings: Readings::NamesThatAreNoTexts,
        lines: "0 d /t; 1 f /t/b; ! 1 - InvalidFilename; 1 f /t/c; ! 1 - InvalidFilename; 1 f /t/d",
        ..LISTED
    },
    Row {
        readings: Readings::FaultAfterThreeNames,
        lines: "0 d /t; 1 f /t/b; 1 f /t/a; 1 f /t/c; ! 1 - InvalidData",
        ..LISTED
    },
    // An open or a reading that was interrupted is made again.
    Row {
        readings: Readings::Interrupted,
        interrupted: 2,
        lines: "0 d /t; 1 f /t/b; 1 f /t/a",
        ..LISTED
    },
    Row {
        readings: Readings::NoMemoryAfterTwoNames,
        lines: "! 0 - memory",
        ..LISTED
    },
];

/// Calls that fail.
const FAILING: &[Row] = &[
    // An open that is always interrupted ends.
    Row {
        failing: &[(Call::Open, "/t/")],
        kind: ErrorKind::Interrupted,
        lines: "0 d /t ! 0 /t Interrupted",
        ..LISTED
    },
    // The type of a name is told, whether it is hidden or not.
    Row {
        failing: &[(Call::Look, "/t/a"), (Call::Look, "/t/.h")],
        kind: ErrorKind::PermissionDenied,
        lines: "0 d /t; ! 1 /t/a PermissionDenied; 1 L /t/l; 1 d /t/s; ! 1 /t/.h PermissionDenied",
        ..LISTED
    },
    Row {
        failing: &[(Call::Open, "/t/s/")],
        kind: ErrorKind::PermissionDenied,
        lines: "0 d /t; 1 f /t/a; 1 L /t/l; 1 d /t/s ! 1 /t/s PermissionDenied",
        ..LISTED
    },
    Row {
        failing: &[(Call::Look, "/t")],
        lines: "! 0 /t NotFound",
        ..FOLLOWED
    },
    Row {
        failing: &[(Call::Open, "/t/")],
        lines: "0 d /t ! 0 /t NotFound",
        ..FOLLOWED
    },
    Row {
        failing: &[(Call::Look, "/t/s")],
        lines: "0 d /t; 1 f /t/a; 1 D /t/l; ! 1 /t/s NotFound",
        ..FOLLOWED
    },
    Row {
        failing: &[(Call::Open, "/t/s/")],
        lines: "0 d /t; 1 f /t/a; 1 D /t/l; 1 d /t/s ! 1 /t/s NotFound",
        ..FOLLOWED
    },
    Row {
        failing: &[(Call::Follow, "/t/l")],
        lines: "0 d /t; 1 f /t/a; ! 1 /t/l NotFound; 1 d /t/s",
        ..FOLLOWED
    },
    Row {
        failing: &[(Call::Text, "/t/l")],
        lines: "0 d /t; 1 f /t/a; ! 1 - NotFound; 1 d /t/s",
        ..FOLLOWED
    },
];

/// Memory runs out in each call.
const REFUSED: &[Row] = &[
    Row {
        failing: &[(Call::Look, "/t")],
        ..NO_MEMORY
    },
    Row {
        failing: &[(Call::Open, "/t/")],
        ..NO_MEMORY
    },
    Row {
        failing: &[(Call::Look, "/t/s")],
        ..NO_MEMORY
    },
    Row {
        failing: &[(Call::Open, "/t/s/")],
        lines: "0 d /t; 1 f /t/a; 1 D /t/l; ! 0 - memory",
        ..NO_MEMORY
    },
    Row {
        failing: &[(Call::Follow, "/t/l")],
        ..NO_MEMORY
    },
    Row {
        failing: &[(Call::Text, "/t/l")],
        ..NO_MEMORY
    },
];

/// Returns what is told of each error of a walk over names that are no texts.
fn names_told(alloc: Global) -> Result<String, AllocError> {
    let told = Told {
        readings: Readings::NamesThatAreNoTexts,
        interrupted: 0,
        failing: &[],
        kind: ErrorKind::NotFound,
    };
    let calls = Rc::new(alloc, Cell::new((0, 0, 0, 0)))?;
    let disk = ToldDisk { told, calls };
    let mut text = String::new(alloc);
    for answer in found(alloc, RealFs::new(disk), "/t", &[], false)? {
        if let Err(error) = answer {
            let (name, path) = (error.name_bytes(), error.path());
            write!(text, "{name:?} {path:?} {error}; ")?;
        }
    }
    Ok(text)
}

#[test]
fn a_name_that_is_no_text_keeps_its_bytes(rt: HostRuntime) {
    let wanted = "Some([97, 255]) None invalid filename in /t: a\\xff; \
                  Some([195]) None invalid filename in /t: \\xc3; ";
    let told = names_told(rt.alloc());
    assert!(rt; matches!(&told, Ok(told) if told.as_str() == wanted));
}

#[test]
fn walks_over_a_disk_whose_answers_are_in_a_table(rt: HostRuntime) {
    for (name, rows) in [
        ("counted", COUNTED),
        ("readings", READINGS),
        ("failing", FAILING),
        ("memory", REFUSED),
    ] {
        for (number, row) in rows.iter().enumerate() {
            assert!(rt; holds(rt.alloc(), row) == Ok(true), "{name}, row {number}");
        }
    }
}
