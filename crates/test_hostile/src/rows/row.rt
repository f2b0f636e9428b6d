//! Walks over disks in tables, with their answers.
use crate::by_crew::ByCrew;
use crate::rows::disk::{At, Disk};
use crate::rows::{endless, identities, lies, one_file_system};
use jwalk::read_dir::NoProcess;
use std::alloc::AllocError;
use std::sync::Arc;
use test_fixtures::host::Host;
use test_fixtures::ways::{Asked, Setting, WAYS};

/// A walk over a disk, with its answers.
pub struct Row {
    /// What the row shows.
    pub name: &'static str,
    pub places: &'static [At],
    pub root: &'static str,
    pub settings: &'static [Setting],
    pub answers: &'static str,
    /// How often a directory is listed, where that is told.
    pub lists: Option<usize>,
    /// How often the disk is asked what a path leads to.
    pub asked: usize,
}

/// A row of which nothing is told yet.
pub const ROW: Row = Row {
    name: "",
    places: &[],
    root: "/r",
    settings: &[],
    answers: "",
    lists: None,
    asked: 0,
};

impl Row {
    fn has_counts(&self, disk: &Disk) -> bool {
        let (lists, asked) = disk.counts();
        asked == self.asked && (self.lists.is_none() || self.lists == Some(lists))
    }
}

/// Reads in each way and by a crew of two.
fn holds<R: Host>(rt: &R, row: &Row) -> Result<bool, AllocError> {
    let walk = ByCrew {
        fs: Arc::new(rt.alloc(), Disk::new(row.places))?,
        root: row.root,
        settings: row.settings,
    };
    let mut is_so = walk.shows(rt, 2, row.answers) && row.has_counts(&walk.fs);
    for way in WAYS {
        let fs = Disk::new(row.places);
        let walk = Asked {
            fs: &fs,
            root: row.root,
            settings: row.settings,
        };
        is_so &= walk.shows(rt, NoProcess, *way, row.answers) && row.has_counts(&fs);
    }
    Ok(is_so)
}

#[test]
fn walks_over_disks_in_tables(rt: HostRuntime) {
    for rows in [
        identities::ROWS,
        one_file_system::ROWS,
        lies::ROWS,
        endless::ROWS,
    ] {
        for row in rows {
            assert!(rt; holds(&rt, row) == Ok(true), "{}", row.name);
        }
    }
}
