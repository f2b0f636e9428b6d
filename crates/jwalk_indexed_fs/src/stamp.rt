//! Which directory it is, and when it last changed.
ghost use Rattle.std.specs.Prelude.{◌≡◌, ◌↔◌, ◌+ℤ◌, ◌<ℤ◌, pos, IsTrue};

use jwalk_model::metadata::{Identity, Metadata, Moment};

/// How many whole seconds have to lie between a change of a directory and a walk whose listing of it may be used later.
/// The clock of a file system may be that coarse, and then a later change could leave the time as it is.
const SETTLED: i64 = 2;

/// Which directory it is, and when it last changed. The time is that of the change of its list or of its metadata
/// (`st_ctime`), which no program can set back, as it can the time of the last write.
#[derive(Clone, Copy, Debug, PartialEq, Eq)]
pub struct Stamp {
    pub identity: Identity,
    pub changed: Moment,
}

impl Stamp {
    ghost use Rattle.jwalk_indexed_fs.specs.Stamp.{stamp_of, IsSettled};

    /// Returns the stamp of what was found, if it is a directory and it is known which one. A link has none, whatever it
    /// leads to.
    pub fn of(found: &Metadata) -> Option<Stamp>
        ensures { result ≡ stamp_of found.now }
    {
        let details = found.details()?;
        if found.is_dir() && details.identity.is_known() {
            Some(Stamp {
                identity: details.identity,
                changed: details.changed,
            })
        } else {
            None
        }
    }

    /// Returns whether the directory last changed more than two whole seconds before the time `start`.
    pub fn is_settled(self, start: Moment) -> bool
        ensures { IsTrue result ↔ IsSettled start self }
    {
        match self.changed.seconds.checked_add(SETTLED) {
            Some(settled) => settled < start.seconds,
            None => false,
        }
    }
}
