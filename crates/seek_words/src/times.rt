//! The times at which the entries that are looked for were modified.
ghost use Rattle.std.specs.Prelude.{◌≡◌};
ghost use Rattle.std.specs.Option.{option_copied};
ghost use Rattle.seek_words.specs.Seen.{details_seen};
ghost use Rattle.seek_words.specs.Times.{is_after, is_before, nanoseconds_of};

use crate::seen::details_seen;
use jwalk_model::metadata::{Metadata, Moment};

/// The times at which the entries that are looked for were modified, in nanoseconds since the beginning of 1970. A
/// limit that isn't named makes no difference.
#[derive(Clone, Copy, Debug, PartialEq, Eq)]
pub struct Times {
    /// Later than this.
    pub after: Option<i128>,
    /// Later than a file.
    pub after_file: Option<i128>,
    /// Before this.
    pub before: Option<i128>,
}

/// Returns a moment in nanoseconds since the beginning of 1970.
pub fn nanoseconds_of(moment: Moment) -> i128
    ensures { result ≡ nanoseconds_of moment }
{
    i128::from(moment.seconds) * 1_000_000_000 + i128::from(moment.nanoseconds)
}

fn is_after(limit: Option<i128>, time: i128) -> bool
    ensures { result ≡ is_after limit time }
{
    limit.is_none_or(|limit| time > limit)
}

fn is_before(limit: Option<i128>, time: i128) -> bool
    ensures { result ≡ is_before limit time }
{
    limit.is_none_or(|limit| time < limit)
}

impl Times {
    ghost use Rattle.seek_words.specs.Times.{is_modified, is_timed, names_no_time};

    /// No limit.
    pub const ANY: Times = Times {
        after: None,
        after_file: None,
        before: None,
    };

    fn names_none(self) -> bool
        ensures { result ≡ names_no_time self }
    {
        self.after.is_none() && self.after_file.is_none() && self.before.is_none()
    }

    fn has_moment(self, modified: Moment) -> bool
        ensures { result ≡ is_modified self modified }
    {
        let time = nanoseconds_of(modified);
        is_after(self.after, time)
            && is_after(self.after_file, time)
            && is_before(self.before, time)
    }

    /// Returns whether an entry with this metadata is looked for. If the metadata isn't known, the entry is if no time
    /// is named.
    pub fn has(self, seen: Option<&Metadata>) -> bool
        ensures { result ≡ is_timed self (option_copied seen.entry) }
    {
        match details_seen(seen) {
            Some(details) => self.has_moment(details.modified),
            None => self.names_none(),
        }
    }
}
