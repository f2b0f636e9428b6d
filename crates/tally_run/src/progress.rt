//! How far a call is, on standard error.
use jwalk_subtotals::Subtotal;
use program_parts::errors::Errors;
use std::io;
use std::io::Write;
use std::time::{Clock, Duration};

/// What errors are reported to, and how far a call is.
pub(crate) trait Report: Write {
    /// Tells an error.
    fn error(&mut self, what: &str);

    /// Takes note of the subtotal of a root.
    fn finish(&mut self, root: &Subtotal);

    /// Returns whether it is time to tell how far the call is.
    fn is_due(&self) -> bool;

    /// Tells how far the call is: this was counted below the root at hand.
    fn tell(&mut self, so_far: &Subtotal);

    /// Wipes what tells how far the call is.
    fn wipe(&mut self);
}

/// Standard error, with a line that tells how many entries were read. The line is written where more than a second has
/// passed since the beginning, or since it was written last, and wiped before anything else is.
#[derive(Drop)]
pub(crate) struct Progress<'a, K, E> {
    clock: &'a K,
    err: &'a mut Errors<E>,
    /// How many entries were read below the roots before.
    before: u128,
    /// When the line is written next, if it is.
    due: Option<Duration>,
    is_shown: bool,
}

fn entries_in(subtotal: &Subtotal) -> u128 {
    subtotal
        .files
        .saturating_add(subtotal.dirs)
        .saturating_add(subtotal.links)
        .saturating_add(subtotal.others)
}

/// Returns the time in a second, if a clock tells it.
fn in_a_second<K: Clock>(clock: &K) -> Option<Duration> {
    let now = clock.monotonic().ok()?;
    Some(now.saturating_add(Duration::from_secs(1)))
}

impl<'a, K: Clock, E: Write> Progress<'a, K, E> {
    /// Returns a standard error that the line isn't written to yet. It will be if `tells` says so.
    pub(crate) fn new(clock: &'a K, err: &'a mut Errors<E>, tells: bool) -> Self {
        Progress {
            clock,
            err,
            before: 0,
            due: if tells { in_a_second(clock) } else { None },
            is_shown: false,
        }
    }
}

impl<'a, K: Clock, E: Write> Write for Progress<'a, K, E> {
    fn write(&mut self, buf: &[u8]) -> io::Result<usize> {
        self.wipe();
        self.err.write(buf)
    }

    fn flush(&mut self) -> io::Result<()> {
        self.err.flush()
    }
}

impl<'a, K: Clock, E: Write> Report for Progress<'a, K, E> {
    fn error(&mut self, what: &str) {
        self.wipe();
        self.err.tell("tally", what);
    }

    fn finish(&mut self, root: &Subtotal) {
        self.before = self.before.saturating_add(entries_in(root));
    }

    fn is_due(&self) -> bool {
        match self.due {
            Some(due) => self.clock.monotonic().is_ok_and(|now| now > due),
            None => false,
        }
    }

    fn tell(&mut self, so_far: &Subtotal) {
        let read = self.before.saturating_add(entries_in(so_far));
        let _ = write!(self.err, "\rentries read: {read}");
        let _ = self.err.flush();
        self.is_shown = true;
        self.due = in_a_second(self.clock);
    }

    fn wipe(&mut self) {
        if self.is_shown {
            let _ = write!(self.err, "\r\u{1b}[K");
            self.is_shown = false;
        }
    }
}
