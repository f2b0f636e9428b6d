//! The outcome of a call, beside its row.
use crate::programs::counts::{Asked, sum};
use crate::programs::disk::Failed;
use crate::programs::rows::{Asks, Out, Row};

/// The outcome of a call.
#[derive(Clone, Copy)]
pub(crate) struct Outcome<'o> {
    pub(crate) out: &'o [u8],
    pub(crate) err: &'o [u8],
    pub(crate) status: u8,
    pub(crate) asked: Asked,
}

fn lines_of(text: &[u8]) -> usize {
    let mut count: usize = 0;
    for byte in text {
        if *byte == b'\n' {
            count = count.saturating_add(1);
        }
    }
    count
}

impl Outcome<'_> {
    fn is_written(&self, row: &Row<'_>) -> bool {
        match row.out {
            Out::Text(text) => self.out == text.as_bytes(),
            Out::Lines(count) => lines_of(self.out) == count,
            Out::Any => true,
        }
    }

    fn is_asked(&self, row: &Row<'_>) -> bool {
        match row.asks {
            Asks::Any => true,
            Asks::These(asked) => asked == self.asked,
            Asks::AtMost(most) => sum(self.asked) <= most,
        }
    }

    /// Returns whether this is what the row says.
    pub(crate) fn is(&self, row: &Row<'_>) -> bool {
        let is_told = self.err == row.err.as_bytes() && self.status == row.status;
        is_told && self.is_written(row) && self.is_asked(row)
    }

    /// Returns whether standard error says that memory ran out.
    fn is_refused(&self) -> bool {
        self.err == "seek: memory refused\n".as_bytes()
            || self.err == "seek: memory refused for the walk\n".as_bytes()
    }

    /// Returns whether this is right where a question failed: memory ran out for what is missing, or an error is told if
    /// anything differs.
    pub(crate) fn tells(&self, row: &Row<'_>, failed: Failed) -> bool {
        match (failed, row.out) {
            (Failed::Memory, Out::Text(text)) => {
                text.as_bytes().starts_with(self.out) && self.is_refused() && self.status == 1
            }
            (Failed::Memory, _) => false,
            (Failed::Io(_), _) => self.is(row) || (!self.err.is_empty() && self.status == 1),
        }
    }
}
