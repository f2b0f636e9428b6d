//! The parts of a pattern.

/// A part of a pattern of bytes or of names.
#[derive(Drop)]
pub(crate) enum Part<T> {
    /// Any number of items in a row, or none: `*` of bytes, `**` of names.
    Many,
    /// One item, which has to fit.
    One(T),
}
