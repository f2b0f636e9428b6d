//! How far a pattern goes before its next star.
use crate::pattern::part::Part;

/// What is known once the parts of a pattern in front of its first star were compared with a text.
#[derive(Drop)]
pub(crate) enum Taken<'p, 't, T> {
    /// The pattern doesn't fit.
    Misfit,
    /// It has no star, and fits all of the text.
    Whole,
    /// There is a star: these parts are behind it, and this is left of the text.
    ToStar(&'p [Part<T>], &'t [u8]),
}
