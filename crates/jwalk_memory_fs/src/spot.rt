//! What a path that is built on leads to.

/// A name in a directory, which is given by its index in the table. It may be that of a child or be free.
#[derive(Clone, Copy)]
pub(crate) struct Spot<'p> {
    pub(crate) holder: usize,
    pub(crate) name: &'p str,
}
