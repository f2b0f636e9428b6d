//! Calls of `walk` that no rows over a disk or over a tree in memory can tell.
mod failing;
mod long;

use crate::programs::rows::Program;
use crate::programs::run::Way;

const WALK: Way = Way {
    program: Program::Walk,
    front: &[],
};
