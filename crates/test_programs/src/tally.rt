//! Calls of `tally` that no rows over a disk can tell, and subtotals where memory is refused.
mod disk;
mod refused;
mod rows;
