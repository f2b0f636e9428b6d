//! Walks with states, and walks over a caller's own file system, by worked examples.
mod callbacks;
mod counted;
mod walks;
