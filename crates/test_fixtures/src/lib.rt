//! The shared parts of the tests: trees, folders on the disk, file systems that count, fail or wait, a plain walk to
//! compare others with, the ways to read a walk, all answers of a walk over a crew, an allocator that refuses, the
//! outcomes of walks over it, a family on a board, and answers as texts.
#![tactic(auto)]

pub mod answers;
pub mod builders;
pub mod by_crew;
pub mod dice;
pub mod family;
pub mod folder;
pub mod host;
pub mod listed_directory;
pub mod meeting;
pub mod moving;
pub mod plain_walk;
pub mod refused;
pub mod refusing_alloc;
pub mod resting;
pub mod texts;
pub mod trees;
pub mod watched;
pub mod ways;
pub mod width;
