//! The answers of a search, filtered and printed, and a call of the program `seek` without its walks: patterns, errors
//! and the status.
#![tactic(auto)]

mod accounts;
pub mod bad_pattern;
pub mod call;
pub mod found;
pub mod glob;
pub mod name_pattern;
pub mod owner;
pub mod pattern_test;
pub mod printer;
pub mod report;
pub mod sought;
pub mod sought_test;
pub mod times;
