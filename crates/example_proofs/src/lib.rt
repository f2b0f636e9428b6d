//! Six functions over walks, each with a contract of its own to copy.
#![tactic(auto)]

pub mod hands_on_names;
pub mod ignoring;
pub mod subtotals;
pub mod three_ways;
pub mod totals;
pub mod whole;
