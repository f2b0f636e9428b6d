//! The output of `tally`, over plain values: sizes, lines, a tree of results, tables and JSON.
#![tactic(auto)]

pub mod document;
pub mod layout;
pub mod line;
pub mod node;
pub mod nodes;
pub mod numbers;
pub mod rest;
pub mod scale;
pub mod table;
