//! The callback that honours ignore files: which of them it reads, and what they leave of a list; and one that leaves out
//! what lines of a call name.

pub mod builder;
mod entry_rules;
pub mod excluding;
mod failed;
pub mod ignore_files;
mod kept;
mod listed;
mod places;
mod rules_reader;
mod settings;
mod source;
pub mod states;
