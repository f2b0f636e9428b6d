//! What the programs share: words and their refusal, the text of help, the written form of paths, masked texts,
//! output that is gathered, and the version.
#![tactic(auto)]

pub mod errors;
pub mod gathered;
pub mod halt;
pub mod help;
pub mod masked;
pub mod masked_lines;
pub mod options;
pub mod paths;
pub mod refusal;
pub mod values;
pub mod version;
