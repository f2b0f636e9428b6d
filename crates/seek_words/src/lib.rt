//! The words of a call of `seek`, their meaning, and the entries of a walk that are looked for, over plain values.
#![tactic(auto)]

pub mod asked;
pub mod case;
pub mod color;
mod command;
mod date;
pub mod depths;
mod empty;
pub mod expression;
pub mod extension;
pub mod filter;
pub mod hidden;
pub mod joined;
pub mod kinds;
pub mod layout;
mod length;
pub mod lines;
pub mod name_test;
pub mod owner;
pub mod paint;
pub mod refusal;
pub mod screen;
pub mod seen;
pub mod shown;
pub mod size;
pub mod subject;
pub mod time;
pub mod times;
pub mod wanted;
pub mod words;
