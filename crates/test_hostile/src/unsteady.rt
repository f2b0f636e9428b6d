//! Walks of every mode and option over file systems whose answers are drawn anew at each call.
mod counts;
mod disk;
mod seen;
mod walks;
