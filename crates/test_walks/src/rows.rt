//! Walks and their answers in one table, each read in every way.
mod begun;
mod callbacks;
mod calls;
mod courses;
mod faults;
mod links;
mod options;
mod parts;
mod roots;
mod row;
mod walks;
mod widths;
