//! File systems that fail, change or lie, by worked examples.
mod descriptors;
mod disk;
mod endless;
mod identities;
mod lies;
mod one_file_system;
mod row;
mod vanishing;
