//! A user's excludes: the ignore file for all repositories that git's configuration names, or else the one in its folder.
#![tactic(auto)]

pub mod excludes;
pub mod home;
mod named;
mod repository;
pub mod unread;
pub mod user_texts;
