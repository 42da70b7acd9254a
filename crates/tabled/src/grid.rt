//! Configurations, the store of borders in them, and what they are made of.

pub mod ansi;
pub mod config;
pub mod dimension;
pub mod records;
