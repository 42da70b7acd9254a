//! A plain reader of a list of events.
//!
//! The reader keeps nothing but the list and goes over it for each question, as the definitions of the events say.
//! Nothing but `tests/replay.rs` uses it.
#![tactic(auto)]

mod event_list;

pub use event_list::{drawn, replay, value};
