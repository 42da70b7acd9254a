//! What the programs `tabled_show` and `tabled_view` promise: each promise is the contract of a function here, and its body is the call that
//! keeps it. What tables promise stands in `tabled_claims`.
#![tactic(auto)]

pub mod program;
pub mod viewing;
