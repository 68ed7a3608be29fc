// Which token fits the one before, and what it adds to the list.
#![tactic(auto)]

pub mod number;
pub mod state;
pub mod step;
