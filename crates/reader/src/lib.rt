// From tokens to the items and constants of a list.
#![tactic(auto)]

pub mod read;
