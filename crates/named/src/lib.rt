// The points of a plant that the items of a list name.
#![tactic(auto)]

pub mod fitting;
pub mod point;
pub mod sets;
