// What a controller sees of a plant, and how a plant refuses.
#![tactic(auto)]

pub mod absent;
pub mod fault;
pub mod plant;
