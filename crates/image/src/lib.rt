// The image of an instruction list: the words that a controller loads.
#![tactic(auto)]

pub mod constant;
pub mod example;
pub mod write;
