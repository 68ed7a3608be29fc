// Whole numbers as operands hold them: limits, and the operations on words.
#![tactic(auto)]

pub mod limit;
pub mod operations;
