// Questions 5 and 7 to 10: known items, bracket depth, types, assigned operands and pins.
#![tactic(auto)]

pub mod depth;
pub mod known;
pub mod pins;
pub mod targets;
pub mod types;
