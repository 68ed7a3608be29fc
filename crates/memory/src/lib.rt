// The memory of a controller: operands and history cells, sound by its type.
#![tactic(auto)]

pub mod access;
mod keep;
pub mod load;
pub mod memory;
