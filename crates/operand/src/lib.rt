// Operands of an instruction list: kinds, ranges by edition, codes.
#![tactic(auto)]

pub mod edition;
pub mod kind;
pub mod operand;
