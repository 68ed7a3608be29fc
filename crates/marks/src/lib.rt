// Marks and cells of a list: where a jump goes, and how many history cells all calls have.
#![tactic(auto)]

pub mod cells;
pub mod jump;
pub mod mark;
